// Rules of terms on branches of numbers.
ghost use Rattle.tableau_branch.specs.Applied.{Tries};
ghost use Rattle.numbered_branches.specs.Applied.{TriesAt};
ghost use Rattle.numbered_branches.specs.Branches.{IsBranchOver, branch_at};
ghost use Rattle.numbered_terms.specs.Stored.{Grows};
ghost use Rattle.clause_search.specs.Rare.{rare_of};

use logic_core::fault::NormalFault;
use numbered_branches::branch::Branch;
use numbered_branches::played::{Attempt, Move};
use numbered_facts::Store;
use std::alloc::AllocError;
use tableau_branch::played::Attempt as TreeAttempt;
use theory_rules::condition::condition;
use theory_rules::differ::differ;

/// The rules that go through trees.
#[derive(Clone, Copy)]
pub enum Rare {
    Condition,
    Differ,
}

// What the rule makes of the branch, over terms.
fn tried(store: &Store, rule: Rare, branch: &Branch) -> Result<TreeAttempt, NormalFault>
    requires { IsBranchOver store.now.terms branch.now }
    ensures { Tries (branch_at store.now.terms branch.now) result (rare_of store.now.defs rule (branch_at store.now.terms branch.now)) }
{
    let tree = branch.trees(store.terms())?;
    match rule {
        Rare::Condition => condition(store.alloc(), store.defs(), tree),
        Rare::Differ => differ(store.alloc(), store.defs(), tree),
    }
}

/// What the rule makes of the branch. Wide exactly where applying it leaves 128 bits.
#[tactic(auto, using(numbered_facts::proofs::Growing::same))]
pub fn through_trees(store: &mut Store, rule: Rare, branch: Branch) -> Result<Attempt, NormalFault>
    requires { IsBranchOver store.old.terms branch }
    ensures grows { Grows store.old store.new }
    ensures tries { TriesAt store.new.terms (branch_at store.old.terms branch) result (rare_of store.old.defs rule (branch_at store.old.terms branch)) }
{
    match tried(store, rule, &branch)? {
        TreeAttempt::Passes(same) => {
            drop(same);
            Ok(Attempt::Passes(branch))
        }
        TreeAttempt::Gives(step) => {
            let made = Move::of(store, &step);
            drop(step);
            Ok(Attempt::Gives(made?))
        }
    }
}
