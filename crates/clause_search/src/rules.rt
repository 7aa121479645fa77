// The rules in the order in which a step tries them.
ghost use Rattle.std.specs.Prelude.{◌≡◌, List, OnOk};
ghost use Rattle.logic_core.specs.Tree.{Tree};
ghost use Rattle.numbered_branches.specs.Applied.{TriesAt, AttemptsAt};
ghost use Rattle.numbered_branches.specs.Branches.{IsBranchOver, branch_at};
ghost use Rattle.numbered_terms.specs.Stored.{Grows};
ghost use Rattle.tableau.specs.Rules.{rule_of};
ghost use Rattle.tableau.specs.Search.{step};
ghost use Rattle.term_bank.specs.Numbered.{Begins};
ghost use Rattle.clause_search.specs.Tables.{AreRight};

use crate::rare::{condition, differ};
use logic_core::fault::NormalFault;
use numbered_branches::branch::Branch;
use numbered_branches::played::{Attempt, Move};
use numbered_facts::Store;
use numbered_instances::candidates::Instances;
use numbered_instances::instantiating::instantiate;
use numbered_instances::rewriting::rewrite;
use numbered_instances::shared::Shared;
use numbered_logic::apart::Apart;
use numbered_logic::closing::close;
use numbered_logic::flattening::flatten;
use numbered_logic::skolemizing::skolem;
use numbered_logic::splitting::split;
use numbered_logic::unfolding::unfold;
use numbered_terms::slots::Slots;
use numbered_theory::back::back;
use numbered_theory::combining::combine;
use numbered_theory::leads::Leads;
use numbered_theory::past::past;
use numbered_theory::trichotomy::trichotomy;
use numbered_theory::tried::Tried;
use std::alloc::{AllocError, Global};
use tableau::rules::Rule;

/// The order in which a step tries them.
const ORDER: [Rule; 13] = [
    Rule::Close,
    Rule::Flatten,
    Rule::Skolem,
    Rule::Rewrite,
    Rule::Back,
    Rule::Unfold,
    Rule::Combine,
    Rule::Trichotomy,
    Rule::Split,
    Rule::Condition,
    Rule::Past,
    Rule::Differ,
    Rule::Instantiate,
];

/// What the rules keep from step to step, which may be tried on any branches: facts of which none closes
/// one, the facts that were listed last with the counts of their atoms, the linear facts of which pairs were
/// tried, and the room of other lists.
pub struct Tables {
    pub apart: Apart,
    pub shared: Shared,
    pub instances: Instances,
    pub leads: Leads,
    pub places: Slots<usize>,
    pub tried: Tried,
}

// Written out: a derived drop is proved again wherever a value is dropped.
impl Drop for Tables {
    fn drop(self) {
        let Tables {
            apart: _apart,
            shared: _shared,
            instances: _instances,
            leads: _leads,
            places: _places,
            tried: _tried,
        } = self;
    }
}

impl Tables {
    /// Nothing is kept.
    pub fn new(alloc: Global) -> Tables
        ensures { (ts : List Tree) → AreRight ts result }
    {
        Tables {
            apart: Apart::new(alloc),
            shared: Shared::new(alloc),
            instances: Instances::new(alloc),
            leads: Leads::new(alloc),
            places: Slots::new(alloc),
            tried: Tried::new(alloc),
        }
    }
}

/// What the rule makes of the branch. Wide exactly where applying it leaves 128 bits.
fn try_rule(
    store: &mut Store,
    tables: &mut Tables,
    rule: Rule,
    branch: Branch,
) -> Result<Attempt, NormalFault>
    requires branch { IsBranchOver store.old.terms branch }
    requires vars { store.old.vars ≡ branch.vars }
    requires tables { AreRight store.old.terms tables.old }
    ensures terms { Begins store.old.terms store.new.terms }
    ensures grows { OnOk result (Grows store.old store.new) }
    ensures tables { OnOk result (AreRight store.new.terms tables.new) }
    ensures tries { TriesAt store.new.terms (branch_at store.old.terms branch) result (rule_of store.old.defs rule (branch_at store.old.terms branch)) }
{
    match rule {
        Rule::Skolem => skolem(store, branch),
        Rule::Condition => condition(store, branch),
        Rule::Differ => differ(store, branch),
        Rule::Close => close(store, &mut tables.apart, branch),
        Rule::Flatten => flatten(store, branch),
        Rule::Split => split(store, branch),
        Rule::Unfold => unfold(store, branch),
        Rule::Back => back(store, branch),
        Rule::Combine => combine(
            store,
            &mut tables.leads,
            &mut tables.places,
            &mut tables.tried,
            branch,
        ),
        Rule::Trichotomy => trichotomy(store, &mut tables.leads, branch),
        Rule::Past => past(store, branch),
        Rule::Rewrite => rewrite(store, &mut tables.shared, branch),
        Rule::Instantiate => instantiate(store, &mut tables.instances, branch),
    }
}

/// Applies the first rule that can be applied. None exactly where there is none, and Wide exactly
/// where applying it leaves 128 bits.
#[tactic(auto, using(numbered_facts::proofs::Growing::same), unfolding(tableau::specs::Search::step))]
fn first_rule(
    store: &mut Store,
    tables: &mut Tables,
    branch: Branch,
) -> Result<Option<Move>, NormalFault>
    requires branch { IsBranchOver store.old.terms branch }
    requires vars { store.old.vars ≡ branch.vars }
    requires tables { AreRight store.old.terms tables.old }
    ensures terms { Begins store.old.terms store.new.terms }
    ensures grows { OnOk result (Grows store.old store.new) }
    ensures tables { OnOk result (AreRight store.new.terms tables.new) }
    ensures attempts { AttemptsAt store.new.terms result (step store.old.defs (branch_at store.old.terms branch)) }
{
    let mut branch = branch;
    for rule in ORDER {
        match try_rule(store, tables, rule, branch)? {
            Attempt::Gives(step) => return Ok(Some(step)),
            Attempt::Passes(same) => branch = same,
        }
    }
    Ok(None)
}

/// Applies the first rule that can be applied. None exactly where there is none, and Wide exactly
/// where applying it leaves 128 bits.
pub fn step(
    store: &mut Store,
    tables: &mut Tables,
    branch: Branch,
) -> Result<Option<Move>, NormalFault>
    requires branch { IsBranchOver store.old.terms branch }
    requires tables { AreRight store.old.terms tables.old }
    ensures terms { Begins store.old.terms store.new.terms }
    ensures defs { OnOk result (store.new.defs ≡ store.old.defs) }
    ensures tables { OnOk result (AreRight store.new.terms tables.new) }
    ensures attempts { AttemptsAt store.new.terms result (step store.old.defs (branch_at store.old.terms branch)) }
{
    store.over(&branch.vars)?;
    first_rule(store, tables, branch)
}
