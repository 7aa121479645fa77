// The rule flatten, over numbers.
ghost use Rattle.std.specs.Prelude.{◌≡◌, ◌<◌, length, map, None, IfOk, IfSome, IfNone};
ghost use Rattle.std.specs.List.{AllByRecursion};
ghost use Rattle.logic_core.specs.Tree.{all};
ghost use Rattle.logic_core.specs.View.{trees_of};
ghost use Rattle.term_bank.specs.Numbered.{at};
ghost use Rattle.tableau_branch.specs.Branch.{first_from};
ghost use Rattle.logic_rules.specs.Flattening.{conjuncts_of, as_all, flattened_at, flatten};
ghost use Rattle.numbered_terms.specs.Stored.{Grows};
ghost use Rattle.numbered_branches.specs.Applied.{TriesAt, GivesMoveAt};
ghost use Rattle.numbered_branches.specs.Branches.{branch_at, fact_at, IsFactBelow, IsBranchOver};
ghost use Rattle.numbered_logic.specs.Found.{found_at, IsFoundIn, Finds};

use crate::forms::normal_forms;
use crate::found::{Found, term_of, without};
use logic_core::NormalFault;
use numbered_branches::branch::{Branch, Fact};
use numbered_branches::on_one::adding_each;
use numbered_branches::played::{Attempt, Move};
use numbered_branches::step::Step;
use numbered_facts::Store;
use numbered_terms::Terms;
use numbered_terms::renumber::copy_numbers;
use std::alloc::AllocError;
use term_bank::{Node, TermId};

// The parts of an And.
fn conjuncts(terms: &Terms, id: TermId) -> Option<&[TermId]>
    requires { id < length terms.now }
    ensures is { IfSome result (λ ids. at terms.now id ≡ all (trees_of (map (at terms.now) ids.now))) }
    ensures within { IfSome result (λ ids. AllByRecursion (λ j. j < id) ids.now) }
    ensures other { IfNone result (conjuncts_of (at terms.now id) ≡ None) }
{
    match terms.node(id) {
        Node::And(parts) => Some(parts),
        _ => None,
    }
}

// The oldest And, with its parts.
fn oldest_and(terms: &Terms, facts: &[Fact]) -> Result<Option<Found>, AllocError>
    requires { AllByRecursion (IsFactBelow (length terms.now)) facts.now }
    ensures { IfOk result (λ o. Finds terms.now facts.now o (first_from as_all 0 (map (fact_at terms.now) facts.now))) }
{
    for (at, fact) in facts.iter().enumerate() {
        let id = term_of(fact);
        if let Some(parts) = conjuncts(terms, id) {
            let parts = copy_numbers(terms.alloc(), parts)?;
            return Ok(Some(Found::new(at, fact, parts)));
        }
    }
    Ok(None)
}

// The And goes; its parts are added in order. Wide exactly where one leaves 128 bits.
fn flatten_at(store: &mut Store, branch: Branch, found: Found) -> Result<Move, NormalFault>
    requires branch { IsBranchOver store.old.terms branch }
    requires vars { store.old.vars ≡ branch.vars }
    requires found { IsFoundIn store.old.terms branch.facts found }
    ensures grows { Grows store.old store.new }
    ensures gives { GivesMoveAt store.new.terms result (flattened_at store.old.defs (branch_at store.old.terms branch) (found_at store.old.terms found)) }
{
    let parts = normal_forms(store, &found.terms)?;
    let rest = without(store.terms(), branch, found.at);
    let node = Step::Split(found.number);
    Ok(adding_each(store, rest, node, &parts)?)
}

/// The oldest And goes; its parts are added in order.
pub fn flatten(store: &mut Store, branch: Branch) -> Result<Attempt, NormalFault>
    requires branch { IsBranchOver store.old.terms branch }
    requires vars { store.old.vars ≡ branch.vars }
    ensures grows { Grows store.old store.new }
    ensures tries { TriesAt store.new.terms (branch_at store.old.terms branch) result (flatten store.old.defs (branch_at store.old.terms branch)) }
{
    match oldest_and(store.terms(), &branch.facts)? {
        Some(found) => Ok(Attempt::Gives(flatten_at(store, branch, found)?)),
        None => Ok(Attempt::Passes(branch)),
    }
}
