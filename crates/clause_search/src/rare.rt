// Rules that seldom find anything: they go through trees where a fact has their shape, and else pass.
ghost use Rattle.std.specs.Prelude.{◌≡◌, ◌<◌, length, IfOk};
ghost use Rattle.std.specs.List.{AllByRecursion, list_any};
ghost use Rattle.theory_rules.specs.Condition.{condition};
ghost use Rattle.theory_rules.specs.Differ.{differ};
ghost use Rattle.term_bank.specs.Numbered.{at};
ghost use Rattle.numbered_terms.specs.Stored.{Grows};
ghost use Rattle.numbered_branches.specs.Applied.{TriesAt};
ghost use Rattle.numbered_branches.specs.Branches.{NumberedFact, IsFactBelow, IsBranchOver, branch_at};
ghost use Rattle.clause_search.specs.Rare.{has_choice, are_maps, are_unequal_maps};

use crate::by_trees::{Rare, through_trees};
use logic_core::fault::NormalFault;
use numbered_branches::branch::{Branch, Fact};
use numbered_branches::played::Attempt;
use numbered_facts::Store;
use std::alloc::AllocError;
use term_bank::{Node, TermId};

// Whether an If stands in the term, outside quantifiers.
fn has_choice(store: &mut Store, id: TermId) -> Result<bool, AllocError>
    requires { id < length store.old.terms }
    ensures grows { Grows store.old store.new }
    ensures has { IfOk result (λ b. b ≡ has_choice (at store.old.terms id)) }
{
    Ok(store.choice(id)?.is_some())
}

// Whether an If stands in a fact, outside quantifiers.
fn any_has_choice(store: &mut Store, facts: &[Fact]) -> Result<bool, AllocError>
    requires { AllByRecursion (IsFactBelow (length store.old.terms)) facts.now }
    ensures grows { Grows store.old store.new }
    ensures any { IfOk result (λ b. b ≡ list_any (λ (f : NumberedFact). has_choice (at store.old.terms f.term)) facts.now) }
{
    for fact in facts {
        if has_choice(store, fact.term)? {
            return Ok(true);
        }
    }
    Ok(false)
}

/// The rule condition. Wide exactly where applying it leaves 128 bits.
#[tactic(auto, using(numbered_facts::proofs::Growing::same))]
pub fn condition(store: &mut Store, branch: Branch) -> Result<Attempt, NormalFault>
    requires { IsBranchOver store.old.terms branch }
    ensures grows { Grows store.old store.new }
    ensures tries { TriesAt store.new.terms (branch_at store.old.terms branch) result (condition store.old.defs (branch_at store.old.terms branch)) }
{
    let found = any_has_choice(store, &branch.facts)?;
    if found {
        return through_trees(store, Rare::Condition, branch);
    }
    Ok(Attempt::Passes(branch))
}

// Whether the term is an Eq of maps.
fn are_maps(store: &mut Store, id: TermId) -> Result<bool, AllocError>
    requires { id < length store.old.terms }
    ensures grows { Grows store.old store.new }
    ensures are { IfOk result (λ b. b ≡ are_maps store.old.vars store.old.defs (at store.old.terms id)) }
{
    match store.terms().node(id) {
        Node::Eq(left, _) => {
            let left = *left;
            store.is_map(left)
        }
        _ => Ok(false),
    }
}

// Whether the term is a Not Eq of maps.
fn are_unequal_maps(store: &mut Store, id: TermId) -> Result<bool, AllocError>
    requires { id < length store.old.terms }
    ensures grows { Grows store.old store.new }
    ensures are { IfOk result (λ b. b ≡ are_unequal_maps store.old.vars store.old.defs (at store.old.terms id)) }
{
    match store.terms().node(id) {
        Node::Not(inner) => {
            let inner = *inner;
            are_maps(store, inner)
        }
        _ => Ok(false),
    }
}

// Whether a fact is a Not Eq of maps.
fn any_are_unequal_maps(store: &mut Store, facts: &[Fact]) -> Result<bool, AllocError>
    requires { AllByRecursion (IsFactBelow (length store.old.terms)) facts.now }
    ensures grows { Grows store.old store.new }
    ensures any { IfOk result (λ b. b ≡ list_any (λ (f : NumberedFact). are_unequal_maps store.old.vars store.old.defs (at store.old.terms f.term)) facts.now) }
{
    for fact in facts {
        if are_unequal_maps(store, fact.term)? {
            return Ok(true);
        }
    }
    Ok(false)
}

/// The rule differ. Wide exactly where applying it leaves 128 bits.
#[tactic(auto, using(numbered_facts::proofs::Growing::same))]
pub fn differ(store: &mut Store, branch: Branch) -> Result<Attempt, NormalFault>
    requires branch { IsBranchOver store.old.terms branch }
    requires vars { store.old.vars ≡ branch.vars }
    ensures grows { Grows store.old store.new }
    ensures tries { TriesAt store.new.terms (branch_at store.old.terms branch) result (differ store.old.defs (branch_at store.old.terms branch)) }
{
    let found = any_are_unequal_maps(store, &branch.facts)?;
    if found {
        return through_trees(store, Rare::Differ, branch);
    }
    Ok(Attempt::Passes(branch))
}
