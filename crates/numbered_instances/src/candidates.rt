// The first ForAll and tuple of which there is no mark, by number.
ghost use Rattle.std.specs.Prelude.{◌≡◌, ◌<◌, not, length, map, find, flat_map, option_map, IfOk, IfSome};
ghost use Rattle.std.specs.List.{AllByRecursion, list_any};
ghost use Rattle.logic_rules.specs.Instantiating.{is_unmarked, candidates_of, candidates};
ghost use Rattle.term_bank.specs.Numbered.{at};
ghost use Rattle.numbered_terms.specs.Lists.{terms_at};
ghost use Rattle.numbered_terms.specs.Stored.{Grows};
ghost use Rattle.numbered_branches.specs.Branches.{IsBranchOver, IsFactBelow, branch_at, fact_at};
ghost use Rattle.numbered_instances.specs.Instances.{is_for_all};
ghost use Rattle.numbered_instances.specs.Candidates.{candidate_at, IsFoundOver};

use crate::ground::list_ground;
use crate::marks::first_new;
use crate::passed::list_passed;
use crate::tuples::tuples_of;
use numbered_branches::branch::{Branch, Fact};
use numbered_facts::Store;
use numbered_terms::Terms;
use numbered_terms::number_set::NumberSet;
use std::alloc::{AllocError, Global};
use term_bank::{Node, TermId};

/// Numbers that are listed anew at each step, and whose room is kept.
#[derive(Drop)]
pub struct Instances {
    ground: NumberSet,
    marked: NumberSet,
    passed: NumberSet,
}

impl Instances {
    /// Nothing is listed.
    pub fn new(alloc: Global) -> Instances {
        Instances {
            ground: NumberSet::new(alloc),
            marked: NumberSet::new(alloc),
            passed: NumberSet::new(alloc),
        }
    }
}

/// A fact that is a ForAll, and the And of a tuple of one of its triggers.
#[derive(Drop)]
pub struct Found {
    pub fact: Fact,
    pub tuple: TermId,
}

// The first tuple of the fact's triggers for which it has no mark.
fn first_at(
    store: &mut Store,
    ground: &[TermId],
    marked: &mut NumberSet,
    passed: &mut NumberSet,
    branch: &Branch,
    fact: &Fact,
) -> Result<Option<Found>, AllocError>
    requires ground { AllByRecursion (λ j. j < length store.old.terms) ground.now }
    requires branch { IsBranchOver store.old.terms branch.now }
    requires vars { store.old.vars ≡ branch.now.vars }
    requires fact { IsFactBelow (length store.old.terms) fact.now }
    ensures grows { Grows store.old store.new }
    ensures first { IfOk result (λ o. option_map (candidate_at store.new.terms) o ≡ find (is_unmarked (branch_at store.old.terms branch.now)) (candidates_of store.old.defs (branch_at store.old.terms branch.now) (terms_at store.old.terms ground.now) (fact_at store.old.terms fact.now))) }
    ensures within { IfOk result (λ o. IfSome o (IsFoundOver store.new.terms)) }
{
    let terms = store.terms();
    if !is_for_all(terms, fact.term) {
        return Ok(None);
    }
    list_passed(terms, passed, &branch.marks, fact.term)?;
    let tuples = tuples_of(terms, store.vars(), store.defs(), ground, passed, fact.term)?;
    match first_new(store, marked, &branch.marks, fact.term, tuples)? {
        Some(tuple) => Ok(Some(Found { fact: *fact, tuple })),
        None => Ok(None),
    }
}

// The same of the facts in order.
fn first_in(
    store: &mut Store,
    ground: &[TermId],
    marked: &mut NumberSet,
    passed: &mut NumberSet,
    branch: &Branch,
    facts: &[Fact],
) -> Result<Option<Found>, AllocError>
    requires ground { AllByRecursion (λ j. j < length store.old.terms) ground.now }
    requires branch { IsBranchOver store.old.terms branch.now }
    requires vars { store.old.vars ≡ branch.now.vars }
    requires facts { AllByRecursion (IsFactBelow (length store.old.terms)) facts.now }
    ensures grows { Grows store.old store.new }
    ensures first { IfOk result (λ o. option_map (candidate_at store.new.terms) o ≡ find (is_unmarked (branch_at store.old.terms branch.now)) (flat_map (candidates_of store.old.defs (branch_at store.old.terms branch.now) (terms_at store.old.terms ground.now)) (map (fact_at store.old.terms) facts.now))) }
    ensures within { IfOk result (λ o. IfSome o (IsFoundOver store.new.terms)) }
{
    for fact in facts {
        if let Some(found) = first_at(store, ground, marked, passed, branch, fact)? {
            return Ok(Some(found));
        }
    }
    Ok(None)
}

/// The facts of a branch.
pub fn facts_of(branch: &Branch) -> &[Fact]
    ensures { result.now ≡ branch.now.facts }
{
    &branch.facts
}

// Whether the term is a ForAll.
fn is_for_all(terms: &Terms, id: TermId) -> bool
    requires { id < length terms.now }
    ensures { result ≡ is_for_all (at terms.now id) }
{
    match terms.node(id) {
        Node::ForAll(_, _, _) => true,
        _ => false,
    }
}

// Whether none of the facts is.
fn no_for_all(terms: &Terms, facts: &[Fact]) -> bool
    requires { AllByRecursion (IsFactBelow (length terms.now)) facts.now }
    ensures { result ≡ not (list_any (λ f. is_for_all (at terms.now f.term)) facts.now) }
{
    for fact in facts {
        if is_for_all(terms, fact.term) {
            return false;
        }
    }
    true
}

/// The first ForAll, trigger and tuple of which there is no mark.
pub fn first_candidate(
    store: &mut Store,
    instances: &mut Instances,
    branch: &Branch,
) -> Result<Option<Found>, AllocError>
    requires branch { IsBranchOver store.old.terms branch.now }
    requires vars { store.old.vars ≡ branch.now.vars }
    ensures grows { Grows store.old store.new }
    ensures first { IfOk result (λ o. option_map (candidate_at store.new.terms) o ≡ find (is_unmarked (branch_at store.old.terms branch.now)) (candidates store.old.defs (branch_at store.old.terms branch.now))) }
    ensures within { IfOk result (λ o. IfSome o (IsFoundOver store.new.terms)) }
{
    let facts = facts_of(branch);
    if no_for_all(store.terms(), facts) {
        return Ok(None);
    }
    list_ground(store, &mut instances.ground, branch)?;
    let ground = instances.ground.members();
    first_in(
        store,
        ground,
        &mut instances.marked,
        &mut instances.passed,
        branch,
        facts,
    )
}
