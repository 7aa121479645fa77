// Terms for each of which a ForAll of one variable has a mark, and what a trigger need not match for them.
ghost use Rattle.std.specs.Prelude.{◌≡◌, ◌<◌, ◌∷◌, [], Bool, List, ℕ, nat_eq, ◌||◌, true, length, map, IfSome, IfNone, OnOk};
ghost use Rattle.std.specs.List.{AllByRecursion, list_any};
ghost use Rattle.logic_core.specs.Tree.{Tree, all};
ghost use Rattle.logic_core.specs.Same.{same_trees};
ghost use Rattle.logic_core.specs.View.{trees_of};
ghost use Rattle.logic_rules.specs.Instantiating.{same_mark};
ghost use Rattle.tableau_branch.specs.Oriented.{is_variable};
ghost use Rattle.term_bank.specs.Numbered.{at};
ghost use Rattle.term_bank.specs.Node.{in_lists};
ghost use Rattle.numbered_terms.specs.Lists.{terms_at, lists_at};
ghost use Rattle.numbered_branches.specs.Branches.{IsMarkOver, mark_at, terms_in};
ghost use Rattle.numbered_instances.specs.Finding.{found_at};
ghost use Rattle.numbered_instances.specs.Instances.{is_new};
ghost use Rattle.numbered_instances.specs.Passed.{Tells, FindSome, JoinsAlone, FindsAlone, IsPassed, mark_alone, is_bound, reads_bound};

use numbered_branches::branch::Mark;
use numbered_terms::Terms;
use numbered_terms::number_set::NumberSet;
use std::alloc::AllocError;
use term_bank::{Node, TermId};

// Whether the term is a bound variable.
fn is_bound(terms: &Terms, id: TermId) -> bool
    requires { id < length terms.now }
    ensures { result ≡ is_bound (at terms.now id) }
{
    match terms.node(id) {
        Node::Bound(_) => true,
        _ => false,
    }
}

// Whether the term is a free variable.
fn is_variable(terms: &Terms, id: TermId) -> bool
    requires { id < length terms.now }
    ensures { result ≡ is_variable (at terms.now id) }
{
    match terms.node(id) {
        Node::Free(_) => true,
        _ => false,
    }
}

// Whether the pattern reads a variable at a bound one.
fn reads_bound(terms: &Terms, pattern: TermId) -> bool
    requires { pattern < length terms.now }
    ensures { result ≡ reads_bound (at terms.now pattern) }
{
    match terms.node(pattern) {
        Node::Read(map, index) => is_variable(terms, *map) && is_bound(terms, *index),
        _ => false,
    }
}

// The term that is found for the variable of the pattern where it matches the term, as far as one look at
// both shows it: where a variable is read at the bound one.
fn found_alone(terms: &Terms, pattern: TermId, term: TermId) -> Option<TermId>
    requires pattern { pattern < length terms.now }
    requires term { term < length terms.now }
    ensures finds { IfSome result (λ i. FindsAlone (at terms.now pattern) (at terms.now term) (at terms.now i)) }
    ensures within { IfSome result (λ i. i < length terms.now) }
{
    if !reads_bound(terms, pattern) {
        return None;
    }
    match terms.node(term) {
        Node::Read(_, index) => Some(*index),
        _ => None,
    }
}

/// Whether one look shows that the pattern, the last of a trigger of one variable, finds nothing in the
/// term but a passed term.
pub fn is_passed(
    terms: &Terms,
    passed: &NumberSet,
    pattern: TermId,
    term: TermId,
    rest: &[TermId],
    found: &[Option<TermId>],
) -> bool
    requires pattern { pattern < length terms.now }
    requires term { term < length terms.now }
    ensures { result ≡ true → IsPassed terms.now passed.now (at terms.now pattern) (at terms.now term) (trees_of (terms_at terms.now rest.now)) (found_at terms.now found.now) }
{
    if found.len() != 1 {
        return false;
    }
    if !rest.is_empty() {
        return false;
    }
    match found_alone(terms, pattern, term) {
        Some(index) => passed.contains(index),
        None => false,
    }
}

// The terms of an And.
fn conjuncts(terms: &Terms, id: TermId) -> Option<&[TermId]>
    requires { id < length terms.now }
    ensures is { IfSome result (λ ids. at terms.now id ≡ all (trees_of (map (at terms.now) ids.now))) }
    ensures within { IfSome result (λ ids. AllByRecursion (λ j. j < id) ids.now) }
    ensures other { IfNone result (terms_in (at terms.now id) ≡ []) }
{
    match terms.node(id) {
        Node::And(parts) => Some(parts),
        _ => None,
    }
}

// The number, where it is the only one.
fn only(ids: &[TermId]) -> Option<TermId>
    ensures is { IfSome result (λ i. ids.now ≡ i ∷ []) }
    ensures other { IfNone result ((i : ℕ) → ids.now ≡ i ∷ [] → ⊥) }
{
    match ids.split_first() {
        Some((id, rest)) => {
            if rest.is_empty() {
                return Some(*id);
            }
            None
        }
        None => None,
    }
}

// The only one of the numbers, if there is one, joins the others.
fn pass_only(passed: &mut NumberSet, ids: &[TermId]) -> Result<(), AllocError>
    ensures { OnOk result (JoinsAlone ids.now passed.old passed.new) }
{
    match only(ids) {
        Some(id) => passed.insert(id),
        None => Ok(()),
    }
}

// The only term of the tuple is passed, if there is one.
fn pass_tuple(terms: &Terms, passed: &mut NumberSet, tuple: TermId) -> Result<(), AllocError>
    requires { tuple < length terms.now }
    ensures { OnOk result ((j : ℕ) → j < length terms.now → list_any (nat_eq j) passed.new ≡ (list_any (nat_eq j) passed.old || same_trees (trees_of (terms_in (at terms.now tuple))) (trees_of (at terms.now j ∷ [])))) }
{
    terms.are_stored();
    match conjuncts(terms, tuple) {
        Some(ids) => pass_only(passed, ids),
        None => Ok(()),
    }
}

// The only term of the mark's tuple is passed, if it is a mark of this fact.
fn pass_mark(
    terms: &Terms,
    passed: &mut NumberSet,
    mark: &Mark,
    fact: TermId,
) -> Result<(), AllocError>
    requires mark { IsMarkOver terms.now mark.now }
    requires fact { fact < length terms.now }
    ensures { OnOk result ((j : ℕ) → j < length terms.now → list_any (nat_eq j) passed.new ≡ (list_any (nat_eq j) passed.old || same_mark (mark_at terms.now mark.now) (mark_alone terms.now fact j))) }
{
    terms.are_stored();
    if mark.fact == fact {
        return pass_tuple(terms, passed, mark.tuple);
    }
    Ok(())
}

// Whether the tuple is of one term that isn't passed.
fn is_unpassed(passed: &NumberSet, tuple: &[TermId]) -> bool
    ensures { result ≡ true → (ts : List Tree) → AllByRecursion (λ j. j < length ts) tuple.now → (new : List Tree → Bool) → Tells ts passed.now new → new (map (at ts) tuple.now) ≡ true }
{
    match only(tuple) {
        Some(term) => !passed.contains(term),
        None => false,
    }
}

// The same of the tuple at this place.
fn is_new_at(passed: &NumberSet, tuples: &[Vec<TermId>], place: usize) -> bool
    requires { place < length tuples.now }
    ensures { result ≡ true → (ts : List Tree) → AllByRecursion (λ j. j < length ts) (in_lists tuples.now) → FindSome ts passed.now (lists_at ts tuples.now) }
{
    let tuple = &tuples[place];
    is_unpassed(passed, tuple)
}

/// Whether one look, at the last tuple, shows that one of the tuples is new.
pub fn has_new(passed: &NumberSet, tuples: &[Vec<TermId>]) -> bool
    ensures { result ≡ true → (ts : List Tree) → AllByRecursion (λ j. j < length ts) (in_lists tuples.now) → FindSome ts passed.now (lists_at ts tuples.now) }
{
    if tuples.is_empty() {
        return false;
    }
    is_new_at(passed, tuples, tuples.len() - 1)
}

/// Lists the terms for each of which the fact has a mark: a tuple of one term is new where it isn't one of
/// these.
pub fn list_passed(
    terms: &Terms,
    passed: &mut NumberSet,
    marks: &[Mark],
    fact: TermId,
) -> Result<(), AllocError>
    requires fact { fact < length terms.now }
    requires marks { AllByRecursion (IsMarkOver terms.now) marks.now }
    ensures { OnOk result (Tells terms.now passed.new (is_new (map (mark_at terms.now) marks.now) (at terms.now fact))) }
{
    passed.clear();
    for mark in marks {
        pass_mark(terms, passed, mark, fact)?;
    }
    Ok(())
}
