// The tuples with which a ForAll was instantiated, and the first other one, by number.
ghost use Rattle.std.specs.Prelude.{◌≡◌, ◌<◌, [], ◌||◌, ◌&&◌, ℕ, nat_eq, length, map, find, option_map, IfOk, IfSome, OnOk};
ghost use Rattle.std.specs.List.{AllByRecursion, list_any};
ghost use Rattle.logic_core.specs.Tree.{all};
ghost use Rattle.logic_core.specs.View.{trees_of};
ghost use Rattle.term_bank.specs.Numbered.{at};
ghost use Rattle.term_bank.specs.Node.{in_lists};
ghost use Rattle.numbered_terms.specs.At.{IsAt};
ghost use Rattle.numbered_terms.specs.Lists.{terms_at, lists_at};
ghost use Rattle.numbered_terms.specs.Stored.{AreStored, Grows};
ghost use Rattle.numbered_branches.specs.Branches.{IsMarkOver, IsTuple, mark_at, terms_in};
ghost use Rattle.numbered_instances.specs.Instances.{is_new, is_marked};

use numbered_branches::branch::Mark;
use numbered_facts::Store;
use numbered_terms::number_set::NumberSet;
use std::alloc::AllocError;
use term_bank::{Node, TermId};

// The mark's tuple joins the others if it is one of this fact.
fn note_mark(marked: &mut NumberSet, mark: &Mark, fact: TermId) -> Result<(), AllocError>
    ensures { OnOk result ((j : ℕ) → list_any (nat_eq j) marked.new ≡ (list_any (nat_eq j) marked.old || (nat_eq mark.now.fact fact && nat_eq mark.now.tuple j))) }
{
    if mark.fact == fact {
        marked.insert(mark.tuple)?;
        return Ok(());
    }
    Ok(())
}

// Lists the tuples of the marks of this fact.
fn list_marked(marked: &mut NumberSet, marks: &[Mark], fact: TermId) -> Result<(), AllocError>
    ensures { OnOk result ((j : ℕ) → list_any (nat_eq j) marked.new ≡ is_marked marks.now fact j) }
{
    marked.clear();
    for mark in marks {
        note_mark(marked, mark, fact)?;
    }
    Ok(())
}

// The number of a tuple.
fn make_tuple(store: &mut Store, tuple: Vec<TermId>) -> Result<TermId, AllocError>
    requires { AllByRecursion (λ j. j < length store.old.terms) tuple.items }
    ensures grows { Grows store.old store.new }
    ensures gives { IfOk result (λ i. IsAt store.new.terms i (all (trees_of (terms_at store.old.terms tuple.items)))) }
    ensures stored { AreStored store.new.terms }
{
    let made = store.make(Node::And(tuple));
    store.terms().are_stored();
    made
}

// The first of the tuples that isn't marked.
fn first_unmarked(
    store: &mut Store,
    marked: &NumberSet,
    marks: &[Mark],
    fact: TermId,
    mut tuples: Vec<Vec<TermId>>,
) -> Result<Option<TermId>, AllocError>
    requires fact { fact < length store.old.terms }
    requires marks { AllByRecursion (IsMarkOver store.old.terms) marks.now }
    requires marked { (j : ℕ) → list_any (nat_eq j) marked.now ≡ is_marked marks.now fact j }
    requires tuples { AllByRecursion (λ j. j < length store.old.terms) (in_lists tuples.items) }
    ensures grows { Grows store.old store.new }
    ensures first { IfOk result (λ o. option_map (λ i. terms_in (at store.new.terms i)) o ≡ find (is_new (map (mark_at store.old.terms) marks.now) (at store.old.terms fact)) (lists_at store.old.terms tuples.items)) }
    ensures tuple { IfOk result (λ o. IfSome o (λ i. (i < length store.new.terms) × IsTuple (at store.new.terms i))) }
{
    tuples.reverse();
    while let Some(tuple) = tuples.pop() {
        let made = make_tuple(store, tuple)?;
        if !marked.contains(made) {
            return Ok(Some(made));
        }
    }
    Ok(None)
}

/// The first of the tuples, as the number of an And, for which the fact has no mark.
pub fn first_new(
    store: &mut Store,
    marked: &mut NumberSet,
    marks: &[Mark],
    fact: TermId,
    tuples: Vec<Vec<TermId>>,
) -> Result<Option<TermId>, AllocError>
    requires fact { fact < length store.old.terms }
    requires marks { AllByRecursion (IsMarkOver store.old.terms) marks.now }
    requires tuples { AllByRecursion (λ j. j < length store.old.terms) (in_lists tuples.items) }
    ensures grows { Grows store.old store.new }
    ensures first { IfOk result (λ o. option_map (λ i. terms_in (at store.new.terms i)) o ≡ find (is_new (map (mark_at store.old.terms) marks.now) (at store.old.terms fact)) (lists_at store.old.terms tuples.items)) }
    ensures tuple { IfOk result (λ o. IfSome o (λ i. (i < length store.new.terms) × IsTuple (at store.new.terms i))) }
{
    list_marked(marked, marks, fact)?;
    first_unmarked(store, marked, marks, fact, tuples)
}
