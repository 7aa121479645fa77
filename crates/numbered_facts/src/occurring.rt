// The terms that occur in a term, by number.
ghost use Rattle.std.specs.Prelude.{◌≡◌, ◌<◌, ◌≤◌, ◌+◌, ◌||◌, ◌&&◌, not, Bool, nat_eq, length, IfOk, IfSome, OnOk};
ghost use Rattle.std.specs.List.{list_any, AllByRecursion};
ghost use Rattle.logic_core.specs.Subterm.{has, occurs, has_quantifier, is_quantifier};
ghost use Rattle.logic_core.specs.Tree.{Tree};
ghost use Rattle.term_bank.specs.Numbered.{at};
ghost use Rattle.numbered_facts.specs.Atoms.{AreOnce};
ghost use Rattle.numbered_facts.specs.Inside.{picks_one, AreWhole};

use crate::numbers::{Members, add, is_in};
use crate::standing::is_quantifier;
use numbered_terms::Terms;
use numbered_terms::number_set::is_among;
use numbered_terms::renumber::numbers;
use std::alloc::AllocError;
use term_bank::{Node, TermId};

// Finds the terms in a term, and then the term.
#[cycle(occurring)]
fn find_in(terms: &Terms, found: &mut Members, id: TermId) -> Result<(), AllocError>
    requires id { id < length terms.now }
    requires whole { AreWhole terms.now found.old }
    ensures whole { OnOk result (AreWhole terms.now found.new) }
    ensures picks { OnOk result ((p : Tree → Bool) → picks_one p terms.now found.new ≡ (picks_one p terms.now found.old || has p (at terms.now id))) }
{
    if is_in(found, id) {
        return Ok(());
    }
    let parts = numbers(terms.alloc(), terms.node(id))?;
    find_each(terms, found, id.number, &parts)?;
    add(found, id)
}

// Finds the terms in terms of numbers below this one, and these terms.
#[cycle(occurring)]
fn find_each(
    terms: &Terms,
    found: &mut Members,
    below: usize,
    ids: &[TermId],
) -> Result<(), AllocError>
    requires below { below ≤ length terms.now }
    requires lower { AllByRecursion (λ j. j < below) ids.now }
    requires whole { AreWhole terms.now found.old }
    ensures whole { OnOk result (AreWhole terms.now found.new) }
    ensures picks { OnOk result ((p : Tree → Bool) → picks_one p terms.now found.new ≡ (picks_one p terms.now found.old || list_any (λ i. has p (at terms.now i)) ids.now)) }
{
    for id in ids {
        find_in(terms, found, *id)?;
    }
    Ok(())
}

/// The numbers of the terms in a term, its own among them, each once: a test picks a term in it exactly
/// where it picks one of these.
pub(crate) fn occurring(terms: &Terms, id: TermId) -> Result<Vec<TermId>, AllocError>
    requires { id < length terms.now }
    ensures picks { IfOk result (λ v. (p : Tree → Bool) → picks_one p terms.now v.items ≡ has p (at terms.now id)) }
    ensures within { IfOk result (λ v. AllByRecursion (λ j. j < id + 1) v.items) }
    ensures once { IfOk result (λ v. AreOnce v.items) }
{
    terms.are_stored();
    let mut found = Members::new(terms.alloc());
    find_in(terms, &mut found, id)?;
    Ok(found.into_list())
}

// Whether the first term occurs in the second, where that is a variable.
fn in_variable(terms: &Terms, part: TermId, id: TermId) -> Option<bool>
    requires part { part < length terms.now }
    requires id { id < length terms.now }
    ensures { IfSome result (λ b. b ≡ occurs (at terms.now part) (at terms.now id)) }
{
    match terms.node(id) {
        Node::Free(_) => Some(terms.is_same(part, id)),
        _ => None,
    }
}

/// Whether the first term occurs in the second.
pub(crate) fn occurs(terms: &Terms, part: TermId, id: TermId) -> Result<bool, AllocError>
    requires part { part < length terms.now }
    requires id { id < length terms.now }
    ensures { IfOk result (λ b. b ≡ occurs (at terms.now part) (at terms.now id)) }
{
    terms.are_stored();
    if let Some(here) = in_variable(terms, part, id) {
        return Ok(here);
    }
    let found = occurring(terms, id)?;
    Ok(is_among(part, &found))
}

// Whether one of the terms is a quantifier.
fn any_quantifier(terms: &Terms, ids: &[TermId]) -> bool
    requires { AllByRecursion (λ j. j < length terms.now) ids.now }
    ensures { result ≡ picks_one is_quantifier terms.now ids.now }
{
    for id in ids {
        if is_quantifier(terms, *id) {
            return true;
        }
    }
    false
}

/// Whether a quantifier stands in the term.
pub(crate) fn has_quantifier(terms: &Terms, id: TermId) -> Result<bool, AllocError>
    requires { id < length terms.now }
    ensures { IfOk result (λ b. b ≡ has_quantifier (at terms.now id)) }
{
    let found = occurring(terms, id)?;
    Ok(any_quantifier(terms, &found))
}

/// Whether the first term doesn't occur in the second, where no quantifier stands.
pub(crate) fn is_apart(terms: &Terms, part: TermId, id: TermId) -> Result<bool, AllocError>
    requires part { part < length terms.now }
    requires id { id < length terms.now }
    ensures { IfOk result (λ b. b ≡ (not (occurs (at terms.now part) (at terms.now id)) && not (has_quantifier (at terms.now id)))) }
{
    terms.are_stored();
    let found = occurring(terms, id)?;
    if is_among(part, &found) {
        return Ok(false);
    }
    Ok(!any_quantifier(terms, &found))
}
