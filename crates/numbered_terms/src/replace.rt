// A term replaced in a term, by number.
ghost use Rattle.std.specs.Prelude.{◌≡◌, ◌<◌, ◌≤◌, nat_lt, nat_eq, false, [], length, IsTrue, IfOk, OnOk};
ghost use Rattle.logic_core.specs.Same.{same_term};
ghost use Rattle.std.specs.List.{AllByRecursion};
ghost use Rattle.logic_core.specs.Subterm.{replaced};
ghost use Rattle.term_bank.specs.Numbered.{at, Begins};
ghost use Rattle.term_bank.specs.Node.{numbers_in};
ghost use Rattle.term_bank.specs.Table.{IsNodeAt};
ghost use Rattle.term_bank.specs.declared.node.Node.{Node};
ghost use Rattle.numbered_terms.specs.At.{IsAt};
ghost use Rattle.numbered_terms.specs.Renumbered.{IsFound, AreFound, Covers};

use crate::renumber::{is_there, new_number, note, numbers, renumbered};
use crate::terms::Terms;
use indexmap::IndexMap;
use std::alloc::AllocError;
use term_bank::TermId;

// Whether the number is lower than the other.
fn is_lower(id: TermId, other: TermId) -> bool
    ensures { result ≡ nat_lt id other }
{
    id.number < other.number
}

// Whether the number is the other.
fn is_equal(id: TermId, other: TermId) -> bool
    ensures { result ≡ nat_eq id other }
{
    id.number == other.number
}

// Whether there are no numbers.
fn are_none(ids: &[TermId]) -> bool
    ensures { IsTrue result → ids.now ≡ [] }
{
    ids.is_empty()
}

// The same of a term whose parts are found.
fn replace_whole(
    terms: &mut Terms,
    found: &mut IndexMap<usize, TermId>,
    old: TermId,
    new: TermId,
    id: TermId,
) -> Result<(), AllocError>
    requires old { old < length terms.old }
    requires new { new < length terms.old }
    requires id { id < length terms.old }
    requires other { same_term (at terms.old old) (at terms.old id) ≡ false }
    requires right { AreFound (replaced (at terms.old old) (at terms.old new)) terms.old found.old.entries }
    requires parts { (m : Node) → IsNodeAt terms.old id m → AllByRecursion (IsFound (replaced (at terms.old old) (at terms.old new)) terms.old found.old.entries) (numbers_in m) }
    ensures grows { Begins terms.old terms.new }
    ensures right { OnOk result (AreFound (replaced (at terms.old old) (at terms.old new)) terms.new found.new.entries) }
    ensures covers { OnOk result (Covers found.old.entries found.new.entries) }
    ensures found { OnOk result (IsFound (replaced (at terms.old old) (at terms.old new)) terms.new found.new.entries id) }
{
    let node = renumbered(terms.alloc(), found, terms.node(id))?;
    let made = terms.make(node)?;
    note(found, id, made)
}

// Finds what a term becomes. A term of lower number than the replaced one stays.
#[cycle(replace)]
fn replace_in(
    terms: &mut Terms,
    found: &mut IndexMap<usize, TermId>,
    old: TermId,
    new: TermId,
    id: TermId,
) -> Result<(), AllocError>
    requires old { old < length terms.old }
    requires new { new < length terms.old }
    requires id { id < length terms.old }
    requires right { AreFound (replaced (at terms.old old) (at terms.old new)) terms.old found.old.entries }
    ensures grows { Begins terms.old terms.new }
    ensures right { OnOk result (AreFound (replaced (at terms.old old) (at terms.old new)) terms.new found.new.entries) }
    ensures covers { OnOk result (Covers found.old.entries found.new.entries) }
    ensures found { OnOk result (IsFound (replaced (at terms.old old) (at terms.old new)) terms.new found.new.entries id) }
{
    terms.are_stored();
    if is_lower(id, old) {
        return Ok(());
    }
    if is_there(found, id) {
        return Ok(());
    }
    replace_node(terms, found, old, new, id)
}

// The same of a term of which nothing is found yet.
#[cycle(replace)]
fn replace_node(
    terms: &mut Terms,
    found: &mut IndexMap<usize, TermId>,
    old: TermId,
    new: TermId,
    id: TermId,
) -> Result<(), AllocError>
    requires old { old < length terms.old }
    requires new { new < length terms.old }
    requires id { id < length terms.old }
    requires right { AreFound (replaced (at terms.old old) (at terms.old new)) terms.old found.old.entries }
    ensures grows { Begins terms.old terms.new }
    ensures right { OnOk result (AreFound (replaced (at terms.old old) (at terms.old new)) terms.new found.new.entries) }
    ensures covers { OnOk result (Covers found.old.entries found.new.entries) }
    ensures found { OnOk result (IsFound (replaced (at terms.old old) (at terms.old new)) terms.new found.new.entries id) }
{
    terms.are_stored();
    if is_equal(id, old) {
        return note(found, id, new);
    }
    let parts = numbers(terms.alloc(), terms.node(id))?;
    if are_none(&parts) {
        return Ok(());
    }
    replace_each(terms, found, old, new, id.number, &parts)?;
    replace_whole(terms, found, old, new, id)
}

// Finds what terms of numbers below this one become.
#[cycle(replace)]
fn replace_each(
    terms: &mut Terms,
    found: &mut IndexMap<usize, TermId>,
    old: TermId,
    new: TermId,
    below: usize,
    ids: &[TermId],
) -> Result<(), AllocError>
    requires old { old < length terms.old }
    requires new { new < length terms.old }
    requires below { below ≤ length terms.old }
    requires lower { AllByRecursion (λ j. j < below) ids.now }
    requires right { AreFound (replaced (at terms.old old) (at terms.old new)) terms.old found.old.entries }
    ensures grows { Begins terms.old terms.new }
    ensures right { OnOk result (AreFound (replaced (at terms.old old) (at terms.old new)) terms.new found.new.entries) }
    ensures covers { OnOk result (Covers found.old.entries found.new.entries) }
    ensures found { OnOk result (AllByRecursion (IsFound (replaced (at terms.old old) (at terms.old new)) terms.new found.new.entries) ids.now) }
{
    for id in ids {
        replace_in(terms, found, old, new, *id)?;
    }
    Ok(())
}

/// The number of a term with every occurrence of the old term, inside quantifiers and triggers too,
/// replaced by the new one.
pub fn replaced(
    terms: &mut Terms,
    old: TermId,
    new: TermId,
    id: TermId,
) -> Result<TermId, AllocError>
    requires old { old < length terms.old }
    requires new { new < length terms.old }
    requires id { id < length terms.old }
    ensures grows { Begins terms.old terms.new }
    ensures gives { IfOk result (λ i. IsAt terms.new i (replaced (at terms.old old) (at terms.old new) (at terms.old id))) }
{
    let mut found = IndexMap::new(terms.alloc());
    replace_in(terms, &mut found, old, new, id)?;
    Ok(new_number(&found, id))
}
