// The atoms in terms, found once.
ghost use Rattle.std.specs.Prelude.{◌≡◌, ◌<◌, ◌≤◌, ℕ, Vec, true, Some, length, is_some, IfOk, IfSome, OnOk, OnErr};
ghost use Rattle.std.specs.List.{AllByRecursion};
ghost use Rattle.std.specs.Option.{option_copied};
ghost use Rattle.std.specs.declared.alloc.Global.{Global};
ghost use Rattle.logic_core.specs.Subterm.{occurs};
ghost use Rattle.term_bank.specs.Numbered.{at};
ghost use Rattle.numbered_facts.specs.Atoms.{is_atom, IsRising, AreBoth, AreAtomsAmong, AreAtomsIn};
ghost use Rattle.numbered_terms.specs.Slots.{kept_at, AreAlike, IsPut, AreKept};
ghost use Rattle.numbered_facts.specs.Memos.{AreAtoms};

use crate::inside::is_atom;
use crate::numbers::push_where;
use crate::occurring::occurs;
use crate::rising::{both, is_in};
use numbered_terms::Terms;
use numbered_terms::renumber::{copy_numbers, numbers};
use numbered_terms::slots::Slots;
use std::alloc::AllocError;
use term_bank::TermId;

// The atoms that are kept of a number.
fn kept_atoms(memo: &Slots<Vec<TermId>>, id: TermId) -> Option<&Vec<TermId>>
    ensures { option_copied result ≡ kept_at memo.now.slots.items id }
{
    memo.get(id)
}

// From now on these are kept of the number.
fn keep_atoms(
    memo: &mut Slots<Vec<TermId>>,
    id: TermId,
    atoms: Vec<TermId>,
) -> Result<(), AllocError>
    ensures ok { OnOk result (IsPut memo.old.slots.items id atoms memo.new.slots.items) }
    ensures memory { OnErr result (AreAlike memo.old.slots.items memo.new.slots.items) }
{
    memo.put(id, atoms)
}

// Whether the atoms of a number are kept.
fn are_kept(memo: &Slots<Vec<TermId>>, id: TermId) -> bool
    ensures { result ≡ is_some (kept_at memo.now.slots.items id) }
{
    memo.get(id).is_some()
}

// The numbers of both lists, of which the second is kept of a number.
fn join_kept(
    terms: &Terms,
    memo: &Slots<Vec<TermId>>,
    found: Vec<TermId>,
    id: TermId,
) -> Result<Vec<TermId>, AllocError>
    requires rising { IsRising found.items }
    requires right { AreKept (AreAtoms terms.now) memo.now.slots.items }
    ensures { IfOk result (λ v. (w : Vec ℕ Global) → kept_at memo.now.slots.items id ≡ Some w → AreBoth found.items w.items v.items) }
{
    match kept_atoms(memo, id) {
        Some(more) => both(terms.alloc(), &found, more),
        None => Ok(found),
    }
}

// Finds the atoms in a term, which are kept from then on, as are those in its parts.
#[cycle(atoms)]
fn find_atoms(terms: &Terms, memo: &mut Slots<Vec<TermId>>, id: TermId) -> Result<(), AllocError>
    requires id { id < length terms.now }
    requires right { AreKept (AreAtoms terms.now) memo.old.slots.items }
    ensures right { AreKept (AreAtoms terms.now) memo.new.slots.items }
    ensures there { OnOk result (is_some (kept_at memo.new.slots.items id) ≡ true) }
{
    terms.are_stored();
    if are_kept(memo, id) {
        return Ok(());
    }
    let parts = numbers(terms.alloc(), terms.node(id))?;
    let mut found = join_each(terms, memo, id.number, &parts)?;
    push_where(&mut found, id, is_atom(terms, id))?;
    keep_atoms(memo, id, found)?;
    Ok(())
}

// The atoms in terms of numbers below this one.
#[cycle(atoms)]
fn join_each(
    terms: &Terms,
    memo: &mut Slots<Vec<TermId>>,
    below: usize,
    ids: &[TermId],
) -> Result<Vec<TermId>, AllocError>
    requires below { below ≤ length terms.now }
    requires lower { AllByRecursion (λ j. j < below) ids.now }
    requires right { AreKept (AreAtoms terms.now) memo.old.slots.items }
    ensures right { AreKept (AreAtoms terms.now) memo.new.slots.items }
    ensures among { IfOk result (λ v. AreAtomsAmong terms.now below ids.now v.items) }
{
    terms.are_stored();
    let mut found = Vec::new(terms.alloc());
    for id in ids {
        find_atoms(terms, memo, *id)?;
        found = join_kept(terms, memo, found, *id)?;
    }
    Ok(found)
}

/// The atoms in a term, which are kept.
pub(crate) fn atoms(
    terms: &Terms,
    memo: &mut Slots<Vec<TermId>>,
    id: TermId,
) -> Result<Vec<TermId>, AllocError>
    requires id { id < length terms.now }
    requires right { AreKept (AreAtoms terms.now) memo.old.slots.items }
    ensures right { AreKept (AreAtoms terms.now) memo.new.slots.items }
    ensures atoms { IfOk result (λ v. AreAtomsIn terms.now id v.items) }
{
    terms.are_stored();
    find_atoms(terms, memo, id)?;
    match kept_atoms(memo, id) {
        Some(found) => copy_numbers(terms.alloc(), found),
        None => Ok(Vec::new(terms.alloc())),
    }
}

/// The atoms in a term, where they are kept.
pub(crate) fn atoms_at<'a>(
    terms: &Terms,
    memo: &'a Slots<Vec<TermId>>,
    id: TermId,
) -> Option<&'a [TermId]>
    requires { AreKept (AreAtoms terms.now) memo.now.slots.items }
    ensures { IfSome result (λ v. AreAtomsIn terms.now id v.now) }
{
    terms.are_stored();
    match kept_atoms(memo, id) {
        Some(found) => Some(found),
        None => None,
    }
}

// Whether the atom occurs in a term, where the term's atoms are kept already.
fn known_to_occur(
    terms: &Terms,
    memo: &Slots<Vec<TermId>>,
    part: TermId,
    id: TermId,
) -> Option<bool>
    requires part { part < length terms.now }
    requires atom { is_atom (at terms.now part) ≡ true }
    requires right { AreKept (AreAtoms terms.now) memo.now.slots.items }
    ensures { IfSome result (λ b. b ≡ occurs (at terms.now part) (at terms.now id)) }
{
    terms.are_stored();
    match kept_atoms(memo, id) {
        Some(found) => Some(is_in(part, found)),
        None => None,
    }
}

// Whether the atom occurs in a term, whose atoms are kept from then on.
fn found_to_occur(
    terms: &Terms,
    memo: &mut Slots<Vec<TermId>>,
    part: TermId,
    id: TermId,
) -> Result<bool, AllocError>
    requires part { part < length terms.now }
    requires id { id < length terms.now }
    requires atom { is_atom (at terms.now part) ≡ true }
    requires right { AreKept (AreAtoms terms.now) memo.old.slots.items }
    ensures right { AreKept (AreAtoms terms.now) memo.new.slots.items }
    ensures gives { IfOk result (λ b. b ≡ occurs (at terms.now part) (at terms.now id)) }
{
    terms.are_stored();
    find_atoms(terms, memo, id)?;
    match kept_atoms(memo, id) {
        Some(found) => Ok(is_in(part, found)),
        None => Ok(false),
    }
}

// Whether the atom occurs in a term, whose atoms are kept.
fn atom_occurs(
    terms: &Terms,
    memo: &mut Slots<Vec<TermId>>,
    part: TermId,
    id: TermId,
) -> Result<bool, AllocError>
    requires part { part < length terms.now }
    requires id { id < length terms.now }
    requires atom { is_atom (at terms.now part) ≡ true }
    requires right { AreKept (AreAtoms terms.now) memo.old.slots.items }
    ensures right { AreKept (AreAtoms terms.now) memo.new.slots.items }
    ensures gives { IfOk result (λ b. b ≡ occurs (at terms.now part) (at terms.now id)) }
{
    if let Some(known) = known_to_occur(terms, memo, part, id) {
        return Ok(known);
    }
    found_to_occur(terms, memo, part, id)
}

/// Whether the first term occurs in the second.
pub(crate) fn part_occurs(
    terms: &Terms,
    memo: &mut Slots<Vec<TermId>>,
    part: TermId,
    id: TermId,
) -> Result<bool, AllocError>
    requires part { part < length terms.now }
    requires id { id < length terms.now }
    requires right { AreKept (AreAtoms terms.now) memo.old.slots.items }
    ensures right { AreKept (AreAtoms terms.now) memo.new.slots.items }
    ensures gives { IfOk result (λ b. b ≡ occurs (at terms.now part) (at terms.now id)) }
{
    terms.are_stored();
    if id.number < part.number {
        return Ok(false);
    }
    if is_atom(terms, part) {
        return atom_occurs(terms, memo, part, id);
    }
    occurs(terms, part, id)
}
