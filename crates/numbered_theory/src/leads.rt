// The lead atoms of linear facts, by number.
ghost use Rattle.std.specs.Prelude.{◌≡◌, ◌<◌, [], ℕ, ℤ, nat_eq, true, false, length, option_map, IfOk, OnOk};
ghost use Rattle.std.specs.List.{list_any, AllByRecursion};
ghost use Rattle.logic_core.specs.Combine.{lead};
ghost use Rattle.theory_rules.specs.Combining.{counted, are_opposite};
ghost use Rattle.numbered_theory.specs.Entries.{entry_at, IsEntryBelow};
ghost use Rattle.numbered_theory.specs.Leads.{IsPut, meets, IsNoted, IsLed, AreLed, is_one_atom};
ghost use Rattle.numbered_theory.specs.declared.entries.Entry.{Entry};

use crate::entries::{Entry, is_negative, is_positive};
use numbered_facts::linear::lead;
use numbered_terms::Terms;
use numbered_terms::number_set::NumberSet;
use std::alloc::{AllocError, Global};
use term_bank::TermId;

/// The lead atoms of linear facts: those whose coefficients are positive as the facts count, and those
/// whose coefficients are negative.
#[derive(Drop)]
pub struct Leads {
    above: NumberSet,
    below: NumberSet,
}

// The number joins the others, where it is to.
fn put_if(numbers: &mut NumberSet, put: bool, id: TermId) -> Result<(), AllocError>
    ensures kept { OnOk result ((j : ℕ) → list_any (nat_eq j) numbers.old ≡ true → list_any (nat_eq j) numbers.new ≡ true) }
    ensures there { OnOk result (put ≡ true → list_any (nat_eq id) numbers.new ≡ true) }
{
    if put {
        numbers.insert(id)?;
        return Ok(());
    }
    Ok(())
}

// The lead atom, where there is one, joins those of its sign.
fn put_lead(leads: &mut Leads, turned: bool, lead: Option<(i128, TermId)>) -> Result<(), AllocError>
    ensures above { OnOk result ((j : ℕ) → list_any (nat_eq j) leads.old.above ≡ true → list_any (nat_eq j) leads.new.above ≡ true) }
    ensures below { OnOk result ((j : ℕ) → list_any (nat_eq j) leads.old.below ≡ true → list_any (nat_eq j) leads.new.below ≡ true) }
    ensures put { OnOk result (IsPut leads.new.above leads.new.below turned lead) }
{
    match lead {
        Some((k, atom)) => {
            put_if(&mut leads.above, is_positive(turned, k), atom)?;
            put_if(&mut leads.below, is_negative(turned, k), atom)?;
            Ok(())
        }
        None => Ok(()),
    }
}

// Whether a lead atom of opposite sign is there.
fn meets(leads: &Leads, turned: bool, lead: Option<(i128, TermId)>) -> bool
    ensures { result ≡ meets leads.now.above leads.now.below turned lead }
{
    match lead {
        Some((k, atom)) => {
            (is_negative(turned, k) && leads.above.contains(atom))
                || (is_positive(turned, k) && leads.below.contains(atom))
        }
        None => false,
    }
}

impl Leads {
    /// No atoms.
    pub fn new(alloc: Global) -> Leads
        ensures { result ≡ record { above = []; below = [] } }
    {
        Leads {
            above: NumberSet::new(alloc),
            below: NumberSet::new(alloc),
        }
    }

    /// All atoms go.
    pub fn clear(&mut self)
        ensures { self.new ≡ record { above = []; below = [] } }
    {
        self.above.clear();
        self.below.clear();
    }

    /// The lead atom of one more fact.
    pub fn note(&mut self, terms: &Terms, entry: &Entry) -> Result<(), AllocError>
        requires { entry.now.sum < length terms.now }
        ensures above { OnOk result ((j : ℕ) → list_any (nat_eq j) self.old.above ≡ true → list_any (nat_eq j) self.new.above ≡ true) }
        ensures below { OnOk result ((j : ℕ) → list_any (nat_eq j) self.old.below ≡ true → list_any (nat_eq j) self.new.below ≡ true) }
        ensures noted { OnOk result (IsNoted terms.now self.new.above self.new.below entry.now) }
    {
        let found = lead(terms, entry.sum);
        put_lead(self, entry.turned, found)
    }

    /// Whether one of the facts that were noted may have the same lead atom as this one, with a
    /// coefficient of opposite sign. Else none has.
    pub fn may_meet(&self, terms: &Terms, entry: &Entry) -> bool
        requires { entry.now.sum < length terms.now }
        ensures { result ≡ false → (d : Entry) → IsNoted terms.now self.now.above self.now.below d → are_opposite (lead (counted (entry_at terms.now d))) (lead (counted (entry_at terms.now entry.now))) ≡ false }
    {
        terms.are_stored();
        let found = lead(terms, entry.sum);
        meets(self, entry.turned, found)
    }
}

// The atom of a lead.
fn atom_of(lead: Option<(i128, TermId)>) -> Option<TermId>
    ensures { result ≡ option_map (λ (p : ℤ × ℕ). p.1) lead }
{
    match lead {
        Some((_, atom)) => Some(atom),
        None => None,
    }
}

/// The atom of the fact's lead, where it has one.
pub fn lead_atom(terms: &Terms, entry: &Entry) -> Option<TermId>
    requires { entry.now.sum < length terms.now }
    ensures { IsLed terms.now entry.now.sum result }
{
    let found = lead(terms, entry.sum);
    atom_of(found)
}

/// The atoms of the leads of facts.
pub fn lead_atoms(terms: &Terms, entries: &[Entry]) -> Result<Vec<Option<TermId>>, AllocError>
    requires { AllByRecursion (IsEntryBelow (length terms.now)) entries.now }
    ensures { IfOk result (λ v. AreLed terms.now entries.now v.items) }
{
    let mut atoms = Vec::new(terms.alloc());
    for entry in entries {
        let atom = lead_atom(terms, entry);
        atoms.push(atom)?;
    }
    Ok(atoms)
}

/// Whether both leads are there, and their atoms are one.
pub fn is_one_atom(mine: &Option<TermId>, theirs: &Option<TermId>) -> bool
    ensures { result ≡ is_one_atom mine.now theirs.now }
{
    match mine {
        Some(i) => match theirs {
            Some(j) => *i == *j,
            None => false,
        },
        None => false,
    }
}
