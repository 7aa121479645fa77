// The linear facts that are combined, by number.
ghost use Rattle.std.specs.Prelude.{◌≡◌, ◌<◌, ◌++◌, true, int_le, length, Some, IfOk, OnOk};
ghost use Rattle.std.specs.List.{list_any, AllByRecursion};
ghost use Rattle.logic_core.specs.Combine.{lead, linear_of, sum_of};
ghost use Rattle.term_bank.specs.Numbered.{at};
ghost use Rattle.numbered_terms.specs.Lists.{AtomsBelow};
ghost use Rattle.numbered_terms.specs.Stored.{Grows};
ghost use Rattle.numbered_forms.specs.Sums.{sum_at};
ghost use Rattle.numbered_branches.specs.Branches.{branch_at, IsBranchOver};
ghost use Rattle.theory_rules.specs.Combining.{counted, is_at_most, is_positive, is_negative, are_opposite, is_known, entries};
ghost use Rattle.theory_rules.specs.Counting.{counted_number, has_no_greater};
ghost use Rattle.numbered_theory.specs.Entries.{entry_at, entries_at, has_sum, IsEntryBelow, AreEntriesAt, entries_over};
ghost use Rattle.numbered_theory.specs.Counts.{counted_as, Counts};

use crate::linear::{has_parts, rest};
use numbered_branches::branch::{Branch, Fact};
use numbered_facts::Store;
use numbered_facts::linear::{lead, linear_side, sum_of};
use numbered_forms::sum::NumberedSum;
use numbered_terms::Terms;
use numbered_terms::slots::Slots;
use std::alloc::AllocError;
use term_bank::{Node, TermId};

/// A linear fact of this number: `Le(0, sum)`, or `Eq(sum, 0)` counted as `Le(0, sum)` or, where it is
/// turned, as `Le(0, -sum)`.
#[derive(Clone, Copy)]
pub struct Entry {
    pub number: u64,
    pub sum: TermId,
    pub turned: bool,
}

/// Whether the fact is a Le.
pub fn is_at_most(terms: &Terms, fact: TermId) -> bool
    requires { fact < length terms.now }
    ensures { result ≡ is_at_most (at terms.now fact) }
{
    match terms.node(fact) {
        Node::Le(_, _) => true,
        _ => false,
    }
}

// Whether the coefficient is positive as the entry counts.
#[tactic(auto, using(theory_rules::proofs::CountedForms::turned_above))]
pub(crate) fn is_positive(turned: bool, k: i128) -> bool
    ensures { result ≡ is_positive (counted_number turned k) }
{
    if turned { k < 0 } else { k > 0 }
}

// Whether the coefficient is negative as the entry counts.
#[tactic(auto, using(theory_rules::proofs::CountedForms::turned_below))]
pub(crate) fn is_negative(turned: bool, k: i128) -> bool
    ensures { result ≡ is_negative (counted_number turned k) }
{
    if turned { k > 0 } else { k < 0 }
}

/// Whether the two have one lead atom, with coefficients of opposite signs.
pub fn are_opposite(terms: &Terms, d: &Entry, e: &Entry) -> bool
    requires d { d.now.sum < length terms.now }
    requires e { e.now.sum < length terms.now }
    ensures { result ≡ are_opposite (lead (counted (entry_at terms.now d.now))) (lead (counted (entry_at terms.now e.now))) }
{
    let Some((j, t)) = lead(terms, d.sum) else {
        return false;
    };
    let Some((k, u)) = lead(terms, e.sum) else {
        return false;
    };
    terms.is_same(t, u)
        && ((is_negative(d.turned, j) && is_positive(e.turned, k))
            || (is_positive(d.turned, j) && is_negative(e.turned, k)))
}

// Whether the first number, or its opposite where it is turned, is at most the second.
fn is_no_greater(turned: bool, mine: i128, theirs: i128) -> bool
    ensures { result ≡ int_le (counted_number turned mine) theirs }
{
    if turned {
        match mine.checked_neg() {
            Some(opposite) => opposite <= theirs,
            None => false,
        }
    } else {
        mine <= theirs
    }
}

// Whether the fact has the same parts as this form, and a constant no greater.
fn has_no_greater(terms: &Terms, entry: &Entry, form: &NumberedSum) -> bool
    requires entry { entry.now.sum < length terms.now }
    requires form { AtomsBelow (length terms.now) form.now.parts.items }
    ensures { result ≡ has_no_greater (sum_at terms.now form.now) (entry_at terms.now entry.now) }
{
    has_parts(terms, entry.turned, entry.sum, &form.parts)
        && is_no_greater(entry.turned, rest(terms, entry.sum), form.rest)
}

fn any_no_greater(terms: &Terms, entries: &[Entry], form: &NumberedSum) -> bool
    requires entries { AllByRecursion (IsEntryBelow (length terms.now)) entries.now }
    requires form { AtomsBelow (length terms.now) form.now.parts.items }
    ensures { result ≡ list_any (has_no_greater (sum_at terms.now form.now)) (entries_at terms.now entries.now) }
{
    for entry in entries {
        if has_no_greater(terms, entry, form) {
            return true;
        }
    }
    false
}

// Whether the fact is of this sum, and counts as it is.
fn has_sum(entry: &Entry, sum: TermId) -> bool
    ensures { result ≡ has_sum sum entry.now }
{
    !entry.turned && entry.sum == sum
}

/// Keeps of each sum the place of a fact that has it.
pub fn place_entries(places: &mut Slots<usize>, entries: &[Entry]) -> Result<(), AllocError> {
    for (place, entry) in entries.iter().enumerate() {
        if !entry.turned {
            places.put(entry.sum, place)?;
        }
    }
    Ok(())
}

// Whether the fact at the place that is kept of the sum has it.
fn is_placed(places: &Slots<usize>, entries: &[Entry], sum: TermId) -> bool
    ensures { result ≡ true → list_any (has_sum sum) entries.now ≡ true }
{
    match places.get(sum) {
        Some(place) => *place < entries.len() && has_sum(&entries[*place], sum),
        None => false,
    }
}

/// Whether a fact has the same parts, and a constant no greater.
pub fn is_known(
    terms: &Terms,
    places: &Slots<usize>,
    entries: &[Entry],
    fact: TermId,
) -> Result<bool, AllocError>
    requires entries { AllByRecursion (IsEntryBelow (length terms.now)) entries.now }
    requires fact { fact < length terms.now }
    ensures { IfOk result (λ b. b ≡ is_known (entries_at terms.now entries.now) (at terms.now fact)) }
{
    match linear_side(terms, fact) {
        Some(sum) => {
            if is_placed(places, entries, sum) {
                return Ok(true);
            }
            let form = sum_of(terms, sum)?;
            Ok(any_no_greater(terms, entries, &form))
        }
        None => Ok(false),
    }
}

// How often a fact counts, and of which sum: a Le once, and an Eq that isn't oriented twice.
#[derive(Clone, Copy)]
enum Often {
    Never,
    Once(TermId),
    Twice(TermId),
}

// How often the fact of this sum counts.
fn count_sum(store: &mut Store, fact: TermId, sum: TermId) -> Result<Often, AllocError>
    requires fact { fact < length store.old.terms }
    requires sum { sum < length store.old.terms }
    requires is { linear_of (at store.old.terms fact) ≡ Some (sum_of (at store.old.terms sum)) }
    ensures grows { Grows store.old store.new }
    ensures counts { IfOk result (λ c. Counts store.new.terms c (entries_over store.old.vars store.old.defs (at store.old.terms fact))) }
{
    if is_at_most(store.terms(), fact) {
        return Ok(Often::Once(sum));
    }
    match store.left_side(fact)? {
        Some(_) => Ok(Often::Never),
        None => Ok(Often::Twice(sum)),
    }
}

// How often the fact counts.
fn how_often(store: &mut Store, fact: TermId) -> Result<Often, AllocError>
    requires { fact < length store.old.terms }
    ensures grows { Grows store.old store.new }
    ensures counts { IfOk result (λ c. Counts store.new.terms c (entries_over store.old.vars store.old.defs (at store.old.terms fact))) }
{
    match linear_side(store.terms(), fact) {
        Some(sum) => count_sum(store, fact, sum),
        None => Ok(Often::Never),
    }
}

// The entries of a fact that counts so often, behind the others.
fn push_count(entries: &mut Vec<Entry>, number: u64, count: Often) -> Result<(), AllocError>
    ensures { OnOk result (entries.new.items ≡ entries.old.items ++ counted_as count number) }
{
    match count {
        Often::Never => Ok(()),
        Often::Once(sum) => {
            entries.push(Entry {
                number,
                sum,
                turned: false,
            })?;
            Ok(())
        }
        Often::Twice(sum) => {
            entries.push(Entry {
                number,
                sum,
                turned: false,
            })?;
            entries.push(Entry {
                number,
                sum,
                turned: true,
            })?;
            Ok(())
        }
    }
}

// The entries of a fact, behind the others.
fn push_entries(store: &mut Store, entries: &mut Vec<Entry>, fact: &Fact) -> Result<(), AllocError>
    requires entries { AllByRecursion (IsEntryBelow (length store.old.terms)) entries.old.items }
    requires fact { fact.now.term < length store.old.terms }
    ensures grows { Grows store.old store.new }
    ensures entries { OnOk result (AreEntriesAt store.new.terms entries.new.items (entries_at store.old.terms entries.old.items ++ entries_over store.old.vars store.old.defs (at store.old.terms fact.now.term) fact.now.number)) }
{
    let count = how_often(store, fact.term)?;
    push_count(entries, fact.number, count)
}

/// The linear facts of the branch as they count.
pub fn entries(store: &mut Store, branch: &Branch) -> Result<Vec<Entry>, AllocError>
    requires branch { IsBranchOver store.old.terms branch.now }
    requires vars { store.old.vars ≡ branch.now.vars }
    ensures grows { Grows store.old store.new }
    ensures entries { IfOk result (λ v. AreEntriesAt store.new.terms v.items (entries store.old.defs (branch_at store.old.terms branch.now))) }
{
    let mut entries = Vec::new(store.alloc());
    for fact in &branch.facts {
        push_entries(store, &mut entries, fact)?;
    }
    Ok(entries)
}
