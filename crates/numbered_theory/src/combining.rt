// The rule combine, by number.
ghost use Rattle.std.specs.Prelude.{◌≡◌, ◌<◌, ◌≤◌, ◌||◌, neg_ℤ, pos, [], true, length, map, option_map, if◌then◌else◌, ◌∷◌, ◌++◌, IfOk, OnOk};
ghost use Rattle.std.specs.List.{AllByRecursion};
ghost use Rattle.logic_core.specs.Combine.{combined, lead, sum_of};
ghost use Rattle.logic_core.specs.Gives.{GivesAs};
ghost use Rattle.logic_core.specs.Junction.{is_truth};
ghost use Rattle.logic_core.specs.Tighten.{tighten};
ghost use Rattle.logic_core.specs.Wide.{checked};
ghost use Rattle.tableau_branch.specs.Branch.{first_attempt};
ghost use Rattle.term_bank.specs.Numbered.{at};
ghost use Rattle.numbered_terms.specs.Lists.{AtomsBelow};
ghost use Rattle.numbered_terms.specs.Stored.{Grows};
ghost use Rattle.numbered_forms.specs.Sums.{sum_at};
ghost use Rattle.numbered_branches.specs.Applied.{TriesAt};
ghost use Rattle.numbered_branches.specs.Branches.{branch_at, IsBranchOver};
ghost use Rattle.numbered_branches.specs.Standing.{IsMoveAt};
ghost use Rattle.numbered_branches.specs.View.{move_seen};
ghost use Rattle.theory_rules.specs.Combining.{are_opposite, counted, lead_size, combined_pair, is_known, combine_pair, pairs_from, combined_by, combine};
ghost use Rattle.numbered_theory.specs.Combined.{combined_at, IsCombinedBelow, CombinesAt, AttemptsAt};
ghost use Rattle.numbered_theory.specs.Entries.{entry_at, entries_at, IsEntryBelow};
ghost use Rattle.numbered_theory.specs.Leads.{IsNoted, IsLed, AreLed};
ghost use Rattle.numbered_theory.specs.Tried.{IsTried, AreTried};

use crate::entries::{Entry, are_opposite, entries, is_known, place_entries};
use crate::leads::{Leads, is_one_atom, lead_atom, lead_atoms};
use crate::tried::Tried;
use linear_certs::gcd;
use logic_core::NormalFault;
use numbered_branches::branch::Branch;
use numbered_branches::on_one::adding;
use numbered_branches::played::{Attempt, Move};
use numbered_branches::step::Step;
use numbered_facts::Store;
use numbered_facts::linear::{lead, sum_of};
use numbered_forms::junction::is_truth;
use numbered_forms::sum::NumberedSum;
use numbered_terms::Terms;
use numbered_terms::slots::Slots;
use std::alloc::AllocError;
use term_bank::TermId;

/// Two linear facts, the multipliers of their forms, and the sum.
#[derive(Clone, Copy)]
pub struct Combined {
    pub first: Entry,
    pub second: Entry,
    pub p: i128,
    pub q: i128,
    pub fact: TermId,
}

// The absolute value of the lead's coefficient.
fn lead_size(terms: &Terms, entry: &Entry) -> u128
    requires { entry.now.sum < length terms.now }
    ensures { result ≡ lead_size (entry_at terms.now entry.now) }
{
    match lead(terms, entry.sum) {
        Some((k, _)) => k.unsigned_abs(),
        None => 0,
    }
}

// The number as a multiplier: negative where it is turned. None exactly where it leaves 128 bits.
fn multiplier(turned: bool, number: u128) -> Option<i128>
    ensures { result ≡ option_map (λ k. if turned then neg_ℤ k else k) (checked (pos number)) }
{
    if number > i128::MAX as u128 {
        return None;
    }
    let number = number as i128;
    if turned { Some(-number) } else { Some(number) }
}

// p times the one and q times the other sum. Wide exactly where a number leaves 128 bits.
fn combine_sums(
    terms: &Terms,
    a: TermId,
    p: i128,
    b: TermId,
    q: i128,
) -> Result<NumberedSum, NormalFault>
    requires a { a < length terms.now }
    requires b { b < length terms.now }
    ensures gives { GivesAs (sum_at terms.now) result (combined (sum_of (at terms.now a)) p (sum_of (at terms.now b)) q) }
    ensures within { IfOk result (λ s. AtomsBelow (length terms.now) s.parts.items) }
{
    let a = sum_of(terms, a)?;
    let b = sum_of(terms, b)?;
    let sum = NumberedSum::constant(terms.alloc(), 0);
    let sum = sum.add_sum(terms, p, &a.parts, a.rest)?;
    sum.add_sum(terms, q, &b.parts, b.rest)
}

// Such multiples of the two that their leads cancel, added. Wide exactly where a number leaves 128 bits.
fn combine_two(store: &mut Store, d: &Entry, e: &Entry) -> Result<Combined, NormalFault>
    requires d { d.now.sum < length store.old.terms }
    requires e { e.now.sum < length store.old.terms }
    requires opposite { are_opposite (lead (counted (entry_at store.old.terms d.now))) (lead (counted (entry_at store.old.terms e.now))) ≡ true }
    ensures grows { Grows store.old store.new }
    ensures gives { CombinesAt store.new.terms result (combined_pair (entry_at store.old.terms d.now) (entry_at store.old.terms e.now)) }
{
    let a = lead_size(store.terms(), d);
    let b = lead_size(store.terms(), e);
    let g = gcd(a, b);
    let first_times = b / g;
    let second_times = a / g;
    let Some(p) = multiplier(d.turned, first_times) else {
        return Err(NormalFault::Wide);
    };
    let Some(q) = multiplier(e.turned, second_times) else {
        return Err(NormalFault::Wide);
    };
    let sum = combine_sums(store.terms(), d.sum, p, e.sum, q)?;
    let fact = store.at_least_zero(sum)?;
    Ok(Combined {
        first: *d,
        second: *e,
        p,
        q,
        fact,
    })
}

// Whether the sum is true, or known after tightening.
fn says_nothing_new(
    store: &mut Store,
    places: &Slots<usize>,
    entries: &[Entry],
    sum: TermId,
) -> Result<bool, AllocError>
    requires entries { AllByRecursion (IsEntryBelow (length store.old.terms)) entries.now }
    requires sum { sum < length store.old.terms }
    ensures grows { Grows store.old store.new }
    ensures says { IfOk result (λ b. b ≡ (is_truth true (at store.old.terms sum) || is_known (entries_at store.old.terms entries.now) (tighten (at store.old.terms sum)))) }
{
    if is_truth(store.terms(), sum, true) {
        return Ok(true);
    }
    let tight = store.tightened(sum)?;
    is_known(store.terms(), places, entries, tight)
}

// The combination of the two, unless it says nothing new. Wide exactly where it leaves 128 bits.
fn combine_pair(
    store: &mut Store,
    places: &Slots<usize>,
    entries: &[Entry],
    d: &Entry,
    e: &Entry,
) -> Result<Option<Combined>, NormalFault>
    requires entries { AllByRecursion (IsEntryBelow (length store.old.terms)) entries.now }
    requires d { d.now.sum < length store.old.terms }
    requires e { e.now.sum < length store.old.terms }
    ensures grows { Grows store.old store.new }
    ensures attempts { AttemptsAt store.new.terms result (combine_pair (entries_at store.old.terms entries.now) (entry_at store.old.terms d.now, entry_at store.old.terms e.now)) }
{
    if !are_opposite(store.terms(), d, e) {
        return Ok(None);
    }
    let combined = combine_two(store, d, e)?;
    let known = says_nothing_new(store, places, entries, combined.fact)?;
    if known {
        return Ok(None);
    }
    Ok(Some(combined))
}

// The same of two whose leads have these atoms.
fn combine_led(
    store: &mut Store,
    places: &Slots<usize>,
    entries: &[Entry],
    d: &Entry,
    mine: &Option<TermId>,
    e: &Entry,
    theirs: &Option<TermId>,
) -> Result<Option<Combined>, NormalFault>
    requires entries { AllByRecursion (IsEntryBelow (length store.old.terms)) entries.now }
    requires d { d.now.sum < length store.old.terms }
    requires mine { IsLed store.old.terms d.now.sum mine.now }
    requires e { e.now.sum < length store.old.terms }
    requires theirs { IsLed store.old.terms e.now.sum theirs.now }
    ensures grows { Grows store.old store.new }
    ensures attempts { AttemptsAt store.new.terms result (combine_pair (entries_at store.old.terms entries.now) (entry_at store.old.terms d.now, entry_at store.old.terms e.now)) }
{
    store.terms().are_stored();
    let may_meet = is_one_atom(mine, theirs);
    if may_meet {
        return combine_pair(store, places, entries, d, e);
    }
    Ok(None)
}

// The first combination of one of these, whose leads have these atoms, with a later one.
fn combine_with(
    store: &mut Store,
    places: &Slots<usize>,
    entries: &[Entry],
    before: &[Entry],
    atoms: &[Option<TermId>],
    e: &Entry,
) -> Result<Option<Combined>, NormalFault>
    requires entries { AllByRecursion (IsEntryBelow (length store.old.terms)) entries.now }
    requires before { AllByRecursion (IsEntryBelow (length store.old.terms)) before.now }
    requires as_many { length atoms.now ≡ length before.now }
    requires led { AreLed store.old.terms before.now atoms.now }
    requires e { e.now.sum < length store.old.terms }
    ensures grows { Grows store.old store.new }
    ensures attempts { AttemptsAt store.new.terms result (first_attempt (combine_pair (entries_at store.old.terms entries.now)) (map (λ d. (d, entry_at store.old.terms e.now)) (entries_at store.old.terms before.now))) }
{
    let theirs = lead_atom(store.terms(), e);
    for (i, d) in before.iter().enumerate() {
        if let Some(combined) = combine_led(store, places, entries, d, &atoms[i], e, &theirs)? {
            return Ok(Some(combined));
        }
    }
    Ok(None)
}

// The first combination of one of these, which are noted, with a later one, which is noted then.
fn combine_next(
    store: &mut Store,
    leads: &mut Leads,
    places: &Slots<usize>,
    entries: &[Entry],
    before: &[Entry],
    atoms: &[Option<TermId>],
    e: &Entry,
) -> Result<Option<Combined>, NormalFault>
    requires entries { AllByRecursion (IsEntryBelow (length store.old.terms)) entries.now }
    requires before { AllByRecursion (IsEntryBelow (length store.old.terms)) before.now }
    requires as_many { length atoms.now ≡ length before.now }
    requires led { AreLed store.old.terms before.now atoms.now }
    requires e { e.now.sum < length store.old.terms }
    requires noted { AllByRecursion (IsNoted store.old.terms leads.old.above leads.old.below) before.now }
    ensures grows { Grows store.old store.new }
    ensures attempts { AttemptsAt store.new.terms result (first_attempt (combine_pair (entries_at store.old.terms entries.now)) (map (λ d. (d, entry_at store.old.terms e.now)) (entries_at store.old.terms before.now))) }
    ensures noted { OnOk result (AllByRecursion (IsNoted store.new.terms leads.new.above leads.new.below) (before.now ++ e.now ∷ [])) }
{
    let meets = leads.may_meet(store.terms(), e);
    leads.note(store.terms(), e)?;
    if meets {
        return combine_with(store, places, entries, before, atoms, e);
    }
    Ok(None)
}

// Notes the facts.
fn note_each(terms: &Terms, leads: &mut Leads, entries: &[Entry]) -> Result<(), AllocError>
    requires { AllByRecursion (IsEntryBelow (length terms.now)) entries.now }
    ensures { OnOk result (AllByRecursion (IsNoted terms.now leads.new.above leads.new.below) entries.now) }
{
    leads.clear();
    for entry in entries {
        leads.note(terms, entry)?;
    }
    Ok(())
}

// The first combination of facts whose leads have these atoms: that of the oldest later fact, and then of
// the oldest earlier one. So many of the facts, from the first on, have none.
fn first_led(
    store: &mut Store,
    leads: &mut Leads,
    places: &Slots<usize>,
    entries: &[Entry],
    atoms: &[Option<TermId>],
    pairs: &mut usize,
) -> Result<Option<Combined>, NormalFault>
    requires entries { AllByRecursion (IsEntryBelow (length store.old.terms)) entries.now }
    requires as_many { length atoms.now ≡ length entries.now }
    requires led { AreLed store.old.terms entries.now atoms.now }
    requires within { pairs.old ≤ length entries.now }
    requires tried { IsTried (entries_at store.old.terms entries.now) pairs.old }
    ensures grows { Grows store.old store.new }
    ensures attempts { AttemptsAt store.new.terms result (first_attempt (combine_pair (entries_at store.old.terms entries.now)) (pairs_from [] (entries_at store.old.terms entries.now))) }
    ensures within { OnOk result (pairs.new ≤ length entries.now) }
    ensures tried { OnOk result (IsTried (entries_at store.old.terms entries.now) pairs.new) }
{
    let start = *pairs;
    note_each(store.terms(), leads, &entries[..start])?;
    for i in start..entries.len() {
        let e = &entries[i];
        if let Some(combined) = combine_next(
            store,
            leads,
            places,
            entries,
            &entries[..i],
            &atoms[..i],
            e,
        )? {
            *pairs = i;
            return Ok(Some(combined));
        }
    }
    *pairs = entries.len();
    Ok(None)
}

impl Tried {
    // The first combination of the facts that are listed.
    fn first_combined(
        &mut self,
        store: &mut Store,
        leads: &mut Leads,
        places: &Slots<usize>,
    ) -> Result<Option<Combined>, NormalFault>
        requires { AreTried store.old.terms self.old }
        ensures grows { Grows store.old store.new }
        ensures attempts { AttemptsAt store.new.terms result (first_attempt (combine_pair (entries_at store.old.terms self.old.entries.items)) (pairs_from [] (entries_at store.old.terms self.old.entries.items))) }
        ensures tried { OnOk result (AreTried store.new.terms self.new) }
    {
        let atoms = lead_atoms(store.terms(), &self.entries)?;
        first_led(store, leads, places, &self.entries, &atoms, &mut self.pairs)
    }
}

// The sum is added, tightened. No definition plays a part.
fn add_combined(store: &mut Store, branch: Branch, combined: &Combined) -> Result<Move, AllocError>
    requires branch { IsBranchOver store.old.terms branch }
    requires combined { IsCombinedBelow (length store.old.terms) combined.now }
    ensures grows { Grows store.old store.new }
    ensures step { IfOk result (λ m. IsMoveAt store.new.terms (move_seen m) (combined_by [] (branch_at store.old.terms branch) (combined_at store.old.terms combined.now))) }
{
    let step = Step::Combine {
        first: combined.first.number,
        first_times: combined.p,
        second: combined.second.number,
        second_times: combined.q,
    };
    adding(store, branch, step, combined.fact)
}

/// Of two linear facts with one lead atom and coefficients of opposite signs such multiples are added
/// that it goes away.
pub fn combine(
    store: &mut Store,
    leads: &mut Leads,
    places: &mut Slots<usize>,
    tried: &mut Tried,
    branch: Branch,
) -> Result<Attempt, NormalFault>
    requires branch { IsBranchOver store.old.terms branch }
    requires vars { store.old.vars ≡ branch.vars }
    requires tried { AreTried store.old.terms tried.old }
    ensures grows { Grows store.old store.new }
    ensures tries { TriesAt store.new.terms (branch_at store.old.terms branch) result (combine store.old.defs (branch_at store.old.terms branch)) }
    ensures tried { OnOk result (AreTried store.new.terms tried.new) }
{
    let entries = entries(store, &branch)?;
    place_entries(places, &entries)?;
    tried.list(entries);
    match tried.first_combined(store, leads, places)? {
        Some(combined) => Ok(Attempt::Gives(add_combined(store, branch, &combined)?)),
        None => Ok(Attempt::Passes(branch)),
    }
}
