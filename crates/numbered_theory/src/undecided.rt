// Numbers that facts leave undecided, by number.
ghost use Rattle.std.specs.Prelude.{◌≡◌, ◌<◌, ◌++◌, false, ℕ, [], length, map, option_map, IfOk, IfSome, OnOk};
ghost use Rattle.std.specs.List.{cons_option, list_any, AllByRecursion};
ghost use Rattle.logic_core.specs.Combine.{lead, sum_of};
ghost use Rattle.logic_core.specs.Tree.{at_most};
ghost use Rattle.term_bank.specs.Numbered.{at};
ghost use Rattle.numbered_terms.specs.Lists.{AtomsBelow};
ghost use Rattle.numbered_forms.specs.Sums.{sum_at};
ghost use Rattle.numbered_branches.specs.Branches.{fact_at, IsFactBelow};
ghost use Rattle.theory_rules.specs.Trichotomy.{at_most_form, at_most_forms, is_opposite, equation_of_zero, undecided_by};
ghost use Rattle.numbered_theory.specs.Leads.{has_no_sign, side_entry, IsNoted, IsLed, AreSidesLed, signed_atom, IsSignedAtom, may_be_one};
ghost use Rattle.numbered_theory.specs.Places.{placed, ArePlacesAt};
ghost use Rattle.numbered_theory.specs.Sums.{sums_at, undecided_places};

use crate::entries::{Entry, is_at_most, is_negative, is_positive};
use crate::leads::{Leads, is_one_atom, lead_atom};
use crate::linear::{has_opposite_parts, rest};
use numbered_branches::branch::Fact;
use numbered_facts::linear::{lead, linear_side, sum_of};
use numbered_forms::negation::is_zero;
use numbered_forms::sum::NumberedSum;
use numbered_terms::Terms;
use std::alloc::AllocError;
use term_bank::{Node, TermId};
use theory_rules::counting::same_number;

/// A fact with its place in the branch, and what was found in it.
#[derive(Clone, Copy)]
pub struct Place {
    pub at: usize,
    pub fact: Fact,
    pub what: TermId,
}

// d of a fact `Le(0, d)`.
fn at_most_side(terms: &Terms, fact: TermId) -> Option<TermId>
    requires { fact < length terms.now }
    ensures is { (n : ℕ) → option_map (λ d. sum_of (at terms.now d)) result ≡ at_most_form (record { term = at terms.now fact; number = n }) }
    ensures within { IfSome result (λ d. d < length terms.now) }
{
    if is_at_most(terms, fact) {
        linear_side(terms, fact)
    } else {
        None
    }
}

// The side, where there is one, behind the others.
fn push_side(sides: &mut Vec<TermId>, side: Option<TermId>) -> Result<(), AllocError>
    ensures { OnOk result (sides.new.items ≡ sides.old.items ++ cons_option side []) }
{
    match side {
        Some(side) => {
            sides.push(side)?;
            Ok(())
        }
        None => Ok(()),
    }
}

// The sides d of the facts `Le(0, d)`.
fn at_most_sides(terms: &Terms, facts: &[Fact]) -> Result<Vec<TermId>, AllocError>
    requires { AllByRecursion (IsFactBelow (length terms.now)) facts.now }
    ensures are { IfOk result (λ v. sums_at terms.now v.items ≡ at_most_forms (map (fact_at terms.now) facts.now)) }
    ensures within { IfOk result (λ v. AllByRecursion (λ d. d < length terms.now) v.items) }
{
    let mut sides = Vec::new(terms.alloc());
    for fact in facts {
        let side = at_most_side(terms, fact.term);
        push_side(&mut sides, side)?;
    }
    Ok(sides)
}

// The side of a fact `Le(0, d)` as the fact counts.
fn side_entry(sum: TermId) -> Entry
    ensures { result ≡ side_entry sum }
{
    Entry {
        number: 0,
        sum,
        turned: false,
    }
}

// Notes the sides.
fn note_sides(terms: &Terms, leads: &mut Leads, sides: &[TermId]) -> Result<(), AllocError>
    requires { AllByRecursion (λ d. d < length terms.now) sides.now }
    ensures { OnOk result (AllByRecursion (λ s. IsNoted terms.now leads.new.above leads.new.below (side_entry s)) sides.now) }
{
    leads.clear();
    for side in sides {
        leads.note(terms, &side_entry(*side))?;
    }
    Ok(())
}

// Whether the term as a sum is the opposite of the form.
fn is_opposite(terms: &Terms, form: &NumberedSum, other: TermId) -> bool
    requires form { AtomsBelow (length terms.now) form.now.parts.items }
    requires other { other < length terms.now }
    ensures { result ≡ is_opposite (sum_at terms.now form.now) (sum_of (at terms.now other)) }
{
    has_opposite_parts(terms, &form.parts, other)
        && same_number(true, form.rest, rest(terms, other))
}

// The atoms of the sides' leads.
fn side_atoms(terms: &Terms, sides: &[TermId]) -> Result<Vec<Option<TermId>>, AllocError>
    requires { AllByRecursion (λ d. d < length terms.now) sides.now }
    ensures { IfOk result (λ v. AreSidesLed terms.now sides.now v.items) }
{
    let mut atoms = Vec::new(terms.alloc());
    for side in sides {
        let atom = lead_atom(terms, &side_entry(*side));
        atoms.push(atom)?;
    }
    Ok(atoms)
}

// Whether the second atom may be the first one, or there is no first one.
fn may_be_one(mine: &Option<TermId>, theirs: &Option<TermId>) -> bool
    ensures { result ≡ may_be_one mine.now theirs.now }
{
    match mine {
        Some(_) => is_one_atom(theirs, mine),
        None => true,
    }
}

// Whether the term as a sum, whose lead has the second atom, is the opposite of the form, whose lead has
// the first one with a sign.
fn is_opposite_led(
    terms: &Terms,
    form: &NumberedSum,
    mine: &Option<TermId>,
    other: TermId,
    theirs: &Option<TermId>,
) -> bool
    requires form { AtomsBelow (length terms.now) form.now.parts.items }
    requires mine { IsSignedAtom terms.now (lead (sum_at terms.now form.now)) mine.now }
    requires other { other < length terms.now }
    requires theirs { IsLed terms.now other theirs.now }
    ensures { result ≡ is_opposite (sum_at terms.now form.now) (sum_of (at terms.now other)) }
{
    terms.are_stored();
    let meets = may_be_one(mine, theirs);
    if meets {
        return is_opposite(terms, form, other);
    }
    false
}

// Whether one of the terms as sums, whose leads have these atoms, is the opposite of this form, whose lead
// has that atom with a sign.
fn has_opposite(
    terms: &Terms,
    sides: &[TermId],
    atoms: &[Option<TermId>],
    form: &NumberedSum,
    mine: &Option<TermId>,
) -> bool
    requires sides { AllByRecursion (λ d. d < length terms.now) sides.now }
    requires as_many { length atoms.now ≡ length sides.now }
    requires led { AreSidesLed terms.now sides.now atoms.now }
    requires form { AtomsBelow (length terms.now) form.now.parts.items }
    requires mine { IsSignedAtom terms.now (lead (sum_at terms.now form.now)) mine.now }
    ensures { result ≡ list_any (is_opposite (sum_at terms.now form.now)) (sums_at terms.now sides.now) }
{
    for (i, side) in sides.iter().enumerate() {
        if is_opposite_led(terms, form, mine, *side, &atoms[i]) {
            return true;
        }
    }
    false
}

// Whether there is no lead, or its coefficient is neither positive nor negative.
fn has_no_sign(lead: Option<(i128, TermId)>) -> bool
    ensures { result ≡ has_no_sign lead }
{
    match lead {
        Some((k, _)) => !is_positive(false, k) && !is_negative(false, k),
        None => true,
    }
}

// The atom of a lead whose coefficient has a sign.
fn signed_atom(lead: Option<(i128, TermId)>) -> Option<TermId>
    ensures { result ≡ signed_atom lead }
{
    match lead {
        Some((k, atom)) => {
            if !is_positive(false, k) && !is_negative(false, k) {
                None
            } else {
                Some(atom)
            }
        }
        None => None,
    }
}

// Whether the term as a sum may be the opposite of one of the sides that were noted. Else it is of none.
fn may_be_opposite(terms: &Terms, leads: &Leads, high: TermId) -> bool
    requires { high < length terms.now }
    ensures { result ≡ false → (s : ℕ) → IsNoted terms.now leads.now.above leads.now.below (side_entry s) → is_opposite (sum_of (at terms.now high)) (sum_of (at terms.now s)) ≡ false }
{
    let found = lead(terms, high);
    if has_no_sign(found) {
        return true;
    }
    leads.may_meet(terms, &side_entry(high))
}

// Whether one of the sides, which are noted, is the opposite of the term as a sum.
fn is_opposite_to_side(
    terms: &Terms,
    leads: &Leads,
    sides: &[TermId],
    atoms: &[Option<TermId>],
    high: TermId,
) -> Result<bool, AllocError>
    requires sides { AllByRecursion (λ d. d < length terms.now) sides.now }
    requires as_many { length atoms.now ≡ length sides.now }
    requires led { AreSidesLed terms.now sides.now atoms.now }
    requires noted { AllByRecursion (λ s. IsNoted terms.now leads.now.above leads.now.below (side_entry s)) sides.now }
    requires high { high < length terms.now }
    ensures { IfOk result (λ b. b ≡ list_any (is_opposite (sum_of (at terms.now high))) (sums_at terms.now sides.now)) }
{
    if may_be_opposite(terms, leads, high) {
        let form = sum_of(terms, high)?;
        let found = lead(terms, high);
        let mine = signed_atom(found);
        return Ok(has_opposite(terms, sides, atoms, &form, &mine));
    }
    Ok(false)
}

// d of `Eq(d, 0)`.
fn equation_of_zero(terms: &Terms, id: TermId) -> Option<TermId>
    requires { id < length terms.now }
    ensures is { option_map (λ d. at terms.now d) result ≡ equation_of_zero (at terms.now id) }
    ensures within { IfSome result (λ d. d < length terms.now) }
{
    match terms.node(id) {
        Node::Eq(d, zero) => {
            if is_zero(terms, *zero) {
                Some(*d)
            } else {
                None
            }
        }
        _ => None,
    }
}

// d of a fact `Le(0, d)` beside one whose form is opposite.
fn undecided_inequality(
    terms: &Terms,
    leads: &Leads,
    sides: &[TermId],
    atoms: &[Option<TermId>],
    low: TermId,
    high: TermId,
) -> Result<Option<TermId>, AllocError>
    requires sides { AllByRecursion (λ d. d < length terms.now) sides.now }
    requires as_many { length atoms.now ≡ length sides.now }
    requires led { AreSidesLed terms.now sides.now atoms.now }
    requires noted { AllByRecursion (λ s. IsNoted terms.now leads.now.above leads.now.below (side_entry s)) sides.now }
    requires low { low < length terms.now }
    requires high { high < length terms.now }
    ensures is { IfOk result (λ o. option_map (λ d. at terms.now d) o ≡ undecided_by (sums_at terms.now sides.now) (at_most (at terms.now low) (at terms.now high))) }
    ensures within { IfOk result (λ o. IfSome o (λ d. d < length terms.now)) }
{
    if !is_zero(terms, low) {
        return Ok(None);
    }
    let opposite = is_opposite_to_side(terms, leads, sides, atoms, high)?;
    if opposite { Ok(Some(high)) } else { Ok(None) }
}

// d of a fact `Not Eq(d, 0)`, or of a fact `Le(0, d)` beside a fact `Le(0, -d)`, which has one of these
// sides.
fn undecided(
    terms: &Terms,
    leads: &Leads,
    sides: &[TermId],
    atoms: &[Option<TermId>],
    fact: TermId,
) -> Result<Option<TermId>, AllocError>
    requires sides { AllByRecursion (λ d. d < length terms.now) sides.now }
    requires as_many { length atoms.now ≡ length sides.now }
    requires led { AreSidesLed terms.now sides.now atoms.now }
    requires noted { AllByRecursion (λ s. IsNoted terms.now leads.now.above leads.now.below (side_entry s)) sides.now }
    requires fact { fact < length terms.now }
    ensures is { IfOk result (λ o. option_map (λ d. at terms.now d) o ≡ undecided_by (sums_at terms.now sides.now) (at terms.now fact)) }
    ensures within { IfOk result (λ o. IfSome o (λ d. d < length terms.now)) }
{
    match terms.node(fact) {
        Node::Not(t) => Ok(equation_of_zero(terms, *t)),
        Node::Le(low, high) => undecided_inequality(terms, leads, sides, atoms, *low, *high),
        _ => Ok(None),
    }
}

// The place of a fact, where something was found in it, behind the others.
fn push_place(
    places: &mut Vec<Place>,
    at: usize,
    fact: &Fact,
    what: Option<TermId>,
) -> Result<(), AllocError>
    ensures { OnOk result (places.new.items ≡ places.old.items ++ placed at fact.now what) }
{
    match what {
        Some(what) => {
            let fact = *fact;
            places.push(Place { at, fact, what })?;
            Ok(())
        }
        None => Ok(()),
    }
}

/// The facts that leave a number undecided, oldest first.
pub fn undecided_places(
    terms: &Terms,
    leads: &mut Leads,
    facts: &[Fact],
) -> Result<Vec<Place>, AllocError>
    requires { AllByRecursion (IsFactBelow (length terms.now)) facts.now }
    ensures { IfOk result (λ v. ArePlacesAt terms.now v.items (undecided_places (map (fact_at terms.now) facts.now))) }
{
    let sides = at_most_sides(terms, facts)?;
    note_sides(terms, leads, &sides)?;
    let atoms = side_atoms(terms, &sides)?;
    let mut places = Vec::new(terms.alloc());
    for (at, fact) in facts.iter().enumerate() {
        let what = undecided(terms, leads, &sides, &atoms, fact.term)?;
        push_place(&mut places, at, fact, what)?;
    }
    Ok(places)
}
