// The normal forms of the parts of a term.
ghost use Rattle.std.specs.Prelude.{◌≡◌, ◌<◌, ◌≤◌, length, IfOk};
ghost use Rattle.std.specs.List.{AllByRecursion};
ghost use Rattle.logic_core.specs.View.{trees_of, parts_of, patterns_of};
ghost use Rattle.logic_core.specs.Gives.{GivesAs};
ghost use Rattle.logic_core.specs.Sum.{constant};
ghost use Rattle.logic_core.specs.Normal.{normal, normal_each, normal_sum, normal_patterns};
ghost use Rattle.logic_core.specs.Tree.{linear};
ghost use Rattle.term_bank.specs.Numbered.{at, Begins};
ghost use Rattle.term_bank.specs.Node.{in_lists};
ghost use Rattle.numbered_terms.specs.At.{GivesAt};
ghost use Rattle.numbered_terms.specs.Lists.{terms_at, atoms_at, lists_at, AtomsBelow};
ghost use Rattle.numbered_forms.specs.Forms.{AreForms, normal_two, normal_three, normal_parts, normal_atom};
ghost use Rattle.numbered_forms.specs.Sums.{sum_at};

use crate::normal::normal_under;
use crate::sum::NumberedSum;
use logic_core::{Def, NormalFault, Sort};
use numbered_terms::Terms;
use numbered_terms::slots::Slots;
use term_bank::TermId;

// The normal forms of two terms.
#[cycle(normal)]
pub(crate) fn normal_two(
    terms: &mut Terms,
    forms: &mut Slots<TermId>,
    vars: &[Sort],
    defs: &[Def],
    bound: &[Sort],
    below: usize,
    a: TermId,
    b: TermId,
) -> Result<(TermId, TermId), NormalFault>
    requires below { below ≤ length terms.old }
    requires a { a < below }
    requires b { b < below }
    requires forms { AreForms vars.now defs.now terms.old forms.old.slots.items }
    ensures grows { Begins terms.old terms.new }
    ensures forms { AreForms vars.now defs.now terms.new forms.new.slots.items }
    ensures gives { GivesAs (λ p. (at terms.new p.0, at terms.new p.1)) result (normal_two vars.now defs.now bound.now (at terms.old a) (at terms.old b)) }
    ensures first { IfOk result (λ p. p.0 < length terms.new) }
    ensures second { IfOk result (λ p. p.1 < length terms.new) }
{
    let first = normal_under(terms, forms, vars, defs, bound, a)?;
    let second = normal_under(terms, forms, vars, defs, bound, b)?;
    Ok((first, second))
}

// The normal forms of three terms.
#[cycle(normal)]
pub(crate) fn normal_three(
    terms: &mut Terms,
    forms: &mut Slots<TermId>,
    vars: &[Sort],
    defs: &[Def],
    bound: &[Sort],
    below: usize,
    a: TermId,
    b: TermId,
    c: TermId,
) -> Result<(TermId, TermId, TermId), NormalFault>
    requires below { below ≤ length terms.old }
    requires a { a < below }
    requires b { b < below }
    requires c { c < below }
    requires forms { AreForms vars.now defs.now terms.old forms.old.slots.items }
    ensures grows { Begins terms.old terms.new }
    ensures forms { AreForms vars.now defs.now terms.new forms.new.slots.items }
    ensures gives { GivesAs (λ p. (at terms.new p.0, at terms.new p.1, at terms.new p.2)) result (normal_three vars.now defs.now bound.now (at terms.old a) (at terms.old b) (at terms.old c)) }
    ensures first { IfOk result (λ p. p.0 < length terms.new) }
    ensures second { IfOk result (λ p. p.1 < length terms.new) }
    ensures third { IfOk result (λ p. p.2 < length terms.new) }
{
    let first = normal_under(terms, forms, vars, defs, bound, a)?;
    let (second, third) = normal_two(terms, forms, vars, defs, bound, below, b, c)?;
    Ok((first, second, third))
}

// The normal forms of the terms.
#[cycle(normal)]
pub(crate) fn normal_each(
    terms: &mut Terms,
    forms: &mut Slots<TermId>,
    vars: &[Sort],
    defs: &[Def],
    bound: &[Sort],
    below: usize,
    ids: &[TermId],
) -> Result<Vec<TermId>, NormalFault>
    requires below { below ≤ length terms.old }
    requires ids { AllByRecursion (λ j. j < below) ids.now }
    requires forms { AreForms vars.now defs.now terms.old forms.old.slots.items }
    ensures grows { Begins terms.old terms.new }
    ensures forms { AreForms vars.now defs.now terms.new forms.new.slots.items }
    ensures gives { GivesAs (λ v. trees_of (terms_at terms.new v.items)) result (normal_each vars.now defs.now bound.now (trees_of (terms_at terms.old ids.now))) }
    ensures within { IfOk result (λ v. AllByRecursion (λ j. j < length terms.new) v.items) }
{
    let mut done = Vec::new(terms.alloc());
    for id in ids {
        let form = normal_under(terms, forms, vars, defs, bound, *id)?;
        done.push(form)?;
    }
    Ok(done)
}

// The normal forms of the triggers' terms.
#[cycle(normal)]
pub(crate) fn normal_lists(
    terms: &mut Terms,
    forms: &mut Slots<TermId>,
    vars: &[Sort],
    defs: &[Def],
    bound: &[Sort],
    below: usize,
    lists: &[Vec<TermId>],
) -> Result<Vec<Vec<TermId>>, NormalFault>
    requires below { below ≤ length terms.old }
    requires lists { AllByRecursion (λ j. j < below) (in_lists lists.now) }
    requires forms { AreForms vars.now defs.now terms.old forms.old.slots.items }
    ensures grows { Begins terms.old terms.new }
    ensures forms { AreForms vars.now defs.now terms.new forms.new.slots.items }
    ensures gives { GivesAs (λ v. patterns_of (lists_at terms.new v.items)) result (normal_patterns vars.now defs.now bound.now (patterns_of (lists_at terms.old lists.now))) }
    ensures within { IfOk result (λ v. AllByRecursion (λ j. j < length terms.new) (in_lists v.items)) }
{
    let mut done = Vec::new(terms.alloc());
    for list in lists {
        let row = normal_each(terms, forms, vars, defs, bound, below, list)?;
        done.push(row)?;
    }
    Ok(done)
}

// The normal forms of a quantifier's triggers and body.
#[cycle(normal)]
pub(crate) fn normal_parts(
    terms: &mut Terms,
    forms: &mut Slots<TermId>,
    vars: &[Sort],
    defs: &[Def],
    bound: &[Sort],
    below: usize,
    lists: &[Vec<TermId>],
    body: TermId,
) -> Result<(Vec<Vec<TermId>>, TermId), NormalFault>
    requires below { below ≤ length terms.old }
    requires lists { AllByRecursion (λ j. j < below) (in_lists lists.now) }
    requires body { body < below }
    requires forms { AreForms vars.now defs.now terms.old forms.old.slots.items }
    ensures grows { Begins terms.old terms.new }
    ensures forms { AreForms vars.now defs.now terms.new forms.new.slots.items }
    ensures gives { GivesAs (λ p. (patterns_of (lists_at terms.new p.0.items), at terms.new p.1)) result (normal_parts vars.now defs.now bound.now (patterns_of (lists_at terms.old lists.now)) (at terms.old body)) }
    ensures lists { IfOk result (λ p. AllByRecursion (λ j. j < length terms.new) (in_lists p.0.items)) }
    ensures body { IfOk result (λ p. p.1 < length terms.new) }
{
    let lists = normal_lists(terms, forms, vars, defs, bound, below, lists)?;
    let body = normal_under(terms, forms, vars, defs, bound, body)?;
    Ok((lists, body))
}

// The normal form of a Sum: its parts are added left to right to its constant.
#[cycle(normal)]
pub(crate) fn normal_sum(
    terms: &mut Terms,
    forms: &mut Slots<TermId>,
    vars: &[Sort],
    defs: &[Def],
    bound: &[Sort],
    below: usize,
    parts: &[(i128, TermId)],
    c: i128,
) -> Result<TermId, NormalFault>
    requires below { below ≤ length terms.old }
    requires parts { AtomsBelow below parts.now }
    requires forms { AreForms vars.now defs.now terms.old forms.old.slots.items }
    ensures grows { Begins terms.old terms.new }
    ensures forms { AreForms vars.now defs.now terms.new forms.new.slots.items }
    ensures gives { GivesAt terms.new result (normal vars.now defs.now bound.now (linear (parts_of (atoms_at terms.old parts.now)) c)) }
{
    let sum = normal_atoms(terms, forms, vars, defs, bound, below, parts, c)?;
    Ok(sum.make(terms)?)
}

// The sum itself.
#[cycle(normal)]
pub(crate) fn normal_atoms(
    terms: &mut Terms,
    forms: &mut Slots<TermId>,
    vars: &[Sort],
    defs: &[Def],
    bound: &[Sort],
    below: usize,
    parts: &[(i128, TermId)],
    c: i128,
) -> Result<NumberedSum, NormalFault>
    requires below { below ≤ length terms.old }
    requires parts { AtomsBelow below parts.now }
    requires forms { AreForms vars.now defs.now terms.old forms.old.slots.items }
    ensures grows { Begins terms.old terms.new }
    ensures forms { AreForms vars.now defs.now terms.new forms.new.slots.items }
    ensures gives { GivesAs (sum_at terms.new) result (normal_sum vars.now defs.now bound.now (parts_of (atoms_at terms.old parts.now)) (constant c)) }
    ensures within { IfOk result (λ s. AtomsBelow (length terms.new) s.parts.items) }
{
    let mut sum = NumberedSum::constant(terms.alloc(), c);
    for part in parts {
        sum = normal_atom(terms, forms, vars, defs, bound, part.1, part.0, sum)?;
    }
    Ok(sum)
}

// So many times the normal form of a term joins the sum.
#[cycle(normal)]
pub(crate) fn normal_atom(
    terms: &mut Terms,
    forms: &mut Slots<TermId>,
    vars: &[Sort],
    defs: &[Def],
    bound: &[Sort],
    id: TermId,
    k: i128,
    sum: NumberedSum,
) -> Result<NumberedSum, NormalFault>
    requires id { id < length terms.old }
    requires sum { AtomsBelow (length terms.old) sum.parts.items }
    requires forms { AreForms vars.now defs.now terms.old forms.old.slots.items }
    ensures grows { Begins terms.old terms.new }
    ensures forms { AreForms vars.now defs.now terms.new forms.new.slots.items }
    ensures gives { GivesAs (sum_at terms.new) result (normal_atom vars.now defs.now bound.now k (at terms.old id) (sum_at terms.old sum)) }
    ensures within { IfOk result (λ s. AtomsBelow (length terms.new) s.parts.items) }
{
    let form = normal_under(terms, forms, vars, defs, bound, id)?;
    sum.add_term(terms, k, form)
}
