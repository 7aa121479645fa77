// The left sides of facts, by number.
ghost use Rattle.std.specs.Option.{option_copied};
ghost use Rattle.std.specs.Prelude.{◌≡◌, ◌<◌, ◌&&◌, ◌||◌, not, nat_eq, option_map, Some, [], length, IfOk, IfSome};
ghost use Rattle.logic_core.specs.Combine.{sum_of};
ghost use Rattle.logic_core.specs.Sorts.{sort_of};
ghost use Rattle.logic_core.specs.Subterm.{occurs, has_quantifier, is_quantifier};
ghost use Rattle.logic_core.specs.View.{parts_of};
ghost use Rattle.logic_core.specs.Wide.{when};
ghost use Rattle.tableau_branch.specs.Oriented.{is_variable, is_application, is_one, is_minus_one, parts_with, greater_number, solvable_among, simple_lead, linear_left, defines, defined, greater_side, equation_left, left_side};
ghost use Rattle.term_bank.specs.Numbered.{at};
ghost use Rattle.numbered_terms.specs.Lists.{atoms_at, AtomsBelow};
ghost use Rattle.numbered_terms.specs.Slots.{AreKept};
ghost use Rattle.numbered_facts.specs.Answers.{StandsFor};
ghost use Rattle.numbered_facts.specs.Memos.{IsSort};

use crate::occurring::{has_quantifier, is_apart, occurs};
use crate::sorts::{find_sort, sort_at};
use logic_core::{Def, Sort, SortKind};
use numbered_forms::negation::is_zero;
use numbered_terms::Terms;
use numbered_terms::slots::Slots;
use std::alloc::AllocError;
use term_bank::{Node, TermId};

// Whether the term is a free variable.
fn is_variable(terms: &Terms, id: TermId) -> bool
    requires { id < length terms.now }
    ensures { result ≡ is_variable (at terms.now id) }
{
    match terms.node(id) {
        Node::Free(_) => true,
        _ => false,
    }
}

// Whether the term is a Read or a Call.
fn is_application(terms: &Terms, id: TermId) -> bool
    requires { id < length terms.now }
    ensures { result ≡ is_application (at terms.now id) }
{
    match terms.node(id) {
        Node::Read(_, _) | Node::Call(_, _) => true,
        _ => false,
    }
}

// In how many atoms the term occurs.
fn parts_with(terms: &Terms, id: TermId, parts: &[(i128, TermId)]) -> Result<usize, AllocError>
    requires id { id < length terms.now }
    requires parts { AtomsBelow (length terms.now) parts.now }
    ensures { IfOk result (λ n. n ≡ parts_with (at terms.now id) (parts_of (atoms_at terms.now parts.now))) }
{
    let mut count: usize = 0;
    for part in parts {
        if occurs(terms, id, part.1)? {
            count += 1;
        }
    }
    Ok(count)
}

// The variable of greater number, or the first term where one isn't a variable.
fn greater_variable(terms: &Terms, first: TermId, second: TermId) -> TermId
    requires first { first < length terms.now }
    requires second { second < length terms.now }
    ensures is { Some (at terms.now result) ≡ greater_number (Some (at terms.now first)) (Some (at terms.now second)) }
    ensures within { result < length terms.now }
{
    match terms.node(first) {
        Node::Free(v) => match terms.node(second) {
            Node::Free(w) => {
                if *v < *w {
                    return second;
                }
                first
            }
            _ => first,
        },
        _ => first,
    }
}

// Of two variables, where there are two, the one of greater number.
fn greater_number(terms: &Terms, first: TermId, second: Option<TermId>) -> TermId
    requires first { first < length terms.now }
    requires second { IfSome second (λ i. i < length terms.now) }
    ensures is { Some (at terms.now result) ≡ greater_number (Some (at terms.now first)) (option_map (at terms.now) second) }
    ensures within { result < length terms.now }
{
    match second {
        None => first,
        Some(other) => greater_variable(terms, first, other),
    }
}

// Whether an atom is a variable with coefficient 1 or -1 that occurs in no other atom.
fn is_solvable(
    terms: &Terms,
    part: &(i128, TermId),
    parts: &[(i128, TermId)],
) -> Result<bool, AllocError>
    requires part { part.now.1 < length terms.now }
    requires parts { AtomsBelow (length terms.now) parts.now }
    ensures { IfOk result (λ b. b ≡ (is_variable (at terms.now part.now.1) && ((is_one part.now.0 || is_minus_one part.now.0) && nat_eq (parts_with (at terms.now part.now.1) (parts_of (atoms_at terms.now parts.now))) 1))) }
{
    if is_variable(terms, part.1) && (part.0 == 1 || part.0 == -1) {
        return Ok(parts_with(terms, part.1, parts)? == 1);
    }
    Ok(false)
}

// Of the best variable so far, and of this atom where it is solvable, the one of greater number.
fn better(
    terms: &Terms,
    part: &(i128, TermId),
    parts: &[(i128, TermId)],
    best: Option<TermId>,
) -> Result<Option<TermId>, AllocError>
    requires part { part.now.1 < length terms.now }
    requires parts { AtomsBelow (length terms.now) parts.now }
    requires best { IfSome best (λ i. i < length terms.now) }
    ensures { IfOk result (λ o. StandsFor terms.now o (greater_number (when (is_variable (at terms.now part.now.1) && ((is_one part.now.0 || is_minus_one part.now.0) && nat_eq (parts_with (at terms.now part.now.1) (parts_of (atoms_at terms.now parts.now))) 1)) (Some (at terms.now part.now.1))) (option_map (at terms.now) best))) }
{
    let joins = is_solvable(terms, part, parts)?;
    if joins {
        return Ok(Some(greater_number(terms, part.1, best)));
    }
    Ok(best)
}

// Of the variables that are an atom with coefficient 1 or -1 and occur in no other atom, the one of
// greatest number.
fn solvable(terms: &Terms, parts: &[(i128, TermId)]) -> Result<Option<TermId>, AllocError>
    requires { AtomsBelow (length terms.now) parts.now }
    ensures { IfOk result (λ o. StandsFor terms.now o (solvable_among (parts_of (atoms_at terms.now parts.now)) (parts_of (atoms_at terms.now parts.now)))) }
{
    let mut best = None;
    let mut i = parts.len();
    while i > 0 {
        i -= 1;
        let part = &parts[i];
        best = better(terms, part, parts, best)?;
    }
    Ok(best)
}

// The atom, where it isn't a variable and has coefficient 1.
fn simple_atom(terms: &Terms, part: &(i128, TermId)) -> Option<TermId>
    requires { part.now.1 < length terms.now }
    ensures is { option_map (at terms.now) result ≡ when (is_one part.now.0 && not (is_variable (at terms.now part.now.1))) (Some (at terms.now part.now.1)) }
    ensures within { IfSome result (λ i. i < length terms.now) }
{
    if part.0 == 1 && !is_variable(terms, part.1) {
        return Some(part.1);
    }
    None
}

// The lead where it isn't a variable and has coefficient 1, and the rest is a number or one atom of
// coefficient -1.
fn simple_lead(terms: &Terms, parts: &[(i128, TermId)], rest: i128) -> Option<TermId>
    requires { AtomsBelow (length terms.now) parts.now }
    ensures is { option_map (at terms.now) result ≡ simple_lead (parts_of (atoms_at terms.now parts.now)) rest }
    ensures within { IfSome result (λ i. i < length terms.now) }
{
    match parts {
        [] => None,
        [lead] => simple_atom(terms, lead),
        [lead, other] => {
            if other.0 == -1 && rest == 0 {
                return simple_atom(terms, lead);
            }
            None
        }
        _ => None,
    }
}

// The left side of an equation of a sum with zero.
fn linear_left(terms: &Terms, id: TermId) -> Result<Option<TermId>, AllocError>
    requires { id < length terms.now }
    ensures { IfOk result (λ o. StandsFor terms.now o (linear_left (sum_of (at terms.now id)))) }
{
    match terms.node(id) {
        Node::Num(_) => Ok(None),
        Node::Sum(parts, rest) => match solvable(terms, parts)? {
            Some(variable) => Ok(Some(variable)),
            None => Ok(simple_lead(terms, parts, *rest)),
        },
        _ => Ok(Some(id)),
    }
}

// Whether the first term is a variable that doesn't occur in the second, which has no quantifier.
fn defines(terms: &Terms, variable: TermId, id: TermId) -> Result<bool, AllocError>
    requires variable { variable < length terms.now }
    requires id { id < length terms.now }
    ensures { IfOk result (λ b. b ≡ defines (at terms.now variable) (at terms.now id)) }
{
    if !is_variable(terms, variable) {
        return Ok(false);
    }
    is_apart(terms, variable, id)
}

// The side of an equation that is a variable and is defined by the other side.
fn defined(terms: &Terms, a: TermId, b: TermId) -> Result<Option<TermId>, AllocError>
    requires a { a < length terms.now }
    requires b { b < length terms.now }
    ensures { IfOk result (λ o. StandsFor terms.now o (defined (at terms.now a) (at terms.now b))) }
{
    if defines(terms, b, a)? {
        return Ok(Some(b));
    }
    if defines(terms, a, b)? {
        return Ok(Some(a));
    }
    Ok(None)
}

// The greater side of an equation of maps; of an equation of Bool, where the greater side is a Read or a
// Call and the other side has no quantifier.
fn greater_side(
    terms: &Terms,
    sort: Option<&Sort>,
    a: TermId,
    b: TermId,
) -> Result<Option<TermId>, AllocError>
    requires a { a < length terms.now }
    requires b { b < length terms.now }
    ensures { IfOk result (λ o. StandsFor terms.now o (greater_side (option_copied sort.entry) (at terms.now a) (at terms.now b))) }
{
    match sort {
        Some(sort) => match &sort.kind {
            SortKind::Int => Ok(None),
            SortKind::Bool => greater_formula(terms, a, b),
            SortKind::Map(_) => Ok(Some(b)),
        },
        None => Ok(None),
    }
}

// Of an equation of Bool the second side, where it is a Read or a Call and the first has no quantifier.
fn greater_formula(terms: &Terms, a: TermId, b: TermId) -> Result<Option<TermId>, AllocError>
    requires a { a < length terms.now }
    requires b { b < length terms.now }
    ensures { IfOk result (λ o. StandsFor terms.now o (when (is_application (at terms.now b) && not (has_quantifier (at terms.now a))) (Some (at terms.now b)))) }
{
    if !is_application(terms, b) {
        return Ok(None);
    }
    if has_quantifier(terms, a)? {
        return Ok(None);
    }
    Ok(Some(b))
}

// The same, by the sort of the first side, which is kept.
fn greater_of(
    terms: &Terms,
    sorts: &mut Slots<Option<Sort>>,
    vars: &[Sort],
    defs: &[Def],
    a: TermId,
    b: TermId,
) -> Result<Option<TermId>, AllocError>
    requires a { a < length terms.now }
    requires b { b < length terms.now }
    requires sorts { AreKept (IsSort (record { terms = terms.now; vars = vars.now; defs = defs.now })) sorts.old.slots.items }
    ensures sorts { AreKept (IsSort (record { terms = terms.now; vars = vars.now; defs = defs.now })) sorts.new.slots.items }
    ensures gives { IfOk result (λ o. StandsFor terms.now o (greater_side (sort_of vars.now defs.now [] (at terms.now a)) (at terms.now a) (at terms.now b))) }
{
    find_sort(terms, sorts, vars, defs, a)?;
    greater_side(terms, sort_at(sorts, a), a, b)
}

// The left side of an equation.
fn equation_left(
    terms: &Terms,
    sorts: &mut Slots<Option<Sort>>,
    vars: &[Sort],
    defs: &[Def],
    a: TermId,
    b: TermId,
) -> Result<Option<TermId>, AllocError>
    requires a { a < length terms.now }
    requires b { b < length terms.now }
    requires sorts { AreKept (IsSort (record { terms = terms.now; vars = vars.now; defs = defs.now })) sorts.old.slots.items }
    ensures sorts { AreKept (IsSort (record { terms = terms.now; vars = vars.now; defs = defs.now })) sorts.new.slots.items }
    ensures gives { IfOk result (λ o. StandsFor terms.now o (equation_left vars.now defs.now (at terms.now a) (at terms.now b))) }
{
    if is_zero(terms, b) {
        return linear_left(terms, a);
    }
    match defined(terms, a, b)? {
        Some(variable) => Ok(Some(variable)),
        None => greater_of(terms, sorts, vars, defs, a, b),
    }
}

/// The left side of a fact, by what it says that it is equal to. None exactly where the fact isn't
/// oriented.
pub(crate) fn left_side(
    terms: &Terms,
    sorts: &mut Slots<Option<Sort>>,
    vars: &[Sort],
    defs: &[Def],
    fact: TermId,
) -> Result<Option<TermId>, AllocError>
    requires fact { fact < length terms.now }
    requires sorts { AreKept (IsSort (record { terms = terms.now; vars = vars.now; defs = defs.now })) sorts.old.slots.items }
    ensures sorts { AreKept (IsSort (record { terms = terms.now; vars = vars.now; defs = defs.now })) sorts.new.slots.items }
    ensures gives { IfOk result (λ o. StandsFor terms.now o (left_side vars.now defs.now (at terms.now fact))) }
{
    match terms.node(fact) {
        Node::Eq(a, b) => equation_left(terms, sorts, vars, defs, *a, *b),
        Node::Free(_) => Ok(Some(fact)),
        Node::Not(t) => {
            if is_variable(terms, *t) {
                return Ok(Some(*t));
            }
            Ok(None)
        }
        _ => Ok(None),
    }
}
