// Oriented facts: the left side of a fact.
ghost use Rattle.std.specs.Prelude.{◌≡◌, ◌&&◌, ◌||◌, not, nat_eq, Some, IfOk};
ghost use Rattle.logic_core.specs.Wide.{when};
ghost use Rattle.std.specs.Option.{option_copied};
ghost use Rattle.logic_core.specs.View.{parts_of};
ghost use Rattle.logic_core.specs.Combine.{sum_of};
ghost use Rattle.tableau_branch.specs.Sides.{at_side, side_between, defined_side};
ghost use Rattle.tableau_branch.specs.Oriented.{is_variable, is_application, is_one, is_minus_one, parts_with, greater_number, solvable_among, simple_lead, linear_left, defined, greater_side, equation_left, left_side};

use logic_core::def::Def;
use logic_core::sort::{Sort, SortKind};
use logic_core::term::{Node, Term};
use std::alloc::{AllocError, Global};
use tableau_branch::fact::Fact;
use tableau_branch::oriented::{Side, has_quantifier, is_variable};

/// Whether the term is a Read or a Call.
fn is_application(term: &Term) -> bool
    ensures { result ≡ is_application term.now }
{
    match &term.node {
        Node::Read(_, _) | Node::Call(_, _) => true,
        _ => false,
    }
}

/// In how many parts the term occurs.
fn parts_with(term: &Term, parts: &[(i128, Term)]) -> usize
    ensures { result ≡ parts_with term.now (parts_of parts.now) }
{
    let mut count: usize = 0;
    for part in parts {
        if term.occurs_in(&part.1) {
            count += 1;
        }
    }
    count
}

/// Of two variables, where there are two, the one of greater number.
fn greater_number<'a>(first: Option<&'a Term>, second: Option<&'a Term>) -> Option<&'a Term>
    ensures { option_copied result ≡ greater_number (option_copied first.entry) (option_copied second.entry) }
{
    match first {
        None => second,
        Some(a) => match second {
            None => Some(a),
            Some(b) => Some(greater_variable(a, b)),
        },
    }
}

/// The variable of greater number, or the first term where one isn't a variable.
fn greater_variable<'a>(first: &'a Term, second: &'a Term) -> &'a Term
    ensures { Some result.now ≡ greater_number (Some first.now) (Some second.now) }
{
    match &first.node {
        Node::Free(v) => match &second.node {
            Node::Free(w) if *v < *w => second,
            _ => first,
        },
        _ => first,
    }
}

/// Whether the part is a variable with coefficient 1 or -1 that occurs in no other part.
fn is_solvable(part: &(i128, Term), parts: &[(i128, Term)]) -> bool
    ensures { result ≡ (is_variable part.now.1 && ((is_one part.now.0 || is_minus_one part.now.0) && nat_eq (parts_with part.now.1 (parts_of parts.now)) 1)) }
{
    is_variable(&part.1) && (part.0 == 1 || part.0 == -1) && parts_with(&part.1, parts) == 1
}

/// Of the variables that are a part with coefficient 1 or -1 and occur in no other part, the one
/// of greatest number.
fn solvable(parts: &[(i128, Term)]) -> Option<&Term>
    ensures { option_copied result ≡ solvable_among (parts_of parts.now) (parts_of parts.now) }
{
    let mut best = None;
    let mut i = parts.len();
    while i > 0 {
        i -= 1;
        let part = &parts[i];
        if is_solvable(part, parts) {
            best = greater_number(Some(&part.1), best);
        }
    }
    best
}

/// The atom of a part, where it isn't a variable and has coefficient 1.
fn simple_atom(part: &(i128, Term)) -> Option<&Term>
    ensures { option_copied result ≡ when (is_one part.now.0 && not (is_variable part.now.1)) (Some part.now.1) }
{
    if part.0 == 1 && !is_variable(&part.1) {
        Some(&part.1)
    } else {
        None
    }
}

/// The lead where it isn't a variable and has coefficient 1, and the rest is a number or one atom
/// of coefficient 1.
fn simple_lead(parts: &[(i128, Term)], rest: i128) -> Option<&Term>
    ensures { option_copied result ≡ simple_lead (parts_of parts.now) rest }
{
    match parts {
        [] => None,
        [lead] => simple_atom(lead),
        [lead, other] => {
            if other.0 == -1 && rest == 0 {
                simple_atom(lead)
            } else {
                None
            }
        }
        _ => None,
    }
}

/// The left side of an equation of a sum with zero.
fn linear_left(term: &Term) -> Option<&Term>
    ensures { option_copied result ≡ linear_left (sum_of term.now) }
{
    match &term.node {
        Node::Num(_) => None,
        Node::Sum(parts, rest) => match solvable(parts) {
            Some(variable) => Some(variable),
            None => simple_lead(parts, *rest),
        },
        _ => Some(term),
    }
}

/// This side of an equation.
fn at_side<'a>(a: &'a Term, b: &'a Term, side: Side) -> &'a Term
    ensures { Some result.now ≡ at_side a.now b.now (Some side) }
{
    match side {
        Side::First => a,
        Side::Second => b,
    }
}

/// The side of an equation that is defined by the other side, where this one is.
fn defined<'a>(a: &'a Term, b: &'a Term, side: Option<Side>) -> Option<&'a Term>
    requires { side ≡ side_between a.now b.now }
    ensures { option_copied result ≡ defined a.now b.now }
{
    match side {
        Some(one) => Some(at_side(a, b, one)),
        None => None,
    }
}

/// The greater side of an equation of maps; of an equation of Bool, where the greater side is a
/// Read or a Call and the other side has no quantifier.
fn greater_side<'a>(sort: Option<Sort>, a: &'a Term, b: &'a Term) -> Option<&'a Term>
    ensures { option_copied result ≡ greater_side sort a.now b.now }
{
    match sort {
        Some(sort) => match &sort.kind {
            SortKind::Int => None,
            SortKind::Bool => {
                if is_application(b) && !has_quantifier(a) {
                    Some(b)
                } else {
                    None
                }
            }
            SortKind::Map(_) => Some(b),
        },
        None => None,
    }
}

/// The left side of an equation, of which this side is defined by the other.
fn equation_left<'a>(
    alloc: Global,
    vars: &[Sort],
    defs: &[Def],
    a: &'a Term,
    b: &'a Term,
    side: Option<Side>,
) -> Result<Option<&'a Term>, AllocError>
    requires { side ≡ side_between a.now b.now }
    ensures { IfOk result (λ l. option_copied l ≡ equation_left vars.now defs.now a.now b.now) }
{
    if b.is_zero() {
        return Ok(linear_left(a));
    }
    match defined(a, b, side) {
        Some(variable) => Ok(Some(variable)),
        None => Ok(greater_side(a.sort_over(alloc, vars, defs, &[])?, a, b)),
    }
}

/// The left side of a fact that defines this side, by what the fact says that it is equal to. None
/// exactly where the fact isn't oriented.
fn left_side_by<'a>(
    alloc: Global,
    vars: &[Sort],
    defs: &[Def],
    fact: &'a Term,
    side: Option<Side>,
) -> Result<Option<&'a Term>, AllocError>
    requires { side ≡ defined_side fact.now }
    ensures { IfOk result (λ l. option_copied l ≡ left_side vars.now defs.now fact.now) }
{
    match &fact.node {
        Node::Eq(a, b) => equation_left(alloc, vars, defs, a, b, side),
        Node::Free(_) => Ok(Some(fact)),
        Node::Not(t) => {
            if is_variable(t) {
                Ok(Some(t))
            } else {
                Ok(None)
            }
        }
        _ => Ok(None),
    }
}

/// The left side of the fact, by what it says that it is equal to. None exactly where the fact
/// isn't oriented.
pub fn left_side<'a>(
    alloc: Global,
    vars: &[Sort],
    defs: &[Def],
    fact: &'a Fact,
) -> Result<Option<&'a Term>, AllocError>
    ensures { IfOk result (λ l. option_copied l ≡ left_side vars.now defs.now fact.now.term) }
{
    left_side_by(alloc, vars, defs, fact.term(), fact.side())
}
