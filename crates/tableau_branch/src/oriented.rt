// The side of an equation that is a variable and is defined by the other one.
ghost use Rattle.std.specs.Prelude.{◌≡◌, ◌||◌};
ghost use Rattle.logic_core.specs.Subterm.{has_quantifier, has_any, has_part, is_quantifier};
ghost use Rattle.logic_core.specs.View.{trees_of, parts_of};
ghost use Rattle.tableau_branch.specs.Sides.{side_between, defined_side};
ghost use Rattle.tableau_branch.specs.Oriented.{is_variable, defines};

use logic_core::term::{Node, Term};

/// A side of an equation.
#[derive(Clone, Copy)]
pub enum Side {
    /// The left one.
    First,
    /// The right one.
    Second,
}

/// Whether the term is a free variable.
pub fn is_variable(term: &Term) -> bool
    ensures { result ≡ is_variable term.now }
{
    match &term.node {
        Node::Free(_) => true,
        _ => false,
    }
}

/// Whether a quantifier stands in the term.
#[cycle(has_quantifier)]
pub fn has_quantifier(term: &Term) -> bool
    ensures { result ≡ has_quantifier term.now }
{
    match &term.node {
        Node::Num(_) | Node::Truth(_) | Node::Free(_) | Node::Bound(_) => false,
        Node::ForAll(_, _, _) | Node::Exists(_, _, _) => true,
        Node::Sum(parts, _) => has_quantifier_in_parts(parts),
        Node::Mul(a, b) | Node::Read(a, b) | Node::Eq(a, b) | Node::Le(a, b) => {
            has_quantifier(a) || has_quantifier(b)
        }
        Node::Write(a, b, c) | Node::If(a, b, c) => {
            has_quantifier(a) || has_quantifier(b) || has_quantifier(c)
        }
        Node::Not(a) => has_quantifier(a),
        Node::Call(_, terms) | Node::And(terms) | Node::Or(terms) => has_quantifier_in_terms(terms),
    }
}

#[cycle(has_quantifier)]
fn has_quantifier_in_terms(terms: &[Term]) -> bool
    ensures { result ≡ has_any is_quantifier (trees_of terms.now) }
{
    for term in terms {
        if has_quantifier(term) {
            return true;
        }
    }
    false
}

#[cycle(has_quantifier)]
fn has_quantifier_in_parts(parts: &[(i128, Term)]) -> bool
    ensures { result ≡ has_part is_quantifier (parts_of parts.now) }
{
    for part in parts {
        if has_quantifier(&part.1) {
            return true;
        }
    }
    false
}

/// Whether the first term is a variable that doesn't occur in the second, which has no
/// quantifier.
fn defines(variable: &Term, term: &Term) -> bool
    ensures { result ≡ defines variable.now term.now }
{
    is_variable(variable) && !variable.occurs_in(term) && !has_quantifier(term)
}

/// The side of an equation that is a variable and is defined by the other side.
fn side_between(a: &Term, b: &Term) -> Option<Side>
    ensures { result ≡ side_between a.now b.now }
{
    if defines(b, a) {
        Some(Side::Second)
    } else if defines(a, b) {
        Some(Side::First)
    } else {
        None
    }
}

/// The side that a fact defines, where it is an equation.
pub fn defined_side(fact: &Term) -> Option<Side>
    ensures { result ≡ defined_side fact.now }
{
    match &fact.node {
        Node::Eq(a, b) => side_between(a, b),
        _ => None,
    }
}
