// Tightening of normal facts: where a whole number above 1 divides every coefficient of a sum, the sum
// is divided by it. An inequality's constant is rounded down, since the other summands are multiples
// of it (Gomory, 1958); an equation whose constant it doesn't divide has no solution.
ghost use Rattle.std.specs.Prelude.{◌≡◌, pos, IfOk};
ghost use Rattle.logic_core.specs.Tree.{num, negation, equal, at_most};
ghost use Rattle.logic_core.specs.Tighten.{tight_at_most, tight_equal, tight_not, tighten_not, tighten};

use crate::divisor::{parts_gcd, tight_sum};
use logic_core::term::{Node, Term};
use std::alloc::{AllocError, Global};

// Le(0, d).
fn zero_at_most(alloc: Global, d: Term) -> Result<Term, AllocError>
    ensures { IfOk result (λ t. t ≡ at_most (num (pos 0)) d) }
{
    let zero = Term::new(Node::Num(0));
    Ok(Term::new(Node::Le(Box::new(alloc, zero)?, Box::new(alloc, d)?)))
}

// Eq(d, 0).
fn equals_zero(alloc: Global, d: Term) -> Result<Term, AllocError>
    ensures { IfOk result (λ t. t ≡ equal d (num (pos 0))) }
{
    let zero = Term::new(Node::Num(0));
    Ok(Term::new(Node::Eq(Box::new(alloc, d)?, Box::new(alloc, zero)?)))
}

// Le(0, d), tightened.
fn tight_at_most(alloc: Global, d: &Term) -> Result<Term, AllocError>
    ensures { IfOk result (λ t. t ≡ tight_at_most d.now) }
{
    match &d.node {
        Node::Sum(parts, c) => {
            let g = parts_gcd(parts);
            if g > 1 {
                zero_at_most(alloc, tight_sum(alloc, g, parts, *c)?)
            } else {
                zero_at_most(alloc, d.copy(alloc)?)
            }
        }
        _ => zero_at_most(alloc, d.copy(alloc)?),
    }
}

// Eq(d, 0), tightened.
fn tight_equal(alloc: Global, d: &Term) -> Result<Term, AllocError>
    ensures { IfOk result (λ t. t ≡ tight_equal d.now) }
{
    match &d.node {
        Node::Sum(parts, c) => {
            let g = parts_gcd(parts);
            if g > 1 {
                if c.unsigned_abs() % g == 0 {
                    equals_zero(alloc, tight_sum(alloc, g, parts, *c)?)
                } else {
                    Ok(Term::new(Node::Truth(false)))
                }
            } else {
                equals_zero(alloc, d.copy(alloc)?)
            }
        }
        _ => equals_zero(alloc, d.copy(alloc)?),
    }
}

// The Not of a tightened Eq.
fn tight_not(alloc: Global, t: Term) -> Result<Term, AllocError>
    ensures { IfOk result (λ u. u ≡ tight_not t) }
{
    match t.into_node() {
        Node::Truth(b) => Ok(Term::new(Node::Truth(!b))),
        node => Ok(Term::new(Node::Not(Box::new(alloc, Term::new(node))?))),
    }
}

// The Not of this very term.
fn not(alloc: Global, t: &Term) -> Result<Term, AllocError>
    ensures { IfOk result (λ u. u ≡ negation t.now) }
{
    Ok(Term::new(Node::Not(Box::new(alloc, t.copy(alloc)?)?)))
}

// Not t, tightened where t is Eq(d, 0).
fn tighten_not(alloc: Global, t: &Term) -> Result<Term, AllocError>
    ensures { IfOk result (λ u. u ≡ tighten_not t.now) }
{
    match &t.node {
        Node::Eq(d, zero) => {
            if zero.is_zero() {
                tight_not(alloc, tight_equal(alloc, d)?)
            } else {
                not(alloc, t)
            }
        }
        _ => not(alloc, t),
    }
}

/// A normal fact, tightened by the greatest common divisor g of its coefficients, where that is above
/// 1. `Le(0, d)` has its coefficients divided by g, and its constant divided by g and rounded down.
/// `Eq(d, 0)` is false where g doesn't divide the constant, and is divided otherwise; its Not is true
/// or divided likewise. Every other fact stays.
pub fn tighten(alloc: Global, fact: &Term) -> Result<Term, AllocError>
    ensures { IfOk result (λ t. t ≡ tighten fact.now) }
{
    match &fact.node {
        Node::Le(zero, d) => {
            if zero.is_zero() {
                tight_at_most(alloc, d)
            } else {
                fact.copy(alloc)
            }
        }
        Node::Eq(d, zero) => {
            if zero.is_zero() {
                tight_equal(alloc, d)
            } else {
                fact.copy(alloc)
            }
        }
        Node::Not(t) => tighten_not(alloc, t),
        _ => fact.copy(alloc),
    }
}
