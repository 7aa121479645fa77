// Sums, products and inequalities of normal terms of integers, by number.
ghost use Rattle.std.specs.Prelude.{◌≡◌, ◌<◌, length, pos, negsuc, IfOk, Some, if◌then◌else◌};
ghost use Rattle.logic_core.specs.Sum.{affine, difference, in_order, product, product_with};
ghost use Rattle.logic_core.specs.Normal.{has_negative_lead, equals_zero, zero_at_most, inequality};
ghost use Rattle.term_bank.specs.Numbered.{at, Begins};
ghost use Rattle.numbered_terms.specs.At.{IsAt, GivesAt};

use crate::order::compare;
use crate::sum::NumberedSum;
use logic_core::NormalFault;
use numbered_terms::Terms;
use std::alloc::AllocError;
use std::cmp::Ordering;
use term_bank::{Node, TermId};

/// k * d + c, for a normal d of sort Int. Wide exactly where a number leaves 128 bits.
pub fn affine(terms: &mut Terms, k: i128, d: TermId, c: i128) -> Result<TermId, NormalFault>
    requires { d < length terms.old }
    ensures grows { Begins terms.old terms.new }
    ensures gives { GivesAt terms.new result (affine k (at terms.old d) c) }
{
    let sum = NumberedSum::constant(terms.alloc(), c).add_term(terms, k, d)?;
    Ok(sum.make(terms)?)
}

/// a - b, for normal terms of sort Int. Wide exactly where a number leaves 128 bits.
pub fn difference(terms: &mut Terms, a: TermId, b: TermId) -> Result<TermId, NormalFault>
    requires a { a < length terms.old }
    requires b { b < length terms.old }
    ensures grows { Begins terms.old terms.new }
    ensures gives { GivesAt terms.new result (difference (at terms.old a) (at terms.old b)) }
{
    let first = NumberedSum::constant(terms.alloc(), 0).add_term(terms, 1, a)?;
    let sum = first.add_term(terms, -1, b)?;
    Ok(sum.make(terms)?)
}

/// The smaller of the two first.
pub fn in_order(terms: &Terms, a: TermId, b: TermId) -> (TermId, TermId)
    requires a { a < length terms.now }
    requires b { b < length terms.now }
    ensures is { (at terms.now result.0, at terms.now result.1) ≡ in_order (at terms.now a) (at terms.now b) }
    ensures first { result.0 < length terms.now }
    ensures second { result.1 < length terms.now }
{
    match compare(terms, b, a) {
        Ordering::Less => (b, a),
        _ => (a, b),
    }
}

// a * b, where a is no Num: a Num b scales a.
fn product_with(terms: &mut Terms, a: TermId, b: TermId) -> Result<TermId, NormalFault>
    requires a { a < length terms.old }
    requires b { b < length terms.old }
    ensures grows { Begins terms.old terms.new }
    ensures gives { GivesAt terms.new result (product_with (at terms.old a) (at terms.old b)) }
{
    match terms.node(b) {
        Node::Num(n) => {
            let n = *n;
            affine(terms, n, a, 0)
        }
        _ => {
            let (first, second) = in_order(terms, a, b);
            Ok(terms.make(Node::Mul(first, second))?)
        }
    }
}

/// a * b, for normal terms of sort Int: a Num scales the other factor, and otherwise the smaller
/// factor stands first. Wide exactly where a number leaves 128 bits.
pub fn product(terms: &mut Terms, a: TermId, b: TermId) -> Result<TermId, NormalFault>
    requires a { a < length terms.old }
    requires b { b < length terms.old }
    ensures grows { Begins terms.old terms.new }
    ensures gives { GivesAt terms.new result (product (at terms.old a) (at terms.old b)) }
{
    match terms.node(a) {
        Node::Num(n) => {
            let n = *n;
            affine(terms, n, b, 0)
        }
        _ => product_with(terms, a, b),
    }
}

// Whether it is a Sum whose first coefficient is negative.
fn has_negative_lead(terms: &Terms, d: TermId) -> bool
    requires { d < length terms.now }
    ensures { result ≡ has_negative_lead (at terms.now d) }
{
    match terms.node(d) {
        Node::Sum(parts, _) => match parts.first() {
            Some(part) => part.0 < 0,
            None => false,
        },
        _ => false,
    }
}

// The sum itself, or its negation where its first coefficient is negative.
fn with_positive_lead(terms: &mut Terms, d: TermId) -> Result<TermId, NormalFault>
    requires { d < length terms.old }
    ensures grows { Begins terms.old terms.new }
    ensures gives { GivesAt terms.new result (if has_negative_lead (at terms.old d) then affine (negsuc 0) (at terms.old d) (pos 0) else Some (at terms.old d)) }
{
    if has_negative_lead(terms, d) {
        return affine(terms, -1, d, 0);
    }
    Ok(d)
}

/// Eq(d, 0), for a normal d of sort Int: of a Num its truth value, and else with a positive lead.
/// Wide exactly where a number leaves 128 bits.
pub fn equals_zero(terms: &mut Terms, d: TermId) -> Result<TermId, NormalFault>
    requires { d < length terms.old }
    ensures grows { Begins terms.old terms.new }
    ensures gives { GivesAt terms.new result (equals_zero (at terms.old d)) }
{
    match terms.node(d) {
        Node::Num(n) => {
            let is_zero = *n == 0;
            Ok(terms.make(Node::Truth(is_zero))?)
        }
        _ => {
            let side = with_positive_lead(terms, d)?;
            let zero = terms.make(Node::Num(0))?;
            Ok(terms.make(Node::Eq(side, zero))?)
        }
    }
}

/// Le(0, d), for a normal d: of a Num its truth value.
pub fn zero_at_most(terms: &mut Terms, d: TermId) -> Result<TermId, AllocError>
    requires { d < length terms.old }
    ensures grows { Begins terms.old terms.new }
    ensures gives { IfOk result (λ i. IsAt terms.new i (zero_at_most (at terms.old d))) }
{
    match terms.node(d) {
        Node::Num(n) => {
            let holds = 0 <= *n;
            terms.make(Node::Truth(holds))
        }
        _ => {
            let zero = terms.make(Node::Num(0))?;
            terms.make(Node::Le(zero, d))
        }
    }
}

/// Le, by the difference of the sides. Wide exactly where a number leaves 128 bits.
pub fn inequality(terms: &mut Terms, a: TermId, b: TermId) -> Result<TermId, NormalFault>
    requires a { a < length terms.old }
    requires b { b < length terms.old }
    ensures grows { Begins terms.old terms.new }
    ensures gives { GivesAt terms.new result (inequality (at terms.old a) (at terms.old b)) }
{
    let difference = difference(terms, b, a)?;
    Ok(zero_at_most(terms, difference)?)
}
