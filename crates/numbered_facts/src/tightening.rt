// Tightening of normal facts by number.
ghost use Rattle.std.specs.Prelude.{◌≡◌, ◌<◌, ◌%◌, nat_eq, pos, length, option_map, unsigned_abs, IfOk, IfSome};
ghost use Rattle.logic_core.specs.Tighten.{floor_div, tight_at_most, tight_equal, tight_not, tighten_not, tighten};
ghost use Rattle.logic_core.specs.Tree.{num, negation, equal, at_most};
ghost use Rattle.term_bank.specs.Numbered.{at, Begins};
ghost use Rattle.numbered_terms.specs.At.{IsAt};
ghost use Rattle.numbered_terms.specs.Lists.{AtomsBelow};
ghost use Rattle.numbered_forms.specs.Sums.{sum_at};
ghost use Rattle.numbered_facts.specs.Tightening.{atoms_gcd, divided_atoms, divisor_of, constant_of, quotient_of, equation_side};

use linear_certs::gcd;
use numbered_forms::negation::is_zero;
use numbered_forms::sum::NumberedSum;
use numbered_terms::Terms;
use std::alloc::{AllocError, Global};
use term_bank::{Node, TermId};

// The greatest common divisor of the coefficients, 0 where there are no atoms.
fn atoms_gcd(parts: &[(i128, TermId)]) -> u128
    ensures { result ≡ atoms_gcd parts.now }
{
    let mut divisor = 0;
    let mut left = parts.len();
    while left > 0 {
        left -= 1;
        divisor = gcd(divisor, parts[left].0.unsigned_abs());
    }
    divisor
}

// n / g, rounded down.
fn floor_div(n: i128, g: u128) -> i128
    requires { 0 < g }
    ensures { result ≡ floor_div n g }
{
    if n >= 0 {
        return (n as u128 / g) as i128;
    }
    let below = (-1 - n) as u128;
    -1 - (below / g) as i128
}

// The sum with its coefficients and its constant divided by g.
fn divided(
    alloc: Global,
    g: u128,
    parts: &[(i128, TermId)],
    c: i128,
) -> Result<NumberedSum, AllocError>
    requires { 0 < g }
    ensures parts { IfOk result (λ s. s.parts.items ≡ divided_atoms g parts.now) }
    ensures rest { IfOk result (λ s. s.rest ≡ floor_div c g) }
{
    let mut quotients = Vec::new(alloc);
    for part in parts {
        quotients.push((floor_div(part.0, g), part.1))?;
    }
    Ok(NumberedSum {
        parts: quotients,
        rest: floor_div(c, g),
    })
}

// The greatest common divisor of a Sum's coefficients, and 0 of every other term.
fn divisor_of(terms: &Terms, id: TermId) -> u128
    requires { id < length terms.now }
    ensures { result ≡ divisor_of (at terms.now id) }
{
    match terms.node(id) {
        Node::Sum(parts, _) => atoms_gcd(parts),
        _ => 0,
    }
}

// Whether g divides the constant of a Sum.
fn divides(terms: &Terms, g: u128, id: TermId) -> bool
    requires g { 0 < g }
    requires id { id < length terms.now }
    ensures { result ≡ nat_eq (unsigned_abs (constant_of (at terms.now id)) % g) 0 }
{
    constant_of(terms, id).unsigned_abs() % g == 0
}

// The constant of a Sum, and 0 of every other term.
fn constant_of(terms: &Terms, id: TermId) -> i128
    requires { id < length terms.now }
    ensures { result ≡ constant_of (at terms.now id) }
{
    match terms.node(id) {
        Node::Sum(_, c) => *c,
        _ => 0,
    }
}

// A Sum with its coefficients and its constant divided by g.
fn quotient_of(terms: &Terms, g: u128, id: TermId) -> Result<NumberedSum, AllocError>
    requires g { 0 < g }
    requires id { id < length terms.now }
    ensures is { IfOk result (λ s. sum_at terms.now s ≡ quotient_of g (at terms.now id)) }
    ensures within { IfOk result (λ s. AtomsBelow (length terms.now) s.parts.items) }
{
    match terms.node(id) {
        Node::Sum(parts, c) => divided(terms.alloc(), g, parts, *c),
        _ => Ok(NumberedSum::constant(terms.alloc(), 0)),
    }
}

// Le(0, d).
fn zero_at_most(terms: &mut Terms, d: TermId) -> Result<TermId, AllocError>
    requires { d < length terms.old }
    ensures grows { Begins terms.old terms.new }
    ensures gives { IfOk result (λ i. IsAt terms.new i (at_most (num (pos 0)) (at terms.old d))) }
{
    let zero = terms.make(Node::Num(0))?;
    terms.make(Node::Le(zero, d))
}

// Eq(d, 0).
fn equals_zero(terms: &mut Terms, d: TermId) -> Result<TermId, AllocError>
    requires { d < length terms.old }
    ensures grows { Begins terms.old terms.new }
    ensures gives { IfOk result (λ i. IsAt terms.new i (equal (at terms.old d) (num (pos 0)))) }
{
    let zero = terms.make(Node::Num(0))?;
    terms.make(Node::Eq(d, zero))
}

// Le(0, d), tightened.
fn tight_at_most(terms: &mut Terms, d: TermId) -> Result<TermId, AllocError>
    requires { d < length terms.old }
    ensures grows { Begins terms.old terms.new }
    ensures gives { IfOk result (λ i. IsAt terms.new i (tight_at_most (at terms.old d))) }
{
    let g = divisor_of(terms, d);
    if g > 1 {
        let sum = quotient_of(terms, g, d)?;
        let quotient = sum.make(terms)?;
        return zero_at_most(terms, quotient);
    }
    zero_at_most(terms, d)
}

// Eq(d, 0), tightened.
fn tight_equal(terms: &mut Terms, d: TermId) -> Result<TermId, AllocError>
    requires { d < length terms.old }
    ensures grows { Begins terms.old terms.new }
    ensures gives { IfOk result (λ i. IsAt terms.new i (tight_equal (at terms.old d))) }
{
    let g = divisor_of(terms, d);
    if g > 1 {
        if divides(terms, g, d) {
            let sum = quotient_of(terms, g, d)?;
            let quotient = sum.make(terms)?;
            return equals_zero(terms, quotient);
        }
        return terms.make(Node::Truth(false));
    }
    equals_zero(terms, d)
}

// The Not of a tightened Eq.
fn tight_not(terms: &mut Terms, id: TermId) -> Result<TermId, AllocError>
    requires { id < length terms.old }
    ensures grows { Begins terms.old terms.new }
    ensures gives { IfOk result (λ i. IsAt terms.new i (tight_not (at terms.old id))) }
{
    match terms.node(id) {
        Node::Truth(b) => {
            let flipped = !*b;
            terms.make(Node::Truth(flipped))
        }
        _ => terms.make(Node::Not(id)),
    }
}

// The side d of a fact Eq(d, 0).
fn side_of(terms: &Terms, id: TermId) -> Option<TermId>
    requires { id < length terms.now }
    ensures is { option_map (at terms.now) result ≡ equation_side (at terms.now id) }
    ensures within { IfSome result (λ d. d < length terms.now) }
{
    match terms.node(id) {
        Node::Eq(d, zero) => {
            if is_zero(terms, *zero) {
                return Some(*d);
            }
            None
        }
        _ => None,
    }
}

// Not t, tightened where t is Eq(d, 0).
fn tighten_not(terms: &mut Terms, id: TermId, t: TermId) -> Result<TermId, AllocError>
    requires id { id < length terms.old }
    requires t { t < length terms.old }
    requires is { at terms.old id ≡ negation (at terms.old t) }
    ensures grows { Begins terms.old terms.new }
    ensures gives { IfOk result (λ i. IsAt terms.new i (tighten_not (at terms.old t))) }
{
    match side_of(terms, t) {
        Some(d) => {
            let tight = tight_equal(terms, d)?;
            tight_not(terms, tight)
        }
        None => Ok(id),
    }
}

/// A normal fact, tightened by the greatest common divisor of its coefficients, where that is above 1.
pub(crate) fn tightened(terms: &mut Terms, id: TermId) -> Result<TermId, AllocError>
    requires { id < length terms.old }
    ensures grows { Begins terms.old terms.new }
    ensures gives { IfOk result (λ i. IsAt terms.new i (tighten (at terms.old id))) }
{
    match terms.node(id) {
        Node::Le(zero, d) => {
            let d = *d;
            if is_zero(terms, *zero) {
                return tight_at_most(terms, d);
            }
            Ok(id)
        }
        Node::Eq(d, zero) => {
            let d = *d;
            if is_zero(terms, *zero) {
                return tight_equal(terms, d);
            }
            Ok(id)
        }
        Node::Not(t) => {
            let t = *t;
            tighten_not(terms, id, t)
        }
        _ => Ok(id),
    }
}
