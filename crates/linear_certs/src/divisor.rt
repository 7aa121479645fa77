// The greatest common divisor of a sum's coefficients, and division that rounds down.
ghost use Rattle.std.specs.Prelude.{◌≡◌, ◌<◌, IfOk};
ghost use Rattle.logic_core.specs.View.{parts_of};
ghost use Rattle.logic_core.specs.Tighten.{gcd, parts_gcd, floor_div, divided, tight_sum};

use logic_core::sum::Linear;
use logic_core::term::Term;
use std::alloc::{AllocError, Global};

/// The greatest common divisor, by Euclid's algorithm; beside 0 it is the other number.
pub fn gcd(a: u128, b: u128) -> u128
    ensures { result ≡ gcd a b }
{
    let mut divisor = a;
    let mut rest = b;
    while rest != 0 {
        let next = divisor % rest;
        divisor = rest;
        rest = next;
    }
    divisor
}

/// The greatest common divisor of the coefficients, 0 where there are no parts.
pub(crate) fn parts_gcd(parts: &[(i128, Term)]) -> u128
    ensures { result ≡ parts_gcd (parts_of parts.now) }
{
    let mut divisor = 0;
    let mut left = parts.len();
    while left > 0 {
        left -= 1;
        divisor = gcd(divisor, parts[left].0.unsigned_abs());
    }
    divisor
}

// n / g, rounded down.
fn floor_div(n: i128, g: u128) -> i128
    requires { 0 < g }
    ensures { result ≡ floor_div n g }
{
    if n >= 0 {
        return (n as u128 / g) as i128;
    }
    let below = (-1 - n) as u128;
    -1 - (below / g) as i128
}

// The parts with their coefficients divided by g.
fn divided(alloc: Global, g: u128, parts: &[(i128, Term)]) -> Result<Vec<(i128, Term)>, AllocError>
    requires { 0 < g }
    ensures { IfOk result (λ v. parts_of v.items ≡ divided g (parts_of parts.now)) }
{
    let mut quotients = Vec::new(alloc);
    for part in parts {
        quotients.push((floor_div(part.0, g), part.1.copy(alloc)?))?;
    }
    Ok(quotients)
}

/// The sum with its coefficients and its constant divided by g, which is above 0. What the constant
/// leaves over drops.
pub(crate) fn tight_sum(
    alloc: Global,
    g: u128,
    parts: &[(i128, Term)],
    c: i128,
) -> Result<Term, AllocError>
    requires { 0 < g }
    ensures { IfOk result (λ t. t ≡ tight_sum g (parts_of parts.now) c) }
{
    let parts = divided(alloc, g, parts)?;
    let rest = floor_div(c, g);
    Ok(Linear { parts, rest }.into_term())
}
