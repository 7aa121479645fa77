// Linear facts: the sum that an inequality or an equation of integers compares with zero, and sums of
// multiples of such sums. Where 0 <= d and 0 <= e, also 0 <= p * d + q * e for positive p and q
// (Fourier, 1826; Motzkin, 1936).
ghost use Rattle.std.specs.Prelude.{◌≡◌, IfOk, option_copied};
ghost use Rattle.logic_core.specs.Gives.{Gives};
ghost use Rattle.logic_core.specs.Combine.{sum_of, linear_of, add_multiple, combined, lead, at_least_zero};

use crate::construct::zero_at_most;
use crate::copy::copy_parts;
use crate::fault::NormalFault;
use crate::sum::Linear;
use crate::term::{Node, Term};
use std::alloc::{AllocError, Global};

/// A normal term of Int as a sum.
fn sum_of(alloc: Global, d: &Term) -> Result<Linear, AllocError>
    ensures { IfOk result (λ s. s ≡ sum_of d.now) }
{
    match &d.node {
        Node::Num(n) => Ok(Linear::constant(alloc, *n)),
        Node::Sum(parts, c) => Ok(Linear {
            parts: copy_parts(alloc, parts)?,
            rest: *c,
        }),
        _ => Ok(Linear {
            parts: Vec::from_array(alloc, [(1, d.copy(alloc)?)])?,
            rest: 0,
        }),
    }
}

impl Linear {
    /// The sum d of a fact `Le(0, d)` or `Eq(d, 0)`, None exactly where the fact is neither. For
    /// normal facts: among these only an Eq of integers has 0 as its right side.
    pub fn of(alloc: Global, fact: &Term) -> Result<Option<Linear>, AllocError>
        ensures { IfOk result (λ s. s ≡ linear_of fact.now) }
    {
        match &fact.node {
            Node::Le(zero, d) | Node::Eq(d, zero) => {
                if zero.is_zero() {
                    Ok(Some(sum_of(alloc, d)?))
                } else {
                    Ok(None)
                }
            }
            _ => Ok(None),
        }
    }

    // k times another sum joins this one.
    fn add_multiple(self, alloc: Global, k: i128, a: &Linear) -> Result<Linear, NormalFault>
        ensures { Gives result (add_multiple k a.now self) }
    {
        self.add_sum(k, copy_parts(alloc, &a.parts)?, a.rest)
    }

    /// p * a + q * b. Wide exactly where a product of p or q with a coefficient or a constant, or
    /// the sum of two such products, leaves 128 bits.
    pub fn combine(
        alloc: Global,
        a: &Linear,
        p: i128,
        b: &Linear,
        q: i128,
    ) -> Result<Linear, NormalFault>
        ensures { Gives result (combined a.now p b.now q) }
    {
        let sum = Linear::constant(alloc, 0).add_multiple(alloc, p, a)?;
        sum.add_multiple(alloc, q, b)
    }

    /// The first part, whose atom is the greatest; None where there is no part.
    pub fn lead(&self) -> Option<&(i128, Term)>
        ensures { option_copied result ≡ lead self.now }
    {
        self.parts.first()
    }

    /// The normal fact that the sum is at least zero.
    pub fn at_least_zero(self, alloc: Global) -> Result<Term, AllocError>
        ensures { IfOk result (λ t. t ≡ at_least_zero self) }
    {
        zero_at_most(alloc, self.into_term())
    }
}
