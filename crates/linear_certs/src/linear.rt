// Linear facts over sums whose parts fall strictly.
ghost use Rattle.std.specs.Prelude.{◌≡◌, IfOk, option_copied};
ghost use Rattle.logic_core.specs.View.{parts_of};
ghost use Rattle.logic_core.specs.Gives.{Gives};
ghost use Rattle.logic_core.specs.Combine.{linear_of, combined, lead, at_least_zero};
ghost use Rattle.linear_certs.specs.FallingLaws.{FallStrictly, EachSumFalls};

use logic_core::fault::NormalFault;
use logic_core::sum::Linear as Sum;
use logic_core::term::Term;
use std::alloc::{AllocError, Global};
use std::marker::Model;

/// A sum of integers: atoms with their coefficients, and a constant. No coefficient is zero, and each
/// atom is greater than the next.
#[derive(Drop)]
pub struct Linear {
    sum: Sum,
}

impl Model for Linear {
    ghost use Rattle.logic_core.specs.Sum.{Linear as linear_form};
    ghost use Rattle.logic_core.specs.SumCodes.{coded_linear};

    ghost Value = { linear_form };

    ghost coded = { coded_linear };

    ghost use Rattle.linear_certs.specs.FallingLaws.{FallStrictly};

    ghost view = { λ a. a.sum };

    ghost invariant = { λ a. FallStrictly a.sum.parts };
}

impl Linear {
    /// The sum d of a fact `Le(0, d)` or `Eq(d, 0)`, None exactly where the fact is neither. In the
    /// fact each sum's parts fall, as they do in a normal form; among normal forms only an Eq of
    /// integers has 0 as its right side.
    pub fn of(alloc: Global, fact: &Term) -> Result<Option<Linear>, AllocError>
        requires { EachSumFalls fact.now }
        ensures { IfOk result (λ s. s ≡ linear_of fact.now) }
    {
        match Sum::of(alloc, fact)? {
            Some(sum) => Ok(Some(Linear { sum })),
            None => Ok(None),
        }
    }

    /// p * a + q * b. Wide exactly where a product of p or q with a coefficient or a constant, or
    /// the sum of two such products, leaves 128 bits.
    pub fn combine(
        alloc: Global,
        a: &Linear,
        p: i128,
        b: &Linear,
        q: i128,
    ) -> Result<Linear, NormalFault>
        ensures { Gives result (combined a.now p b.now q) }
    {
        let sum = Sum::combine(alloc, &a.sum, p, &b.sum, q)?;
        Ok(Linear { sum })
    }

    /// The atoms with their coefficients, in strictly falling order.
    pub fn parts(&self) -> &[(i128, Term)]
        ensures parts { parts_of result.now ≡ self.now.parts }
        ensures fall { FallStrictly self.now.parts }
    {
        &self.sum.parts
    }

    /// The constant.
    pub fn rest(&self) -> i128
        ensures { result ≡ self.now.rest }
    {
        self.sum.rest
    }

    /// The first part, whose atom is the greatest; None where there is no part.
    pub fn lead(&self) -> Option<&(i128, Term)>
        ensures { option_copied result ≡ lead self.now }
    {
        self.sum.lead()
    }

    /// The normal fact that the sum is at least zero.
    pub fn at_least_zero(self, alloc: Global) -> Result<Term, AllocError>
        ensures { IfOk result (λ t. t ≡ at_least_zero self) }
    {
        self.sum.at_least_zero(alloc)
    }
}
