// Linear facts by number: their sums, and the facts of sums.
ghost use Rattle.std.specs.Prelude.{◌≡◌, ◌<◌, ℕ, ℤ, length, option_map, IfOk, IfSome};
ghost use Rattle.logic_core.specs.Combine.{linear_of, sum_of, lead, at_least_zero};
ghost use Rattle.term_bank.specs.Numbered.{at, Begins};
ghost use Rattle.numbered_terms.specs.At.{IsAt};
ghost use Rattle.numbered_terms.specs.Lists.{AtomsBelow};
ghost use Rattle.numbered_terms.specs.Stored.{Grows};
ghost use Rattle.numbered_forms.specs.Sums.{sum_at};

use crate::store::Store;
use numbered_forms::arithmetic::zero_at_most;
use numbered_forms::negation::is_zero;
use numbered_forms::sum::NumberedSum;
use numbered_terms::Terms;
use numbered_terms::renumber::copy_atoms;
use std::alloc::AllocError;
use term_bank::{Node, TermId};

/// The side d of a fact Le(0, d) or Eq(d, 0).
pub fn linear_side(terms: &Terms, fact: TermId) -> Option<TermId>
    requires { fact < length terms.now }
    ensures is { option_map (λ d. sum_of (at terms.now d)) result ≡ linear_of (at terms.now fact) }
    ensures within { IfSome result (λ d. d < length terms.now) }
{
    match terms.node(fact) {
        Node::Le(low, high) => {
            if is_zero(terms, *low) {
                return Some(*high);
            }
            None
        }
        Node::Eq(side, zero) => {
            if is_zero(terms, *zero) {
                return Some(*side);
            }
            None
        }
        _ => None,
    }
}

/// A normal term of Int as a sum.
pub fn sum_of(terms: &Terms, id: TermId) -> Result<NumberedSum, AllocError>
    requires { id < length terms.now }
    ensures is { IfOk result (λ s. sum_at terms.now s ≡ sum_of (at terms.now id)) }
    ensures within { IfOk result (λ s. AtomsBelow (length terms.now) s.parts.items) }
{
    match terms.node(id) {
        Node::Num(n) => Ok(NumberedSum::constant(terms.alloc(), *n)),
        Node::Sum(parts, rest) => {
            let rest = *rest;
            let parts = copy_atoms(terms.alloc(), parts)?;
            Ok(NumberedSum { parts, rest })
        }
        _ => {
            let parts = Vec::from_array(terms.alloc(), [(1, id)])?;
            Ok(NumberedSum { parts, rest: 0 })
        }
    }
}

/// The lead of a normal term of Int as a sum: its first part, which has the greatest atom.
pub fn lead(terms: &Terms, id: TermId) -> Option<(i128, TermId)>
    requires { id < length terms.now }
    ensures is { option_map (λ (p : ℤ × ℕ). (p.0, at terms.now p.1)) result ≡ lead (sum_of (at terms.now id)) }
    ensures within { IfSome result (λ p. p.1 < length terms.now) }
{
    match terms.node(id) {
        Node::Num(_) => None,
        Node::Sum(parts, _) => parts.first().copied(),
        _ => Some((1, id)),
    }
}

// The normal fact that a sum is at least zero.
fn at_least_zero(terms: &mut Terms, sum: NumberedSum) -> Result<TermId, AllocError>
    requires { AtomsBelow (length terms.old) sum.parts.items }
    ensures grows { Begins terms.old terms.new }
    ensures gives { IfOk result (λ i. IsAt terms.new i (at_least_zero (sum_at terms.old sum))) }
{
    let side = sum.make(terms)?;
    zero_at_most(terms, side)
}

impl<'a> Store<'a> {
    /// The normal fact that a sum is at least zero.
    pub fn at_least_zero(&mut self, sum: NumberedSum) -> Result<TermId, AllocError>
        requires { AtomsBelow (length self.old.terms) sum.parts.items }
        ensures grows { Grows self.old self.new }
        ensures gives { IfOk result (λ i. IsAt self.new.terms i (at_least_zero (sum_at self.old.terms sum))) }
    {
        at_least_zero(&mut self.terms, sum)
    }
}
