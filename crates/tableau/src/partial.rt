// Proofs under way.
ghost use Rattle.std.specs.Prelude.{◌≡◌, IfOk};

use proof_core::proof::{End, Proof, Step};
use std::alloc::AllocError;

/// A proof under way, of which the first steps are still to come: its steps, the last one first,
/// and its end.
#[derive(Drop)]
pub struct PartialProof {
    pub steps: Vec<Step>,
    pub end: End,
}

impl PartialProof {
    ghost use Rattle.proof_core.specs.View.{steps_of};
    ghost use Rattle.tableau.specs.Search.{begin_with};
    ghost use Rattle.tableau.specs.PartialView.{partial_of};

    /// The proof that begins with these steps.
    pub fn begin_with(self, mut steps: Vec<Step>) -> Result<PartialProof, AllocError>
        ensures { IfOk result (λ p. partial_of p ≡ begin_with (steps_of steps.items) (partial_of self)) }
    {
        let mut partial = self;
        while let Some(step) = steps.pop() {
            partial.steps.push(step)?;
        }
        Ok(partial)
    }

    /// The proof, where all its steps are there.
    pub fn finish(self) -> Proof
        ensures { result ≡ partial_of self }
    {
        let PartialProof { mut steps, end } = self;
        steps.reverse();
        steps.shrink_to_fit();
        Proof { steps, end }
    }
}
