// The proof whose text some bytes are.
ghost use Rattle.std.specs.Prelude.{◌^◌, ◌<◌, length, IfOk, IfErr};
ghost use Rattle.proof_text.specs.Reading.{Spells};
ghost use Rattle.proof_text.specs.Faults.{SaysOf};

use crate::fault::ProofFault;
use crate::state::State;
use proof_core::proof::Proof;
use std::alloc::Global;

/// The proof whose text the bytes are. `BadProof` comes exactly where they are no proof's text, at
/// the end of the longest front with which some proof's text begins.
#[tactic(auto, using(crate::proofs::Reader::stuck_at, crate::proofs::Reader::open_at_end))]
pub fn read(alloc: Global, text: &[u8]) -> Result<Proof, ProofFault>
    requires { length text.now < 2 ^ 32 }
    ensures proof { IfOk result (λ p. Spells text.now p) }
    ensures fault { IfErr result (λ f. SaysOf f text.now) }
{
    let mut state = State::start(alloc);
    for i in 0..text.len() {
        match state.next(alloc, text[i])? {
            Some(next) => state = next,
            None => return Err(ProofFault::BadProof { at: i as u32 }),
        }
    }
    match state.proof() {
        Some(proof) => Ok(proof),
        None => Err(ProofFault::BadProof {
            at: text.len() as u32,
        }),
    }
}
