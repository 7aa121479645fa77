// Why no proof is read.
ghost use Rattle.std.specs.Prelude.{◌≡◌};

use std::alloc::{AllocError, AllocFailed};

/// Why no proof is read.
#[derive(Clone, Copy, PartialEq, Eq, Debug, Drop)]
pub enum ProofFault {
    /// The bytes are no proof's text: this many are the longest front with which some proof's text
    /// begins.
    BadProof { at: u32 },
    /// There was no memory.
    Memory,
}

impl From<AllocError> for ProofFault {
    ghost use Rattle.proof_text.specs.declared.fault.ProofFault.TheVariants.{Memory};

    ghost from_gives = { λ _ e. e ≡ Memory };

    fn from(_: AllocError) -> ProofFault {
        ProofFault::Memory
    }
}

impl<T: Drop> From<AllocFailed<T>> for ProofFault {
    ghost use Rattle.proof_text.specs.declared.fault.ProofFault.TheVariants.{Memory};

    ghost from_gives = { λ _ e. e ≡ Memory };

    fn from(_: AllocFailed<T>) -> ProofFault {
        ProofFault::Memory
    }
}
