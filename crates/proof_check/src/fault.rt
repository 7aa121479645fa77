// Why a proof is refused, and why a rule gives nothing.
ghost use Rattle.std.specs.Prelude.{◌≡◌, Some};
ghost use Rattle.proof_check.specs.Words.{fault_text};

use logic_core::fault::NormalFault;
use proof_core::rule::Rule;
use std::alloc::{AllocError, AllocFailed};
use std::error::Error;
use std::fmt;

/// Why `check` doesn't accept a proof.
#[derive(Clone, Copy, PartialEq, Eq, Debug)]
pub enum CheckFault {
    /// There was no memory.
    Memory,
    /// The node of this number is the first that its rule refuses. Nodes are numbered in preorder
    /// from 1; the number stays at 2^64 - 1 for nodes beyond.
    Rejected { node: u64, rule: Rule },
}

impl fmt::Display for CheckFault {
    ghost output = { λ e. Some (fault_text e) };

    fn fmt<W: fmt::Write>(&self, f: &mut fmt::Formatter<W>) -> fmt::Result {
        match self {
            CheckFault::Memory => write!(f, "out of memory"),
            CheckFault::Rejected { node, rule } => write!(f, "node {node}: {rule} is refused"),
        }
    }
}

impl Error for CheckFault {}

impl From<AllocError> for CheckFault {
    ghost use Rattle.proof_check.specs.declared.fault.CheckFault.TheVariants.{Memory};

    ghost from_gives = { λ _ e. e ≡ Memory };

    fn from(_: AllocError) -> CheckFault {
        CheckFault::Memory
    }
}

impl<T: Drop> From<AllocFailed<T>> for CheckFault {
    ghost use Rattle.proof_check.specs.declared.fault.CheckFault.TheVariants.{Memory};

    ghost from_gives = { λ _ e. e ≡ Memory };

    fn from(_: AllocFailed<T>) -> CheckFault {
        CheckFault::Memory
    }
}

/// Why a rule gives nothing.
#[derive(Clone, Copy, PartialEq, Eq, Debug)]
pub enum Refusal {
    /// There was no memory.
    Memory,
    /// Its condition isn't met, or its arithmetic leaves 128 bits.
    Unmet,
}

impl From<AllocError> for Refusal {
    ghost use Rattle.proof_check.specs.declared.fault.Refusal.TheVariants.{Memory};

    ghost from_gives = { λ _ e. e ≡ Memory };

    fn from(_: AllocError) -> Refusal {
        Refusal::Memory
    }
}

impl<T: Drop> From<AllocFailed<T>> for Refusal {
    ghost use Rattle.proof_check.specs.declared.fault.Refusal.TheVariants.{Memory};

    ghost from_gives = { λ _ e. e ≡ Memory };

    fn from(_: AllocFailed<T>) -> Refusal {
        Refusal::Memory
    }
}

impl From<NormalFault> for Refusal {
    ghost use Rattle.proof_check.specs.Refusals.{refusal_of};

    ghost from_gives = { λ fault e. e ≡ refusal_of fault };

    fn from(fault: NormalFault) -> Refusal {
        match fault {
            NormalFault::Memory => Refusal::Memory,
            NormalFault::Wide => Refusal::Unmet,
        }
    }
}
