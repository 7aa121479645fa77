// Why goals aren't built.
use std::alloc::{AllocError, AllocFailed};
use thiserror::Error;

/// The most goals of a program.
pub const COUNT_LIMIT: u64 = 65_536;

/// The most bytes of the texts of a program's obligations.
pub const BYTE_LIMIT: u64 = 67_108_864;

/// What of a program's goals has a limit.
#[derive(Clone, Copy, PartialEq, Eq, Debug)]
pub enum Measure {
    /// Their number, of which there are 65,536 at most.
    Count,
    /// The bytes of their obligations' texts, of which there are 67,108,864 at most.
    Bytes,
}

/// Why goals aren't built.
#[derive(Debug, Drop, Error)]
pub enum BuildFault {
    /// A limit is exceeded.
    #[error("the program has too many goals, or these too long texts: {number}")]
    Large {
        /// Which one.
        what: Measure,
        /// The number there, at the first goal that exceeds it.
        number: u64,
    },
    /// There is no memory for them.
    #[error("out of memory")]
    Memory,
}

impl From<AllocError> for BuildFault {
    ghost use Rattle.std.specs.Prelude.{◌≡◌};
    ghost use Rattle.vc_build.specs.declared.fault.BuildFault.TheVariants.{Memory};

    ghost from_gives = { λ _ e. e ≡ Memory };

    fn from(_error: AllocError) -> BuildFault {
        BuildFault::Memory
    }
}

impl<T: Drop> From<AllocFailed<T>> for BuildFault {
    ghost use Rattle.std.specs.Prelude.{◌≡◌};
    ghost use Rattle.vc_build.specs.declared.fault.BuildFault.TheVariants.{Memory};

    ghost from_gives = { λ _ e. e ≡ Memory };

    fn from(_error: AllocFailed<T>) -> BuildFault {
        BuildFault::Memory
    }
}
