// Why a normal form can't be given.
ghost use Rattle.std.specs.Prelude.{◌≡◌};

use std::alloc::{AllocError, AllocFailed};

/// Why a computation on terms gives no result.
#[derive(Clone, Copy, PartialEq, Eq, Debug, Drop)]
pub enum NormalFault {
    /// There was no memory.
    Memory,
    /// A coefficient or a constant left 128 bits.
    Wide,
}

impl From<AllocError> for NormalFault {
    ghost use Rattle.logic_core.specs.declared.fault.NormalFault.TheVariants.{Memory};

    ghost from_gives = { λ _ e. e ≡ Memory };

    fn from(_: AllocError) -> NormalFault {
        NormalFault::Memory
    }
}

impl<T: Drop> From<AllocFailed<T>> for NormalFault {
    ghost use Rattle.logic_core.specs.declared.fault.NormalFault.TheVariants.{Memory};

    ghost from_gives = { λ _ e. e ≡ Memory };

    fn from(_: AllocFailed<T>) -> NormalFault {
        NormalFault::Memory
    }
}
