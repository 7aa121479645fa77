// Why a program stands for no module.
ghost use Rattle.std.specs.Prelude.{◌≡◌};

use crate::type_fault::TypeFault;
use std::alloc::AllocError;
use thiserror::Error;

/// Why a program stands for no module.
#[derive(Clone, Copy, PartialEq, Eq, Debug, Drop, Error)]
pub enum ResolveFault {
    /// The first fault by declaration, then place, then number of its kind.
    #[error("the program has a fault by its names or sorts")]
    Fault(TypeFault),
    /// Memory ran out.
    #[error("out of memory")]
    Memory,
}

impl From<AllocError> for ResolveFault {
    ghost use Rattle.bpl_resolve.specs.declared.fault.ResolveFault.TheVariants.{Memory};

    ghost from_gives = { λ _ e. e ≡ Memory };

    fn from(_: AllocError) -> ResolveFault {
        ResolveFault::Memory
    }
}
