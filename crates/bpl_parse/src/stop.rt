// Why reading stops.
ghost use Rattle.std.specs.Prelude.{◌≡◌};

use std::alloc::{AllocError, AllocFailed};

/// Why reading stops. The fault stands at the next token, or at the end of the text where none is
/// left.
#[derive(Clone, Copy, PartialEq, Eq, Debug, Drop)]
pub(crate) enum Stop {
    /// Memory ran out.
    Memory,
    /// Nothing goes on with the token.
    Syntax,
    /// The token lies inside too many nestings.
    Deep,
    /// The number is too large.
    Wide,
}

impl From<AllocError> for Stop {
    ghost use Rattle.bpl_parse.specs.declared.stop.Stop.TheVariants.{Memory};

    ghost from_gives = { λ _ e. e ≡ Memory };

    fn from(_: AllocError) -> Stop {
        Stop::Memory
    }
}

impl<T: Drop> From<AllocFailed<T>> for Stop {
    ghost use Rattle.bpl_parse.specs.declared.stop.Stop.TheVariants.{Memory};

    ghost from_gives = { λ _ e. e ≡ Memory };

    fn from(_: AllocFailed<T>) -> Stop {
        Stop::Memory
    }
}
