// Why a text has no tokens.
ghost use Rattle.std.specs.Prelude.{◌≡◌};

use std::alloc::AllocFailed;
use thiserror::Error;

/// Why a text has no tokens.
#[derive(Clone, Copy, PartialEq, Eq, Debug, Drop, Error)]
pub enum LexFault {
    /// Memory ran out.
    #[error("out of memory")]
    Memory,
    /// No blank, comment or token begins at this byte of the text, counted from 0, and one begins
    /// or goes on at each byte before it. A comment or a string without an end does not begin.
    #[error("no token begins at byte {at}")]
    Lex { at: u32 },
}

impl<T: Drop> From<AllocFailed<T>> for LexFault {
    ghost use Rattle.bpl_lex.specs.declared.faults.LexFault.TheVariants.{Memory};

    ghost from_gives = { λ _ e. e ≡ Memory };

    fn from(_: AllocFailed<T>) -> LexFault {
        LexFault::Memory
    }
}
