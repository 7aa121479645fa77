// Why a text is no program.
ghost use Rattle.std.specs.Prelude.{◌≡◌};

use bpl_lex::LexFault;
use std::alloc::{AllocError, AllocFailed};
use thiserror::Error;

/// Why a text is no program, and the byte at which that shows, counted from 0. The first token
/// with a fault counts; at one token `Syntax` comes before `Deep`, and `Deep` before `Wide`.
#[derive(Clone, Copy, PartialEq, Eq, Debug, Drop, Error)]
pub enum Fault {
    /// No blank, comment or token begins here.
    #[error("no token begins at byte {at}")]
    Lex { at: u32 },
    /// No program begins with the tokens up to and with this one; or all tokens begin a program
    /// and spell none, and this is just behind the last.
    #[error("no program goes on with what stands at byte {at}")]
    Syntax { at: u32 },
    /// This token lies inside more than 200 nestings.
    #[error("byte {at} lies inside more than 200 nestings")]
    Deep { at: u32 },
    /// This number is 2^127 or more.
    #[error("the number at byte {at} is too large")]
    Wide { at: u32 },
    /// Memory ran out.
    #[error("out of memory")]
    Memory,
}

impl Fault {
    ghost use Rattle.bpl_parse.specs.FaultView.{byte_of, name_of};

    /// The byte at which it shows; none where memory ran out.
    pub fn at(self) -> Option<u32>
        ensures { result ≡ byte_of self }
    {
        match self {
            Fault::Lex { at } | Fault::Syntax { at } | Fault::Deep { at } | Fault::Wide { at } => {
                Some(at)
            }
            Fault::Memory => None,
        }
    }

    /// The name of its kind.
    pub fn name(self) -> &'static str
        ensures { result.now ≡ name_of self }
    {
        match self {
            Fault::Lex { .. } => "Lex",
            Fault::Syntax { .. } => "Syntax",
            Fault::Deep { .. } => "Deep",
            Fault::Wide { .. } => "Wide",
            Fault::Memory => "Memory",
        }
    }
}

impl From<AllocError> for Fault {
    ghost use Rattle.bpl_parse.specs.declared.fault.Fault.TheVariants.{Memory};

    ghost from_gives = { λ _ e. e ≡ Memory };

    fn from(_: AllocError) -> Fault {
        Fault::Memory
    }
}

impl<T: Drop> From<AllocFailed<T>> for Fault {
    ghost use Rattle.bpl_parse.specs.declared.fault.Fault.TheVariants.{Memory};

    ghost from_gives = { λ _ e. e ≡ Memory };

    fn from(_: AllocFailed<T>) -> Fault {
        Fault::Memory
    }
}

impl From<LexFault> for Fault {
    ghost use Rattle.bpl_parse.specs.Program.{of_lexer};

    ghost from_gives = { λ fault e. e ≡ of_lexer fault };

    fn from(fault: LexFault) -> Fault {
        match fault {
            LexFault::Memory => Fault::Memory,
            LexFault::Lex { at } => Fault::Lex { at },
        }
    }
}
