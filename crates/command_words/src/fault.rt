// Why words are no command.
ghost use Rattle.std.specs.Prelude.{◌≡◌, ◌≢◌};
ghost use Rattle.clap.specs.Words.{kind_of};

use clap::Error;
use clap::error::ErrorKind;

/// Why there is no command.
#[derive(Clone, Copy, PartialEq, Eq, Debug, Drop)]
pub enum Usage {
    /// The words have no reading.
    NoReading,
    /// Memory ran out.
    Memory,
}

impl From<Error> for Usage {
    ghost use Rattle.command_words.specs.declared.fault.Usage.TheVariants.{NoReading};
    ghost use Rattle.clap.specs.declared.error.kind.ErrorKind.TheVariants.{OutOfMemory};

    ghost from_gives = { λ error usage. usage ≡ NoReading → kind_of error ≢ OutOfMemory };

    fn from(error: Error) -> Usage {
        if error.kind() == ErrorKind::OutOfMemory {
            Usage::Memory
        } else {
            Usage::NoReading
        }
    }
}
