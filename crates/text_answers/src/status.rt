//! How a run ended.
ghost use Rattle.std.specs.Prelude.{◌≡◌};
ghost use Rattle.text_answers.specs.Exit.{exit_code};

/// How a run ended.
#[derive(Clone, Copy, PartialEq, Eq, Debug)]
pub enum Status {
    /// All was answered, and every goal is proved or has an accepted proof, or no point is named.
    Done,
    /// All was answered, and some goal isn't, or some point is named.
    NotAll,
    /// The words are no command.
    Usage,
    /// Reading the input failed.
    ReadFault,
    /// Writing the output failed.
    WriteFault,
    /// There was no memory.
    Memory,
    /// The program has a fault.
    Refused,
    /// The input is too long.
    SessionFull,
}

impl Status {
    /// The program's exit status.
    pub fn code(self) -> u8
        ensures { result ≡ exit_code self }
    {
        match self {
            Status::Done => 0,
            Status::NotAll => 1,
            Status::Usage => 2,
            Status::ReadFault => 3,
            Status::WriteFault => 4,
            Status::Memory => 5,
            Status::Refused => 6,
            Status::SessionFull => 7,
        }
    }
}
