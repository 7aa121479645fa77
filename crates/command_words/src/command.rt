// The command that the words are.
ghost use Rattle.std.specs.Prelude.{◌≡◌};
ghost use Rattle.command_words.specs.Modes.{mode_named};

/// What the program does.
#[derive(Clone, Copy, PartialEq, Eq, Debug, Drop)]
pub enum Mode {
    /// Read a program and write its report.
    Check,
    /// Answer requests, one on each line.
    Serve,
    /// Read a program and proofs of its goals, and check these.
    Recheck,
    /// Prove a generated program and count the verdicts.
    Gen,
    /// Read a program and name the points that no execution reaches.
    Smoke,
}

impl Mode {
    /// The mode of this name.
    pub fn named(name: &str) -> Option<Mode>
        ensures { result ≡ mode_named name.now }
    {
        match name {
            "check" => Some(Mode::Check),
            "serve" => Some(Mode::Serve),
            "recheck" => Some(Mode::Recheck),
            "gen" => Some(Mode::Gen),
            "smoke" => Some(Mode::Smoke),
            _ => None,
        }
    }
}

/// A command: its mode, and the numbers that go with it.
#[derive(Clone, Copy, PartialEq, Eq, Debug, Drop)]
pub struct Command {
    pub mode: Mode,
    /// The turns that the search for each proof has.
    pub turns: u64,
    /// How many threads prove beside the session's own.
    pub workers: u32,
    /// The number from which a program is generated; 0 where none is.
    pub seed: u32,
    /// How many procedures the generated program has; 0 where there is none.
    pub size: u32,
}
