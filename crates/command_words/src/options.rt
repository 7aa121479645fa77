// What each mode does with each option.
ghost use Rattle.std.specs.Prelude.{◌≡◌, option_map};
ghost use Rattle.command_words.specs.Options.{use_of_turns, use_of_workers, use_of_draws, given_number};

use crate::command::Mode;
use crate::number::number_between;

/// The turns that a search has where none are given.
pub const USUAL_TURNS: u32 = 20_000;

/// The most turns.
pub const MOST_TURNS: u32 = 1_000_000;

/// The most workers.
pub const MOST_WORKERS: u32 = 64;

/// The last seed.
pub const LAST_SEED: u32 = 2_147_483_647;

/// The size of the largest program that is generated.
pub const MOST_SIZE: u32 = 5_000;

/// What a mode does with an option.
#[derive(Clone, Copy, Drop)]
pub enum Use {
    NotTaken,
    Taken,
    Needed,
}

/// What the mode does with the number of turns.
pub fn use_of_turns(mode: Mode) -> Use
    ensures { result ≡ use_of_turns mode }
{
    match mode {
        Mode::Check | Mode::Serve | Mode::Gen | Mode::Smoke => Use::Taken,
        Mode::Recheck => Use::NotTaken,
    }
}

/// What the mode does with the number of workers.
pub fn use_of_workers(mode: Mode) -> Use
    ensures { result ≡ use_of_workers mode }
{
    match mode {
        Mode::Serve | Mode::Gen => Use::Taken,
        Mode::Check | Mode::Recheck | Mode::Smoke => Use::NotTaken,
    }
}

/// What the mode does with the seed and the size of a generated program.
pub fn use_of_draws(mode: Mode) -> Use
    ensures { result ≡ use_of_draws mode }
{
    match mode {
        Mode::Gen => Use::Needed,
        Mode::Check | Mode::Serve | Mode::Recheck | Mode::Smoke => Use::NotTaken,
    }
}

/// An option's number: the one given, within its bounds, or the one that it has where it may be
/// left out.
pub fn given_number(
    given: Option<&str>,
    option_use: Use,
    default: u32,
    least: u32,
    most: u32,
) -> Option<u32>
    ensures { result ≡ given_number option_use default least most (option_map (λ s. s.now) given.entry) }
{
    match (option_use, given) {
        (Use::NotTaken | Use::Taken, None) => Some(default),
        (Use::Taken | Use::Needed, Some(text)) => number_between(text.as_bytes(), least, most),
        (Use::NotTaken, Some(_)) | (Use::Needed, None) => None,
    }
}
