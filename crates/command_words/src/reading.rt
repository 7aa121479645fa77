// What words are read as.
ghost use Rattle.std.specs.Prelude.{◌≡◌, IfOk, IfErr, Some, None, map, option_map, string_bytes};
ghost use Rattle.clap.specs.Words.{found_of, first_of, rows_of};
ghost use Rattle.command_words.specs.Reading.{of_rows, reading};

use crate::command::{Command, Mode};
use crate::command_line::matches_for;
use crate::fault::Usage;
use crate::options::{
    LAST_SEED, MOST_SIZE, MOST_TURNS, MOST_WORKERS, USUAL_TURNS, given_number, use_of_draws,
    use_of_turns, use_of_workers,
};
use clap::ArgMatches;
use std::alloc::Global;

/// The value that matches have for a name.
fn value<'a>(matches: &ArgMatches<'a>, name: &str) -> Option<&'a str>
    ensures { option_map (λ text. text.now) result ≡ first_of name.now (rows_of (found_of matches.now)) }
{
    matches.get_str(name)
}

/// The command that matches are.
fn command_of(matches: &ArgMatches<'_>) -> Option<Command>
    ensures { result ≡ of_rows (rows_of (found_of matches.now)) }
{
    let mode = Mode::named(value(matches, "mode")?)?;
    let turns = given_number(
        value(matches, "turns"),
        use_of_turns(mode),
        USUAL_TURNS,
        1,
        MOST_TURNS,
    )?;
    let workers = given_number(
        value(matches, "workers"),
        use_of_workers(mode),
        0,
        0,
        MOST_WORKERS,
    )?;
    let draws = use_of_draws(mode);
    let seed = given_number(value(matches, "seed"), draws, 0, 0, LAST_SEED)?;
    let size = given_number(value(matches, "size"), draws, 0, 0, MOST_SIZE)?;
    Some(Command {
        mode,
        turns: u64::from(turns),
        workers,
        seed,
        size,
    })
}

/// The command that the words after the program's name are. `NoReading` comes only where they are
/// none; where they are one, `Memory` alone may come in its place.
pub fn read_words(alloc: Global, words: &[String]) -> Result<Command, Usage>
    ensures read { IfOk result (λ command. reading (map string_bytes words.now) ≡ Some command) }
    ensures refused { IfErr result (λ usage. usage ≡ Usage.NoReading
        → reading (map string_bytes words.now) ≡ None) }
{
    let matches = matches_for(alloc, words)?;
    command_of(&matches).ok_or(Usage::NoReading)
}
