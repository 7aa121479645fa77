// The command line as clap reads it: one simple command, with a positional that must stand and four
// options with a value each, and no flags for help and version.
ghost use Rattle.std.specs.Prelude.{◌≡◌, IfOk, map, false, string_bytes};
ghost use Rattle.clap.specs.Words.{app_of, fault_of, found_of, matches_of, rows_of, rule_of, FailsBy};
ghost use Rattle.clap.specs.declared.builder.command.Command.TheViews.{out-Command as fields_of};
ghost use Rattle.command_words.specs.CommandLine.{bare_command, mode_rule, option_rule, the_command};

use clap::{Arg, ArgAction, ArgMatches, Command, Error};
use std::alloc::{AllocError, Global};

fn mode_arg<'a>(alloc: Global) -> Arg<'a>
    ensures rule { rule_of result ≡ mode_rule }
    ensures local { result.global ≡ false }
{
    Arg::new(alloc, "mode")
        .required(true)
        .action(ArgAction::Set)
}

fn option_arg<'a>(alloc: Global, name: &'a str) -> Arg<'a>
    ensures rule { rule_of result ≡ option_rule name.entry.now }
    ensures local { result.global ≡ false }
{
    Arg::new(alloc, name).long(name).action(ArgAction::Set)
}

fn bare_command<'a>(alloc: Global) -> Command<'a>
    ensures app { app_of result ≡ bare_command }
    ensures local { (fields_of result).has_globals ≡ false }
{
    Command::new(alloc, "bplserve")
        .no_binary_name(true)
        .disable_help_flag(true)
        .disable_version_flag(true)
}

fn the_command<'a>(alloc: Global) -> Result<Command<'a>, AllocError>
    ensures { IfOk result (λ command. app_of command ≡ the_command) }
{
    let command = bare_command(alloc)
        .arg(mode_arg(alloc))?
        .arg(option_arg(alloc, "turns"))?
        .arg(option_arg(alloc, "workers"))?
        .arg(option_arg(alloc, "seed"))?
        .arg(option_arg(alloc, "size"))?;
    Ok(command)
}

/// The matches that the command has for the words.
pub fn matches_for<'a>(alloc: Global, words: &'a [String]) -> Result<ArgMatches<'a>, Error>
    ensures ok { IfOk result (λ m. rows_of (found_of m) ≡ matches_of the_command (map string_bytes words.entry.now)) }
    ensures fails { FailsBy (fault_of the_command (map string_bytes words.entry.now)) result }
{
    let command = the_command(alloc)?;
    command.try_get_matches_from(words)
}
