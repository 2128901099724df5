//! The line that words denote.
ghost use Rattle.std.specs.Prelude.{◌≡◌, ℕ, List, [], ◌∷◌, Ok, Some, None, IfOk, IfErr};
ghost use Rattle.std.specs.Prelude.{IfSome, map, option_map, string_bytes};
ghost use Rattle.clap.specs.Faults.{fault_of};
ghost use Rattle.clap.specs.Values.{kind_of};
ghost use Rattle.clap.specs.Words.{found_of, rows_of, subcommand_rows_of};
ghost use Rattle.clap.specs.declared.error.kind.ErrorKind.TheVariants.{OutOfMemory};
ghost use Rattle.rp_command_line.specs.CommandLine.{Line as Asked};
ghost use Rattle.rp_command_line.specs.Commands.{program};
ghost use Rattle.rp_command_line.specs.Named.{named_line};
ghost use Rattle.rp_command_line.specs.Ranges.{IsSized};
ghost use Rattle.rp_command_line.specs.Shapes.{HasShape, shape_of};
ghost use Rattle.rp_command_line.specs.Words.{command_line, line_named, denoted_line};

use crate::arguments::{Arguments, arguments_in};
use crate::commands::{Command, command_named};
use crate::parser::program;
use clap::error::ErrorKind;
use clap::{ArgMatches, Error};
use rp_num::NoMemory;
use std::alloc::Global;

/// A command with what is given to it, as the words name it.
#[derive(Drop)]
pub struct Line<'a> {
    pub command: Command,
    pub arguments: Arguments<'a>,
}

/// The line that the words denote, or none. The first word is the program's name.
pub fn read_line<'a>(alloc: Global, words: &'a [String]) -> Result<Option<Line<'a>>, NoMemory>
    ensures exact { IfOk result (λ asked.
        option_map named_line asked ≡ denoted_line (map string_bytes words.entry.now)) }
    ensures sized { IfOk result (λ asked. IfSome asked (λ line. IsSized (named_line line))) }
    ensures refused_by_clap { result ≡ Ok None
        → ¬ (fault_of program (map string_bytes words.entry.now) ≡ []) }
    ensures shapes { (line : Asked) (name : List ℕ) → HasShape line
        → map string_bytes words.entry.now ≡ name ∷ shape_of line
        → denoted_line (map string_bytes words.entry.now) ≡ Some line }
{
    let program = program(alloc)?;
    match program.try_get_matches_from(words) {
        Ok(matches) => line_named(alloc, &matches),
        Err(error) => no_line(&error),
    }
}

/// No line for words that `clap` refuses, or want of memory where that is its error.
fn no_line<'a>(error: &Error) -> Result<Option<Line<'a>>, NoMemory>
    ensures none { IfOk result (λ line. (line ≡ None) × ¬ (kind_of error.now ≡ OutOfMemory)) }
    ensures memory { IfErr result (λ _. kind_of error.now ≡ OutOfMemory) }
{
    match error.kind() {
        ErrorKind::OutOfMemory => Err(NoMemory),
        _ => Ok(None),
    }
}

/// The line that the matches name.
fn line_named<'a>(alloc: Global, matches: &ArgMatches<'a>) -> Result<Option<Line<'a>>, NoMemory>
    ensures exact { IfOk result (λ line.
        option_map named_line line ≡ line_named (subcommand_rows_of matches.now)) }
    ensures sized { IfOk result (λ line. IfSome line (λ l. IsSized (named_line l))) }
{
    match matches.subcommand() {
        Some((name, arguments)) => command_line(alloc, name, arguments),
        None => Ok(None),
    }
}

/// The line of a command with its matches.
fn command_line<'a>(
    alloc: Global,
    name: &str,
    matches: &ArgMatches<'a>,
) -> Result<Option<Line<'a>>, NoMemory>
    ensures exact { IfOk result (λ line.
        option_map named_line line ≡ command_line name.now (rows_of (found_of matches.now))) }
    ensures sized { IfOk result (λ line. IfSome line (λ l. IsSized (named_line l))) }
{
    let Some(command) = command_named(name) else {
        return Ok(None);
    };
    let Some(arguments) = arguments_in(alloc, &command.form(), matches)? else {
        return Ok(None);
    };
    Ok(Some(Line { command, arguments }))
}
