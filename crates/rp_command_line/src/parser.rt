//! What `clap` is told of the commands.
ghost use Rattle.std.specs.Prelude.{◌≡◌, false, IfOk, map};
ghost use Rattle.clap.specs.Simple.{app_of};
ghost use Rattle.clap.specs.Walk.{rule_of};
ghost use Rattle.clap.specs.declared.builder.command.Command.TheViews.{out-Command};
ghost use Rattle.rp_command_line.specs.Commands.{alone, command_of, program, where_asked, with_rules};
ghost use Rattle.rp_command_line.specs.Commands.{file_rule, json_rule, number_rule, per_rule};
ghost use Rattle.rp_command_line.specs.Named.{named_form, named_number};

use crate::commands::{CommandForm, NumberArgument, UNITS, commands};
use clap::builder::ValueParser;
use clap::{Arg, ArgAction, Command};
use std::alloc::{AllocError, Global};

/// The program with its commands, as `clap` reads its words. No word asks for help: what is not taken is
/// told by the usage.
pub(crate) fn program<'a>(alloc: Global) -> Result<Command<'a>, AllocError>
    ensures { IfOk result (λ command. app_of command ≡ program) }
{
    let mut program = Command::new(alloc, "rp")
        .subcommand_required(true)
        .disable_help_flag(true)
        .disable_help_subcommand(true);
    for command in commands() {
        program = program.subcommand(command_of(alloc, &command.form())?)?;
    }
    Ok(program)
}

/// The command of a form.
fn command_of<'a>(alloc: Global, form: &CommandForm) -> Result<Command<'a>, AllocError>
    ensures shape { IfOk result (λ command. app_of command
        ≡ alone (command_of (named_form form.now))) }
    ensures local { IfOk result (λ command. (out-Command command).has_globals ≡ false) }
{
    let command = Command::new(alloc, form.name);
    let command = with_files(alloc, command, form.files.names())?;
    let command = with_numbers(alloc, command, form.numbers)?;
    let command = with_option(command, per_argument(alloc), form.per)?;
    let command = with_option(command, json_argument(alloc), form.json)?;
    Ok(command)
}

/// The command with an option that it has or has not.
fn with_option<'a>(
    command: Command<'a>,
    option: Arg<'a>,
    has: bool,
) -> Result<Command<'a>, AllocError>
    requires command { (out-Command command).has_globals ≡ false }
    requires option { option.global ≡ false }
    ensures shape { IfOk result (λ more. app_of more
        ≡ with_rules (app_of command.entry) (where_asked has (rule_of option.entry))) }
    ensures local { IfOk result (λ more. (out-Command more).has_globals ≡ false) }
{
    if has {
        let more = command.arg(option)?;
        Ok(more)
    } else {
        Ok(command)
    }
}

/// The command with files.
fn with_files<'a>(
    alloc: Global,
    command: Command<'a>,
    files: &[&'static str],
) -> Result<Command<'a>, AllocError>
    requires { (out-Command command).has_globals ≡ false }
    ensures shape { IfOk result (λ more. app_of more
        ≡ with_rules (app_of command.entry) (map (λ file. file_rule file.now) files.now)) }
    ensures local { IfOk result (λ more. (out-Command more).has_globals ≡ false) }
{
    let mut more = command;
    for file in files {
        more = more.arg(file_argument(alloc, file))?;
    }
    Ok(more)
}

/// The command with numbers.
fn with_numbers<'a>(
    alloc: Global,
    command: Command<'a>,
    numbers: &[NumberArgument],
) -> Result<Command<'a>, AllocError>
    requires { (out-Command command).has_globals ≡ false }
    ensures shape { IfOk result (λ more. app_of more ≡ with_rules (app_of command.entry)
        (map (λ number. number_rule (named_number number)) numbers.now)) }
    ensures local { IfOk result (λ more. (out-Command more).has_globals ≡ false) }
{
    let mut more = command;
    for number in numbers {
        more = more.arg(number_argument(alloc, number))?;
    }
    Ok(more)
}

/// The name of a file, which has to be there.
fn file_argument<'a>(alloc: Global, id: &'static str) -> Arg<'a>
    ensures rule { rule_of result ≡ file_rule id.now }
    ensures local { result.global ≡ false }
{
    Arg::new(alloc, id)
        .value_parser(ValueParser::NonEmptyString)
        .required(true)
}

/// A number in its range, which has to be there.
fn number_argument<'a>(alloc: Global, number: &NumberArgument) -> Arg<'a>
    ensures rule { rule_of result ≡ number_rule (named_number number.now) }
    ensures local { result.global ≡ false }
{
    Arg::new(alloc, number.name)
        .value_parser(ValueParser::Unsigned(number.least, number.most))
        .required(true)
}

/// How many units there are to be on each budget.
fn per_argument<'a>(alloc: Global) -> Arg<'a>
    ensures rule { rule_of result ≡ per_rule }
    ensures local { result.global ≡ false }
{
    Arg::new(alloc, "per")
        .long("per")
        .value_parser(ValueParser::Unsigned(UNITS.least, UNITS.most))
}

/// Whether the answer is to be JSON.
fn json_argument<'a>(alloc: Global) -> Arg<'a>
    ensures rule { rule_of result ≡ json_rule }
    ensures local { result.global ≡ false }
{
    Arg::new(alloc, "json")
        .long("json")
        .action(ArgAction::SetTrue)
}
