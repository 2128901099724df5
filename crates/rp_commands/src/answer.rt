//! The answer to a line over its files, by its command.
ghost use Rattle.std.specs.Prelude.{◌≡◌, [], IfOk};
ghost use Rattle.rp_answers.specs.PowerText.{IsPowerText};
ghost use Rattle.rp_answers.specs.TrialText.{IsTrialTextBy};
ghost use Rattle.rp_commands.specs.Answers.{AnswersLineBy};
ghost use Rattle.rp_commands.specs.InnerLoadings.{LoadsLine};
ghost use Rattle.rp_command_line.specs.CommandLine.{number};
ghost use Rattle.rp_command_line.specs.declared.commands.Command.TheVariants as commands;
ghost use Rattle.rp_command_line.specs.Named.{named_arguments, named_line};
ghost use Rattle.rp_command_line.specs.Ranges.{IsSized};

use crate::by_command::{
    answer_check, answer_check_random, answer_cost, answer_demand, answer_menus, answer_patches,
    answer_random, answer_utility, answer_welfare, done,
};
use crate::contents::load_table;
use crate::files::Cause;
use rp_answers::{Answer, Edition, analysis_text, pairs_text, power_text, pump_text, trial_text};
use rp_command_line::{Command, Line};
use rp_limits::command_line::MOST_DRAWS;
use rp_num::NoMemory;
use rp_outside::Desk;
use rp_table::Table;
use std::alloc::Global;

/// The answer to a line over its files.
pub(crate) fn answer_line<'a, P: Edition, D: Desk>(
    alloc: Global,
    desk: &mut D,
    line: &Line<'a>,
) -> Result<Answer, Cause<'a>>
    requires { IsSized (named_line line.now) }
    ensures { LoadsLine P.printed.limits D.bytes D.faults D.calls D.asked
        desk.old desk.new (named_line line.now) (λ answer. AnswersLineBy P.printed
        (D.bytes desk.old) (named_line line.now) answer.status answer.text.items) result }
{
    match line.command {
        Command::Pairs => done(pairs_text(alloc, &load_table::<P, D>(alloc, desk, line)?)),
        Command::Analyse => done(analysis_text::<P>(
            alloc,
            &load_table::<P, D>(alloc, desk, line)?,
            false,
        )),
        Command::Certify => done(analysis_text::<P>(
            alloc,
            &load_table::<P, D>(alloc, desk, line)?,
            true,
        )),
        Command::Check => answer_check::<P, D>(alloc, desk, line),
        Command::Demand => answer_demand::<P, D>(alloc, desk, line),
        Command::Welfare => answer_welfare::<P, D>(alloc, desk, line),
        Command::Utility => answer_utility::<P, D>(alloc, desk, line),
        Command::Random => answer_random::<P, D>(alloc, desk, line),
        Command::CheckRandom => answer_check_random::<P, D>(alloc, desk, line),
        Command::Patches => answer_patches::<P, D>(alloc, desk, line),
        Command::Trial => done(text_of_trial::<P>(alloc, line)),
        Command::Menus => answer_menus::<P, D>(alloc, desk, line),
        Command::Pump => done(pump_text(alloc, &load_table::<P, D>(alloc, desk, line)?)),
        Command::Cost => answer_cost::<P, D>(alloc, desk, line),
        Command::Power => done(text_of_power(alloc, line, &load_table::<P, D>(alloc, desk, line)?)),
    }
}

/// The verdicts on a table of pseudorandom numbers.
fn text_of_trial<P: Edition>(alloc: Global, line: &Line<'_>) -> Result<Vec<u8>, NoMemory>
    requires sized { IsSized (named_line line.now) }
    requires asked { line.now.command ≡ commands.Trial }
    ensures { let given = named_arguments line.now.arguments in IfOk result (λ text.
        IsTrialTextBy P.printed (number given 0) (number given 1) (number given 2) text.items) }
{
    let seed = line.arguments.number(0);
    let rows = line.arguments.number(1);
    let goods = line.arguments.number(2);
    trial_text::<P>(alloc, seed, rows, goods)
}

/// How many random behaviours on a table's budgets fail the axiom.
fn text_of_power(alloc: Global, line: &Line<'_>, table: &Table) -> Result<Vec<u8>, NoMemory>
    requires sized { IsSized (named_line line.now) }
    requires asked { line.now.command ≡ commands.Power }
    requires no_levels { table.now.levels ≡ [] }
    ensures { let given = named_arguments line.now.arguments in IfOk result (λ text.
        IsPowerText table.now (number given 0) (number given 1) text.items) }
{
    let seed = line.arguments.number(0);
    let draws = line.arguments.number(1);
    prove!(draws <= MOST_DRAWS);
    power_text(alloc, table, seed, draws)
}
