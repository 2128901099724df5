//! The answer of each command that reads more than a table.
ghost use Rattle.std.specs.Prelude.{◌≡◌, MatchResult, Ok};
ghost use Rattle.rp_commands.specs.Answers.{AnswersLineBy};
ghost use Rattle.rp_commands.specs.InnerLoadings.{LoadsLine};
ghost use Rattle.rp_command_line.specs.declared.commands.Command.TheVariants as commands;
ghost use Rattle.rp_command_line.specs.Named.{named_line};
ghost use Rattle.rp_command_line.specs.Ranges.{IsSized};

use crate::contents::{
    load_menus_with_units, load_patches, load_patches_certificate, load_table_bundles,
    load_table_certificate, load_table_prices, load_table_prices_with_expenditure,
    load_technology_asked,
};
use crate::files::Cause;
use rp_answers::{
    Answer, Edition, Status, check_answer, check_random_answer, cost_text, demand_text, menus_text,
    patches_text, random_text, utility_text, welfare_text,
};
use rp_command_line::Line;
use rp_generated::SEARCH_STEPS;
use rp_num::NoMemory;
use rp_outside::Desk;
use std::alloc::Global;

/// The answer of `Check`: the check of a certificate on a table.
pub(crate) fn answer_check<'a, P: Edition, D: Desk>(
    alloc: Global,
    desk: &mut D,
    line: &Line<'a>,
) -> Result<Answer, Cause<'a>>
    requires sized { IsSized (named_line line.now) }
    requires asked { line.now.command ≡ commands.Check }
    ensures { LoadsLine P.printed.limits D.bytes D.faults D.calls D.asked
        desk.old desk.new (named_line line.now) (λ answer. AnswersLineBy P.printed
        (D.bytes desk.old) (named_line line.now) answer.status answer.text.items) result }
{
    let (table, certificate) = load_table_certificate::<P, D>(alloc, desk, line)?;
    whole(check_answer(alloc, &table, &certificate))
}

/// The answer of `Demand`: bounds on demand at new prices.
pub(crate) fn answer_demand<'a, P: Edition, D: Desk>(
    alloc: Global,
    desk: &mut D,
    line: &Line<'a>,
) -> Result<Answer, Cause<'a>>
    requires sized { IsSized (named_line line.now) }
    requires asked { line.now.command ≡ commands.Demand }
    ensures { LoadsLine P.printed.limits D.bytes D.faults D.calls D.asked
        desk.old desk.new (named_line line.now) (λ answer. AnswersLineBy P.printed
        (D.bytes desk.old) (named_line line.now) answer.status answer.text.items) result }
{
    let (table, new) = load_table_prices_with_expenditure::<P, D>(alloc, desk, line)?;
    done(demand_text::<P>(alloc, &table, &new, line.arguments.json))
}

/// The answer of `Welfare`: bounds on the money metric at new prices.
pub(crate) fn answer_welfare<'a, P: Edition, D: Desk>(
    alloc: Global,
    desk: &mut D,
    line: &Line<'a>,
) -> Result<Answer, Cause<'a>>
    requires sized { IsSized (named_line line.now) }
    requires asked { line.now.command ≡ commands.Welfare }
    ensures { LoadsLine P.printed.limits D.bytes D.faults D.calls D.asked
        desk.old desk.new (named_line line.now) (λ answer. AnswersLineBy P.printed
        (D.bytes desk.old) (named_line line.now) answer.status answer.text.items) result }
{
    let (table, new) = load_table_prices::<P, D>(alloc, desk, line)?;
    done(welfare_text::<P>(alloc, &table, &new, line.arguments.json))
}

/// The answer of `Utility`: Afriat's utility of bundles.
pub(crate) fn answer_utility<'a, P: Edition, D: Desk>(
    alloc: Global,
    desk: &mut D,
    line: &Line<'a>,
) -> Result<Answer, Cause<'a>>
    requires sized { IsSized (named_line line.now) }
    requires asked { line.now.command ≡ commands.Utility }
    ensures { LoadsLine P.printed.limits D.bytes D.faults D.calls D.asked
        desk.old desk.new (named_line line.now) (λ answer. AnswersLineBy P.printed
        (D.bytes desk.old) (named_line line.now) answer.status answer.text.items) result }
{
    let (table, bundles) = load_table_bundles::<P, D>(alloc, desk, line)?;
    done(utility_text(alloc, &table, &bundles))
}

/// The answer of `Random`: whether random utility rationalizes choices.
pub(crate) fn answer_random<'a, P: Edition, D: Desk>(
    alloc: Global,
    desk: &mut D,
    line: &Line<'a>,
) -> Result<Answer, Cause<'a>>
    requires sized { IsSized (named_line line.now) }
    requires asked { line.now.command ≡ commands.Random }
    ensures { LoadsLine P.printed.limits D.bytes D.faults D.calls D.asked
        desk.old desk.new (named_line line.now) (λ answer. AnswersLineBy P.printed
        (D.bytes desk.old) (named_line line.now) answer.status answer.text.items) result }
{
    let (patches, types) = load_patches::<P, D>(alloc, desk, line)?;
    done(random_text(alloc, &patches, &types, line.arguments.json, SEARCH_STEPS))
}

/// The answer of `CheckRandom`: the check of a certificate on choices.
pub(crate) fn answer_check_random<'a, P: Edition, D: Desk>(
    alloc: Global,
    desk: &mut D,
    line: &Line<'a>,
) -> Result<Answer, Cause<'a>>
    requires sized { IsSized (named_line line.now) }
    requires asked { line.now.command ≡ commands.CheckRandom }
    ensures { LoadsLine P.printed.limits D.bytes D.faults D.calls D.asked
        desk.old desk.new (named_line line.now) (λ answer. AnswersLineBy P.printed
        (D.bytes desk.old) (named_line line.now) answer.status answer.text.items) result }
{
    let (patches, types, certificate) = load_patches_certificate::<P, D>(alloc, desk, line)?;
    whole(check_random_answer(alloc, &patches, &types, &certificate))
}

/// The answer of `Patches`: the patches of budgets.
pub(crate) fn answer_patches<'a, P: Edition, D: Desk>(
    alloc: Global,
    desk: &mut D,
    line: &Line<'a>,
) -> Result<Answer, Cause<'a>>
    requires sized { IsSized (named_line line.now) }
    requires asked { line.now.command ≡ commands.Patches }
    ensures { LoadsLine P.printed.limits D.bytes D.faults D.calls D.asked
        desk.old desk.new (named_line line.now) (λ answer. AnswersLineBy P.printed
        (D.bytes desk.old) (named_line line.now) answer.status answer.text.items) result }
{
    let (patches, _types) = load_patches::<P, D>(alloc, desk, line)?;
    done(patches_text(alloc, &patches))
}

/// The answer of `Menus`: whether random preferences rationalize choices from menus.
pub(crate) fn answer_menus<'a, P: Edition, D: Desk>(
    alloc: Global,
    desk: &mut D,
    line: &Line<'a>,
) -> Result<Answer, Cause<'a>>
    requires sized { IsSized (named_line line.now) }
    requires asked { line.now.command ≡ commands.Menus }
    ensures { LoadsLine P.printed.limits D.bytes D.faults D.calls D.asked
        desk.old desk.new (named_line line.now) (λ answer. AnswersLineBy P.printed
        (D.bytes desk.old) (named_line line.now) answer.status answer.text.items) result }
{
    let (seen, units) = load_menus_with_units::<P, D>(alloc, desk, line)?;
    done(menus_text(alloc, &seen, &units, line.arguments.per))
}

/// The answer of `Cost`: cost minimization and profit maximization.
pub(crate) fn answer_cost<'a, P: Edition, D: Desk>(
    alloc: Global,
    desk: &mut D,
    line: &Line<'a>,
) -> Result<Answer, Cause<'a>>
    requires sized { IsSized (named_line line.now) }
    requires asked { line.now.command ≡ commands.Cost }
    ensures { LoadsLine P.printed.limits D.bytes D.faults D.calls D.asked
        desk.old desk.new (named_line line.now) (λ answer. AnswersLineBy P.printed
        (D.bytes desk.old) (named_line line.now) answer.status answer.text.items) result }
{
    let (tech, asked) = load_technology_asked::<P, D>(alloc, desk, line)?;
    done(cost_text::<P>(alloc, &tech, &asked))
}

/// The answer with a text that was made, or want of memory.
pub(crate) fn done<'a>(text: Result<Vec<u8>, NoMemory>) -> Result<Answer, Cause<'a>>
    ensures { MatchResult result
        (λ answer. (answer.status ≡ Status.Done) × (text ≡ Ok answer.text))
        (λ why. why ≡ Cause.NoMemory) }
{
    match text {
        Ok(text) => Ok(Answer {
            status: Status::Done,
            text,
        }),
        Err(_) => Err(Cause::NoMemory),
    }
}

/// An answer that was made with its status, or want of memory.
pub(crate) fn whole<'a>(answer: Result<Answer, NoMemory>) -> Result<Answer, Cause<'a>>
    ensures { MatchResult result (λ whole. answer ≡ Ok whole) (λ why. why ≡ Cause.NoMemory) }
{
    match answer {
        Ok(answer) => Ok(answer),
        Err(_) => Err(Cause::NoMemory),
    }
}
