//! The files of a question on random choices: budgets, and choices from them with their patches and rational types.
ghost use Rattle.std.specs.Prelude.{◌≤◌, IfErr, IfOk, MatchResult, Ok, length};
ghost use Rattle.rp_answers.specs.Typed.{AreTypedIfListed};
ghost use Rattle.rp_answers.specs.declared.choice_limits.ChoiceLimits.TheVariants.{Unlisted};
ghost use Rattle.rp_command_line.specs.Ranges.{IsUnit};
ghost use Rattle.rp_commands.specs.ChoiceContents.{TypedPatchesOf};
ghost use Rattle.rp_commands.specs.Readings.{NumbersIn};
ghost use Rattle.rp_fit_answers.specs.Contents as contents;
ghost use Rattle.rp_fit_answers.specs.Contents.{ChosenIn};
ghost use Rattle.rp_fit_answers.specs.InnerCauses.{IsReadingCause, IsSameCause};
ghost use Rattle.rp_fit_answers.specs.InnerLoadings.{HasContents, LoadsAsked, LoadsFile};
ghost use Rattle.rp_fit_answers.specs.Questions.{RandomWithin};
ghost use Rattle.rp_fit_answers.specs.RandomWords.{asking_of};
ghost use Rattle.rp_limits.specs.declared.run.TheConstants.{MOST_BYTES};
ghost use Rattle.rp_patch.specs.Choices.{AreChoicesFrom};
ghost use Rattle.rp_text.specs.Denotation.{budgets_in};

use crate::asking::RandomAsked;
use crate::faults::{refusal, table_refusal};
use rp_answers::ChoiceLimits;
use rp_commands::patches_by;
use rp_front::Cause;
use rp_limits::run::MOST_BYTES;
use rp_num::Seq;
use rp_outside::{Desk, LoadFault, load};
use rp_patch::Patches;
use rp_table::{Budgets, Choices};
use rp_text::{read_budgets, read_choices};
use rp_types::Rational;
use std::alloc::Global;

/// The patches of the choices that are asked about, with their rational types, where these are listed.
pub(crate) fn load_asked_choices<'a, D: Desk>(
    alloc: Global,
    desk: &mut D,
    asked: &'a RandomAsked<'_>,
) -> Result<(Patches, Option<Seq<Rational>>), Cause<'a>>
    ensures loads { LoadsAsked D.bytes D.faults D.calls D.asked desk.old desk.new
        (RandomWithin (asking_of asked.now)) (λ both. HasContents (D.bytes desk.old)
        (RandomWithin (asking_of asked.now)) (contents.Choices both.0 both.1)) result }
    ensures typed { IfOk result (λ both. AreTypedIfListed both.0 both.1) }
{
    let budgets = match load_budgets(alloc, desk, asked.budgets) {
        Ok(budgets) => budgets,
        Err(why) => return Err(why),
    };
    match load_choices(alloc, desk, asked.choices, &budgets, asked.units()) {
        Ok(both) => Ok(both),
        Err(why) => Err(why),
    }
}

/// The budgets in a file.
fn load_budgets<'a, D: Desk>(
    alloc: Global,
    desk: &mut D,
    file: &'a str,
) -> Result<Budgets, Cause<'a>>
    ensures { LoadsFile D.bytes D.faults D.calls D.asked desk.old desk.new MOST_BYTES
        file.now (NumbersIn file.now budgets_in) result }
{
    match load(alloc, desk, file, MOST_BYTES) {
        Ok(bytes) => budgets_of(alloc, file, bytes.as_slice()),
        Err(LoadFault::Read) => Err(Cause::Read(file)),
        Err(LoadFault::TooLong) => Err(refusal(alloc, file, b"TooLong")),
        Err(LoadFault::NoMemory) => Err(Cause::NoMemory),
    }
}

/// The budgets that the bytes of a file denote.
fn budgets_of<'a>(alloc: Global, file: &'a str, bytes: &[u8]) -> Result<Budgets, Cause<'a>>
    requires { length bytes.now ≤ MOST_BYTES }
    ensures { MatchResult result
        (λ budgets. NumbersIn file.now budgets_in bytes.now (Ok budgets))
        (IsReadingCause (NumbersIn file.now budgets_in bytes.now)) }
{
    match read_budgets(alloc, bytes) {
        Ok(budgets) => Ok(budgets),
        Err(fault) => Err(table_refusal(alloc, file, fault)),
    }
}

/// The patches of the choices in a file, with so many units on each budget where that is asked for, and their rational types,
/// where these are listed.
fn load_choices<'a, D: Desk>(
    alloc: Global,
    desk: &mut D,
    file: &'a str,
    budgets: &Budgets,
    units: Option<u32>,
) -> Result<(Patches, Option<Seq<Rational>>), Cause<'a>>
    requires { IsUnit units }
    ensures loads { LoadsFile D.bytes D.faults D.calls D.asked desk.old desk.new MOST_BYTES
        file.now (ChosenIn budgets.now units file.now) result }
    ensures typed { IfOk result (λ both. AreTypedIfListed both.0 both.1) }
{
    match load(alloc, desk, file, MOST_BYTES) {
        Ok(bytes) => choices_of(alloc, file, bytes.as_slice(), budgets, units),
        Err(LoadFault::Read) => Err(Cause::Read(file)),
        Err(LoadFault::TooLong) => Err(refusal(alloc, file, b"TooLong")),
        Err(LoadFault::NoMemory) => Err(Cause::NoMemory),
    }
}

/// The patches of the choices that the bytes of a file denote.
fn choices_of<'a>(
    alloc: Global,
    file: &'a str,
    bytes: &[u8],
    budgets: &Budgets,
    units: Option<u32>,
) -> Result<(Patches, Option<Seq<Rational>>), Cause<'a>>
    requires few { length bytes.now ≤ MOST_BYTES }
    requires units { IsUnit units }
    ensures read { MatchResult result
        (λ both. ChosenIn budgets.now units file.now bytes.now (Ok (both.0, both.1)))
        (IsReadingCause (ChosenIn budgets.now units file.now bytes.now)) }
    ensures typed { IfOk result (λ both. AreTypedIfListed both.0 both.1) }
{
    match read_choices(alloc, bytes, budgets) {
        Ok(choices) => patches_of(alloc, budgets, &choices, units),
        Err(fault) => Err(table_refusal(alloc, file, fault)),
    }
}

/// The patches of choices from budgets, with their rational types where these are listed.
fn patches_of<'a>(
    alloc: Global,
    budgets: &Budgets,
    choices: &Choices,
    units: Option<u32>,
) -> Result<(Patches, Option<Seq<Rational>>), Cause<'a>>
    requires from { AreChoicesFrom budgets.now choices.now }
    requires units { IsUnit units }
    ensures made { IfOk result (λ both.
        TypedPatchesOf Unlisted budgets.now choices.now units (Ok (both.0, both.1))) }
    ensures typed { IfOk result (λ both. AreTypedIfListed both.0 both.1) }
    ensures caused { IfErr result
        (IsReadingCause (TypedPatchesOf Unlisted budgets.now choices.now units)) }
{
    match patches_by(alloc, budgets, choices, units, ChoiceLimits::Unlisted) {
        Ok(both) => Ok(both),
        Err(why) => Err(front_cause(why)),
    }
}

/// The cause of a command of `rp` as that of a program over the front.
fn front_cause<'a>(why: rp_commands::Cause<'a>) -> Cause<'a>
    ensures { IsSameCause why.entry result }
{
    match why {
        rp_commands::Cause::Read(file) => Cause::Read(file),
        rp_commands::Cause::Refused(line) => Cause::Refused(line),
        rp_commands::Cause::NoMemory => Cause::NoMemory,
    }
}
