//! The answers of the two commands over the files that they name.
ghost use Rattle.std.specs.Prelude.{◌≡◌, MatchResult, Ok};
ghost use Rattle.rp_front.specs.Contents.{AnswersWith};
ghost use Rattle.rp_fit_answers.specs.GoodnessOfFit.{goodness_of_fit};
ghost use Rattle.rp_fit_answers.specs.InnerLoadings.{LoadsAsked};
ghost use Rattle.rp_fit_answers.specs.Questions as questions;

use crate::checking::check_answer;
use crate::indices::indices_answer;
use crate::loading::{load_asked_certificate, load_asked_table};
use rp_front::{Answer, Cause};
use rp_num::NoMemory;
use rp_outside::Desk;
use std::alloc::Global;

/// The answer of `fit`.
pub fn answer_indices<'a, D: Desk>(
    alloc: Global,
    desk: &mut D,
    table: &'a str,
    json: bool,
) -> Result<Answer, Cause<'a>>
    ensures { LoadsAsked D.bytes D.faults D.calls D.asked desk.old desk.new
        (questions.Fit table.now json) (λ answer. AnswersWith goodness_of_fit (D.bytes desk.old)
        (questions.Fit table.now json) answer.status answer.text.items answer.told.items) result }
{
    match load_asked_table(alloc, desk, table, json) {
        Ok(held) => whole(indices_answer(alloc, &held, json)),
        Err(why) => Err(why),
    }
}

/// The answer of `checkfit`.
pub fn answer_check<'a, D: Desk>(
    alloc: Global,
    desk: &mut D,
    table: &'a str,
    certificate: &'a str,
) -> Result<Answer, Cause<'a>>
    ensures { LoadsAsked D.bytes D.faults D.calls D.asked desk.old desk.new
        (questions.CheckFit table.now certificate.now)
        (λ answer. AnswersWith goodness_of_fit (D.bytes desk.old)
        (questions.CheckFit table.now certificate.now) answer.status answer.text.items
        answer.told.items) result }
{
    match load_asked_certificate(alloc, desk, table, certificate) {
        Ok((held, items)) => whole(check_answer(alloc, &held, items.as_slice())),
        Err(why) => Err(why),
    }
}

/// An answer, or want of memory.
pub(crate) fn whole<'a>(made: Result<Answer, NoMemory>) -> Result<Answer, Cause<'a>>
    ensures { MatchResult result (λ answer. made ≡ Ok answer) (λ why. why ≡ Cause.NoMemory) }
{
    match made {
        Ok(answer) => Ok(answer),
        Err(_) => Err(Cause::NoMemory),
    }
}
