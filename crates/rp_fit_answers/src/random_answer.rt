//! The answer of `random` within a limit of steps.
ghost use Rattle.std.specs.Prelude.{◌≡◌, [], IfOk};
ghost use Rattle.rp_answers.specs.ChoicesText.{IsChoicesText};
ghost use Rattle.rp_answers.specs.Typed.{AreTypedIfListed};
ghost use Rattle.rp_fit_answers.specs.GoodnessOfFit.{goodness_of_fit};
ghost use Rattle.rp_fit_answers.specs.InnerLoadings.{LoadsAsked};
ghost use Rattle.rp_fit_answers.specs.Questions.{RandomWithin};
ghost use Rattle.rp_fit_answers.specs.RandomWords.{asking_of};
ghost use Rattle.rp_front.specs.Contents.{AnswersWith};
ghost use Rattle.rp_generated.specs.Steps.{IsMostSteps};

use crate::answering::whole;
use crate::asking::RandomAsked;
use crate::choices::load_asked_choices;
use rp_answers::random_text;
use rp_front::{Answer, Cause, Status};
use rp_num::{NoMemory, Seq};
use rp_outside::Desk;
use rp_patch::Patches;
use rp_types::Rational;
use std::alloc::Global;

/// The answer of `random` within a limit of steps.
pub fn answer_random<'a, D: Desk>(
    alloc: Global,
    desk: &mut D,
    asked: &'a RandomAsked<'_>,
) -> Result<Answer, Cause<'a>>
    ensures { LoadsAsked D.bytes D.faults D.calls D.asked desk.old desk.new
        (RandomWithin (asking_of asked.now)) (λ answer. AnswersWith goodness_of_fit (D.bytes desk.old)
        (RandomWithin (asking_of asked.now)) answer.status answer.text.items answer.told.items)
        result }
{
    match load_asked_choices(alloc, desk, asked) {
        Ok((patches, types)) => {
            whole(random_answer(alloc, &patches, &types, asked.json, asked.most))
        }
        Err(why) => Err(why),
    }
}

/// The report on random choices, or its certificate as JSON, by searches of at most so many steps.
fn random_answer(
    alloc: Global,
    patches: &Patches,
    types: &Option<Seq<Rational>>,
    json: bool,
    most: u64,
) -> Result<Answer, NoMemory>
    requires typed { AreTypedIfListed patches.now types.now }
    requires half { IsMostSteps most }
    ensures { IfOk result (λ answer.
        ((answer.status ≡ Status.Done)
        × IsChoicesText json most patches.now types.now answer.text.items)
        × (answer.told.items ≡ [])) }
{
    let text = random_text(alloc, patches, types, json, most)?;
    Ok(Answer {
        status: Status::Done,
        text,
        told: Vec::new(alloc),
    })
}
