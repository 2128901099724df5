//! What a program is.
ghost use Rattle.std.specs.Prelude.{◌≡◌, ℕ, List, IfErr, IfOk, None, Option, Some, map, option_map, string_bytes};
ghost use Rattle.rp_outside.specs.Faults.{EachStays, NoneFalls};
ghost use Rattle.rp_front.specs.AskedInTurn.{AreAskedInTurn};
ghost use Rattle.rp_front.specs.Contents.{AnswersWith, IsAskedFor};
ghost use Rattle.rp_front.specs.Endings.{IsEnd, Rose};
ghost use Rattle.rp_front.specs.InnerCauses.{IsCause};
ghost use Rattle.rp_front.specs.Meaning.{Meaning};
ghost use Rattle.rp_front.specs.Turns.{AreReadInTurn, AsksForFirst};
ghost use Rattle.rp_front.specs.declared.status.Status.{Status};

use crate::answer::{Answer, Cause};
use rp_num::NoMemory;
use rp_outside::Desk;
use std::alloc::Global;

/// A program: what its words ask, which files it reads for them, and what it answers.
pub trait Program<'w> {
    /// What words ask, as the program holds it while it reads and answers.
    type Asked: Drop;

    /// What the program's words and answers mean.
    ghost meaning: { Meaning };

    /// What is asked, as its meaning has it.
    ghost view: { Self.Asked → meaning.Asked };

    /// What each line on standard error begins with.
    fn name() -> &'static [u8]
        ensures { result.now ≡ meaning.name };

    /// What is told where the words ask for nothing that the program takes.
    fn usage() -> &'static [u8]
        ensures { result.now ≡ meaning.usage };

    /// What the words ask, the program's name first, or nothing.
    fn read(alloc: Global, words: &'w [String]) -> Result<Option<Self::Asked>, NoMemory>
        ensures { IfOk result (λ asked.
            option_map view asked ≡ meaning.asked_in (map string_bytes words.now)) };

    /// The answer to what is asked, over the files of a desk.
    fn answer<'a, D: Desk>(
        alloc: Global,
        desk: &mut D,
        asked: &'a Self::Asked,
    ) -> Result<Answer, Cause<'a>>
        requires { IsAskedFor meaning (view asked.now) }
        ensures written { IfOk result (λ answer. AnswersWith meaning (D.bytes desk.old)
            (view asked.now) answer.status answer.text.items answer.told.items) }
        ensures caused { IfErr result (IsCause meaning (D.bytes desk.old)
            (Rose (D.faults desk.old) (D.faults desk.new))
            (AsksForFirst meaning (D.bytes desk.old) (D.calls desk.old) (D.calls desk.new)
            (view asked.now)) (view asked.now)) }
        ensures turns { AreReadInTurn meaning (D.bytes desk.old)
            (D.calls desk.old) (D.calls desk.new) (view asked.now) }
        ensures names { AreAskedInTurn meaning (D.bytes desk.old)
            (D.asked desk.old) (D.asked desk.new) (view asked.now) }
        ensures bytes_stay { EachStays (D.bytes desk.old) (D.bytes desk.new) }
        ensures never_falls { NoneFalls (D.faults desk.old) (D.faults desk.new) };

    /// Nothing is refused before the first file is read.
    ghost begins_unrefused: { (a : meaning.Asked) (known : ℕ → Option (List ℕ)) (line : List ℕ)
        → known 0 ≡ None → ¬ meaning.refuses a known line };

    /// An answer ends a call.
    ghost answers_end: { (a : meaning.Asked) (bytes : ℕ → List ℕ) (s : Status)
        (text told : List ℕ) → meaning.answers a bytes s text told → IsEnd s };

    /// What is answered is accepted.
    ghost answers_accepted: { (a : meaning.Asked) (bytes : ℕ → List ℕ) (s : Status)
        (text told : List ℕ) → meaning.answers a bytes s text told → meaning.accepts a bytes };

    /// What is accepted is not refused.
    ghost never_both: { (a : meaning.Asked) (bytes : ℕ → List ℕ) (line : List ℕ)
        → meaning.accepts a bytes → ¬ meaning.refuses a (λ k. Some (bytes k)) line };
}
