//! The program of the commands over the front, and its call.
ghost use Rattle.std.specs.Prelude.{◌≡◌, ◌⊎◌, Some, map, string_bytes};
ghost use Rattle.rp_outside.specs.Faults.{HasRisen};
ghost use Rattle.rp_front.specs.Calls.{AnswersUsage, AsksByName, AsksInTurn, IsWritten};
ghost use Rattle.rp_front.specs.Calls.{LeavesTheRest, TellsWhy};
ghost use Rattle.rp_front.specs.Contents.{IsAccepted, IsRefused};
ghost use Rattle.rp_front.specs.Endings.{IsEnd, NoneRose, Rose};
ghost use Rattle.rp_front.specs.Turns.{AsksForFirst};
ghost use Rattle.rp_fit_answers.specs.GoodnessOfFit.{goodness_of_fit};
ghost use Rattle.rp_fit_answers.specs.Questions.{Question, asked_in, question_of};

use rp_fit_answers::{Asked, answer_check, answer_indices, answer_random, asked_by};
use rp_front::{Answer, Cause, Program, Status, run_program};
use rp_num::NoMemory;
use rp_outside::{Desk, Sink};
use std::alloc::Global;

/// The program: the indices of goodness of fit of a table, the check of a certificate on them, and the verdict on random
/// choices within a limit of steps.
pub struct GoodnessOfFit;

impl<'w> Program<'w> for GoodnessOfFit {
    ghost use Rattle.rp_fit_answers.proofs.Laws.{answers_accepted, answers_end, begins_unrefused, never_both};

    type Asked = Asked<'w>;

    ghost meaning = { goodness_of_fit };

    ghost view = { question_of };

    fn name() -> &'static [u8]
        ensures { result.now ≡ goodness_of_fit.name }
    {
        b"rp"
    }

    fn usage() -> &'static [u8]
        ensures { result.now ≡ goodness_of_fit.usage }
    {
        b"usage: rp-wide fit TABLE [--json]\n       rp-wide checkfit TABLE CERT\n       rp-wide random BUDGETS CHOICES --steps N [--per N] [--json]\n"
    }

    fn read(_alloc: Global, words: &'w [String]) -> Result<Option<Asked<'w>>, NoMemory> {
        Ok(asked_by(words))
    }

    fn answer<'a, D: Desk>(
        alloc: Global,
        desk: &mut D,
        asked: &'a Asked<'w>,
    ) -> Result<Answer, Cause<'a>> {
        match asked {
            Asked::Fit { table, json } => answer_indices(alloc, desk, table, *json),
            Asked::CheckFit { table, certificate } => {
                answer_check(alloc, desk, table, certificate)
            }
            Asked::RandomWithin { own } => answer_random(alloc, desk, own),
        }
    }

    ghost begins_unrefused = { begins_unrefused };

    ghost answers_end = { answers_end };

    ghost answers_accepted = { answers_accepted };

    ghost never_both = { never_both };
}

/// Answers the words of a command line that ask for indices of goodness of fit, for the check of a certificate on them, or for
/// the verdict on random choices within a limit of steps, over the files of a desk. The answer goes to `out`, and the reason why there is none to `err`, whose failures change
/// no status. Where hints are wanted, a line after each error says what to do.
pub fn run_fit<D: Desk, O: Sink, E: Sink>(
    alloc: Global,
    hints: bool,
    words: &Vec<String>,
    desk: &mut D,
    out: &mut O,
    err: &mut E,
) -> Status
    // The words.
    ensures words { AnswersUsage (asked_in (map string_bytes words.now.items)) result }

    // The answer, and what the output and standard error gain.
    ensures written { IsWritten hints goodness_of_fit (D.bytes desk.old)
        (asked_in (map string_bytes words.now.items)) result
        (record {
          old = O.written out.old;
          new = O.written out.new;
          before = O.faults out.old;
          after = O.faults out.new;
        })
        (record {
          old = E.written err.old;
          new = E.written err.new;
          before = E.faults err.old;
          after = E.faults err.new;
        }) }

    // Why there is no answer.
    ensures why { TellsWhy hints goodness_of_fit (D.bytes desk.old)
        (Rose (D.faults desk.old) (D.faults desk.new))
        (AsksForFirst goodness_of_fit (D.bytes desk.old) (D.calls desk.old) (D.calls desk.new))
        (asked_in (map string_bytes words.now.items)) result
        (record {
          old = E.written err.old;
          new = E.written err.new;
          before = E.faults err.old;
          after = E.faults err.new;
        }) }

    // How often the desk is asked for the files of the words, and in which order.
    ensures turns { AsksInTurn goodness_of_fit (D.bytes desk.old)
        (D.calls desk.old) (D.calls desk.new) (asked_in (map string_bytes words.now.items)) }

    // For which names, and each once.
    ensures names { AsksByName goodness_of_fit (D.bytes desk.old)
        (D.asked desk.old) (D.asked desk.new) (asked_in (map string_bytes words.now.items)) }

    // When there is one.
    ensures complete { (a : Question) → asked_in (map string_bytes words.now.items) ≡ Some a
        → IsAccepted goodness_of_fit (D.bytes desk.old) a
        → NoneRose goodness_of_fit a (D.faults desk.old) (D.faults desk.new)
        → ¬ HasRisen (O.faults out.old) (O.faults out.new)
        → IsEnd result ⊎ (result ≡ Status.NoMemory) }
    ensures refused { (a : Question) → asked_in (map string_bytes words.now.items) ≡ Some a
        → IsRefused goodness_of_fit (D.bytes desk.old) a
        → NoneRose goodness_of_fit a (D.faults desk.old) (D.faults desk.new)
        → (result ≡ Status.Refused) ⊎ (result ≡ Status.NoMemory) }

    // What is left as it was.
    ensures stays { LeavesTheRest (D.bytes desk.old) (D.bytes desk.new)
        (D.faults desk.old) (D.faults desk.new)
        (record {
          old = O.written out.old;
          new = O.written out.new;
          before = O.faults out.old;
          after = O.faults out.new;
        })
        (record {
          old = E.written err.old;
          new = E.written err.new;
          before = E.faults err.old;
          after = E.faults err.new;
        }) }
{
    run_program::<GoodnessOfFit, D, O, E>(alloc, hints, words, desk, out, err)
}
