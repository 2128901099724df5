//! A call of a program: its words, their answer, and what is written and told.
ghost use Rattle.std.specs.Prelude.{◌≡◌, ◌⊎◌, Some, map, string_bytes};
ghost use Rattle.rp_outside.specs.Faults.{HasRisen};
ghost use Rattle.rp_front.specs.Calls.{AnswersUsage, AsksByName, AsksInTurn, IsWritten};
ghost use Rattle.rp_front.specs.Calls.{LeavesTheRest, TellsWhy};
ghost use Rattle.rp_front.specs.Contents.{IsAccepted, IsRefused};
ghost use Rattle.rp_front.specs.Endings.{IsEnd, NoneRose, Rose};
ghost use Rattle.rp_front.specs.Turns.{AsksForFirst};

use crate::answer::Cause;
use crate::ending::{finish, refuse};
use crate::program::Program;
use crate::status::Status;
use crate::telling::tell_error;
use rp_outside::{Desk, Sink};
use std::alloc::Global;

/// Answers the words of a command line over the files of a desk, by a program. The answer goes to `out`; what is told of
/// it before it is written, or the reason why there is none, goes to `err`, whose failures change no status. Where hints
/// are wanted, a line after each error says what to do.
pub fn run_program<'w, P: Program<'w>, D: Desk, O: Sink, E: Sink>(
    alloc: Global,
    hints: bool,
    words: &'w Vec<String>,
    desk: &mut D,
    out: &mut O,
    err: &mut E,
) -> Status
    // The words.
    ensures words { AnswersUsage (P.meaning.asked_in (map string_bytes words.now.items)) result }

    // The answer, and what the output and standard error gain.
    ensures written { IsWritten hints P.meaning (D.bytes desk.old)
        (P.meaning.asked_in (map string_bytes words.now.items)) result
        (record {
          old = O.written out.old;
          new = O.written out.new;
          before = O.faults out.old;
          after = O.faults out.new;
        })
        (record {
          old = E.written err.old;
          new = E.written err.new;
          before = E.faults err.old;
          after = E.faults err.new;
        }) }

    // Why there is no answer.
    ensures why { TellsWhy hints P.meaning (D.bytes desk.old)
        (Rose (D.faults desk.old) (D.faults desk.new))
        (AsksForFirst P.meaning (D.bytes desk.old) (D.calls desk.old) (D.calls desk.new))
        (P.meaning.asked_in (map string_bytes words.now.items)) result
        (record {
          old = E.written err.old;
          new = E.written err.new;
          before = E.faults err.old;
          after = E.faults err.new;
        }) }

    // How often the desk is asked for the files of the words, and in which order.
    ensures turns { AsksInTurn P.meaning (D.bytes desk.old) (D.calls desk.old) (D.calls desk.new)
        (P.meaning.asked_in (map string_bytes words.now.items)) }

    // For which names, and each once.
    ensures names { AsksByName P.meaning (D.bytes desk.old) (D.asked desk.old) (D.asked desk.new)
        (P.meaning.asked_in (map string_bytes words.now.items)) }

    // When there is one.
    ensures complete { (a : P.meaning.Asked)
        → P.meaning.asked_in (map string_bytes words.now.items) ≡ Some a
        → IsAccepted P.meaning (D.bytes desk.old) a
        → NoneRose P.meaning a (D.faults desk.old) (D.faults desk.new)
        → ¬ HasRisen (O.faults out.old) (O.faults out.new)
        → IsEnd result ⊎ (result ≡ Status.NoMemory) }
    ensures refused { (a : P.meaning.Asked)
        → P.meaning.asked_in (map string_bytes words.now.items) ≡ Some a
        → IsRefused P.meaning (D.bytes desk.old) a
        → NoneRose P.meaning a (D.faults desk.old) (D.faults desk.new)
        → (result ≡ Status.Refused) ⊎ (result ≡ Status.NoMemory) }

    // What is left as it was.
    ensures stays { LeavesTheRest (D.bytes desk.old) (D.bytes desk.new)
        (D.faults desk.old) (D.faults desk.new)
        (record {
          old = O.written out.old;
          new = O.written out.new;
          before = O.faults out.old;
          after = O.faults out.new;
        })
        (record {
          old = E.written err.old;
          new = E.written err.new;
          before = E.faults err.old;
          after = E.faults err.new;
        }) }
{
    let Ok(read) = P::read(alloc, words.as_slice()) else {
        return refuse(P::name(), hints, &Cause::NoMemory, err);
    };
    let Some(asked) = read else {
        tell_error(err, hints, &[P::usage()], b"Usage");
        return Status::Usage;
    };
    match P::answer(alloc, desk, &asked) {
        Ok(answer) => finish(P::name(), hints, &answer, out, err),
        Err(cause) => refuse(P::name(), hints, &cause, err),
    }
}
