//! Words that ask for indices of goodness of fit, for the check of a certificate on them, or for the verdict on random
//! choices within a limit of steps.
ghost use Rattle.std.specs.Prelude.{◌≡◌, map, string_bytes};
ghost use Rattle.rp_run_wide.specs.FitHelping.{AnswersFit, are_for_fit, front_status, has_steps};

use rp_commands::Status;
use rp_fit_run::run_fit;
use rp_outside::{Desk, Sink};
use std::alloc::Global;

/// Whether words are for `run_fit`: after the program's name they begin with `fit` or `checkfit`, or with `random` where a
/// later word is `--steps`.
pub(crate) fn are_for_fit(words: &[String]) -> bool
    ensures { result ≡ are_for_fit (map string_bytes words.now) }
{
    match words {
        [_, command, rest @ ..] => {
            command.as_str() == "fit"
                || command.as_str() == "checkfit"
                || (command.as_str() == "random" && has_steps(rest))
        }
        _ => false,
    }
}

/// Whether one of the words is `--steps`.
fn has_steps(mut words: &[String]) -> bool
    ensures { result ≡ has_steps (map string_bytes words.entry.now) }
{
    while let [word, rest @ ..] = words {
        if word.as_str() == "--steps" {
            return true;
        }
        words = rest;
    }
    false
}

/// Answers words as `run_fit` does, with a hint after each error.
pub(crate) fn answer_fit<D: Desk, O: Sink, E: Sink>(
    alloc: Global,
    words: &Vec<String>,
    desk: &mut D,
    out: &mut O,
    err: &mut E,
) -> Status
    ensures { AnswersFit (map string_bytes words.now.items)
        (record {
          bytes = D.bytes desk.old;
          later = D.bytes desk.new;
          faults = D.faults desk.old;
          faults_after = D.faults desk.new;
          calls = D.calls desk.old;
          calls_after = D.calls desk.new;
          asked = D.asked desk.old;
          asked_after = D.asked desk.new;
        })
        result
        (record {
          old = O.written out.old;
          new = O.written out.new;
          before = O.faults out.old;
          after = O.faults out.new;
        })
        (record {
          old = E.written err.old;
          new = E.written err.new;
          before = E.faults err.old;
          after = E.faults err.new;
        }) }
{
    let ended = run_fit::<D, O, E>(alloc, true, words, desk, out, err);
    status_of(ended)
}

/// A status of the programs over the front as that of `run`.
fn status_of(status: rp_front::Status) -> Status
    ensures { front_status result ≡ status }
{
    match status {
        rp_front::Status::Done => Status::Done,
        rp_front::Status::Rejected => Status::Rejected,
        rp_front::Status::Usage => Status::Usage,
        rp_front::Status::ReadFault => Status::ReadFault,
        rp_front::Status::Refused => Status::Refused,
        rp_front::Status::WriteFault => Status::WriteFault,
        rp_front::Status::NoMemory => Status::NoMemory,
    }
}
