//! A call of the program `rp-wide`: help pages and the version, and else an answer, with a hint after each error.
ghost use Rattle.std.specs.Prelude.{◌≡◌, ℕ, List, None, Some, false, map, string_bytes, true};
ghost use Rattle.rp_guide.specs.Pages.{wide_page};
ghost use Rattle.rp_run_wide.specs.FitHelping.{AnswersFit, are_for_fit};
ghost use Rattle.rp_run_wide.specs.Helping.{AnswersWithHints, GivesPage};

use crate::fitting::{answer_fit, are_for_fit};
use crate::hinting::run_wide_with_hints;
use rp_commands::Status;
use rp_guide::{give_page, wide_page};
use rp_outside::{Desk, Sink};
use std::alloc::Global;

/// Answers the words of a command line as the program `rp-wide` does. `--help`, `COMMAND --help` and `--version` write a
/// text to `out`, and no file is read. Words that begin with `fit` or `checkfit`, and words that begin with `random`
/// and have `--steps`, are answered as by `run_fit`, and all others as by `run_wide`, with two differences on `err`: a line
/// that says what to do follows each error, and a line follows the verdict on an accepted certificate.
pub fn run_wide_with_help<D: Desk, O: Sink, E: Sink>(
    alloc: Global,
    words: &Vec<String>,
    desk: &mut D,
    out: &mut O,
    err: &mut E,
) -> Status
    ensures page { (text : List ℕ) → wide_page (map string_bytes words.now.items) ≡ Some text
        → GivesPage text result
        (record {
          old = O.written out.old;
          new = O.written out.new;
          before = O.faults out.old;
          after = O.faults out.new;
        })
        (record {
          old = E.written err.old;
          new = E.written err.new;
          before = E.faults err.old;
          after = E.faults err.new;
        }) }
    ensures nothing_read { (text : List ℕ)
        → wide_page (map string_bytes words.now.items) ≡ Some text → desk.new ≡ desk.old }
    ensures answers { wide_page (map string_bytes words.now.items) ≡ None
        → are_for_fit (map string_bytes words.now.items) ≡ false
        → AnswersWithHints (map string_bytes words.now.items)
        (record {
          bytes = D.bytes desk.old;
          later = D.bytes desk.new;
          faults = D.faults desk.old;
          faults_after = D.faults desk.new;
          calls = D.calls desk.old;
          calls_after = D.calls desk.new;
          asked = D.asked desk.old;
          asked_after = D.asked desk.new;
        })
        result
        (record {
          old = O.written out.old;
          new = O.written out.new;
          before = O.faults out.old;
          after = O.faults out.new;
        })
        (record {
          old = E.written err.old;
          new = E.written err.new;
          before = E.faults err.old;
          after = E.faults err.new;
        }) }
    ensures answers_on_fit { wide_page (map string_bytes words.now.items) ≡ None
        → are_for_fit (map string_bytes words.now.items) ≡ true
        → AnswersFit (map string_bytes words.now.items)
        (record {
          bytes = D.bytes desk.old;
          later = D.bytes desk.new;
          faults = D.faults desk.old;
          faults_after = D.faults desk.new;
          calls = D.calls desk.old;
          calls_after = D.calls desk.new;
          asked = D.asked desk.old;
          asked_after = D.asked desk.new;
        })
        result
        (record {
          old = O.written out.old;
          new = O.written out.new;
          before = O.faults out.old;
          after = O.faults out.new;
        })
        (record {
          old = E.written err.old;
          new = E.written err.new;
          before = E.faults err.old;
          after = E.faults err.new;
        }) }
{
    match wide_page(words.as_slice()) {
        Some(text) => answer_page(text, out, err),
        None => answer_words(alloc, words, desk, out, err),
    }
}

/// Answers words that ask for no page.
fn answer_words<D: Desk, O: Sink, E: Sink>(
    alloc: Global,
    words: &Vec<String>,
    desk: &mut D,
    out: &mut O,
    err: &mut E,
) -> Status
    ensures answers { are_for_fit (map string_bytes words.now.items) ≡ false
        → AnswersWithHints (map string_bytes words.now.items)
        (record {
          bytes = D.bytes desk.old;
          later = D.bytes desk.new;
          faults = D.faults desk.old;
          faults_after = D.faults desk.new;
          calls = D.calls desk.old;
          calls_after = D.calls desk.new;
          asked = D.asked desk.old;
          asked_after = D.asked desk.new;
        })
        result
        (record {
          old = O.written out.old;
          new = O.written out.new;
          before = O.faults out.old;
          after = O.faults out.new;
        })
        (record {
          old = E.written err.old;
          new = E.written err.new;
          before = E.faults err.old;
          after = E.faults err.new;
        }) }
    ensures answers_on_fit { are_for_fit (map string_bytes words.now.items) ≡ true
        → AnswersFit (map string_bytes words.now.items)
        (record {
          bytes = D.bytes desk.old;
          later = D.bytes desk.new;
          faults = D.faults desk.old;
          faults_after = D.faults desk.new;
          calls = D.calls desk.old;
          calls_after = D.calls desk.new;
          asked = D.asked desk.old;
          asked_after = D.asked desk.new;
        })
        result
        (record {
          old = O.written out.old;
          new = O.written out.new;
          before = O.faults out.old;
          after = O.faults out.new;
        })
        (record {
          old = E.written err.old;
          new = E.written err.new;
          before = E.faults err.old;
          after = E.faults err.new;
        }) }
{
    if are_for_fit(words.as_slice()) {
        answer_fit(alloc, words, desk, out, err)
    } else {
        run_wide_with_hints(alloc, words, desk, out, err)
    }
}

/// Writes a page, or tells that it could not be written.
fn answer_page<O: Sink, E: Sink>(text: &[u8], out: &mut O, err: &mut E) -> Status
    ensures { GivesPage text.now result
        (record {
          old = O.written out.old;
          new = O.written out.new;
          before = O.faults out.old;
          after = O.faults out.new;
        })
        (record {
          old = E.written err.old;
          new = E.written err.new;
          before = E.faults err.old;
          after = E.faults err.new;
        }) }
{
    let done = give_page(text, b"rp: write failed\n", out, err);
    if done {
        Status::Done
    } else {
        Status::WriteFault
    }
}
