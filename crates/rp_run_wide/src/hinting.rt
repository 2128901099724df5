//! An answer with a hint after each error: the call of the edition runs in memory, and what it wrote and told is handed
//! on.
ghost use Rattle.std.specs.Prelude.{◌≡◌, ◌++◌, ℕ, List, ◌∷◌, Some, IfOk, map, string_bytes, true, false};
ghost use Rattle.rp_command_line.specs.CommandLine.{Line as Asked};
ghost use Rattle.rp_command_line.specs.Shapes.{HasShape, shape_of};
ghost use Rattle.rp_command_line.specs.Words.{line_in};
ghost use Rattle.rp_outside.specs.Faults.{EachStays, NoneFalls};
ghost use Rattle.rp_commands.specs.Calls.{AsksByName, AsksInTurn};
ghost use Rattle.rp_commands.specs.Endings.{IsEnd};
ghost use Rattle.rp_run_wide.specs.Helping as helping;
ghost use Rattle.rp_run_wide.specs.Helping.{AnswersWithHints, fit_calls};
ghost use Rattle.rp_run_wide.specs.InnerRan.{IsDelivered, Ran, told_of_all};

use crate::running::run_wide;
use rp_commands::Status;
use rp_frame::TextSink;
use rp_guide::{code_of_line, note_code, tell_note, tell_with_hint};
use rp_num::NoMemory;
use rp_outside::{Desk, Sink, pour};
use std::alloc::Global;

/// What a call wrote and told in memory, and its status.
#[derive(Drop)]
struct Gathered {
    status: Status,
    text: Vec<u8>,
    told: Vec<u8>,
}

/// Answers words as `run_wide` does, with a hint after each error.
pub(crate) fn run_wide_with_hints<D: Desk, O: Sink, E: Sink>(
    alloc: Global,
    words: &Vec<String>,
    desk: &mut D,
    out: &mut O,
    err: &mut E,
) -> Status
    ensures { AnswersWithHints (map string_bytes words.now.items)
        (record {
          bytes = D.bytes desk.old;
          later = D.bytes desk.new;
          faults = D.faults desk.old;
          faults_after = D.faults desk.new;
          calls = D.calls desk.old;
          calls_after = D.calls desk.new;
          asked = D.asked desk.old;
          asked_after = D.asked desk.new;
        })
        result
        (record {
          old = O.written out.old;
          new = O.written out.new;
          before = O.faults out.old;
          after = O.faults out.new;
        })
        (record {
          old = E.written err.old;
          new = E.written err.new;
          before = E.faults err.old;
          after = E.faults err.new;
        }) }
{
    match gather(alloc, words, desk) {
        Ok(gathered) => deliver(&gathered, out, err),
        Err(NoMemory) => {
            tell_with_hint(err, b"rp: out of memory\n", b"NoMemory");
            Status::NoMemory
        }
    }
}

/// What `run_wide` writes and tells, where memory does not run out.
fn gather<D: Desk>(alloc: Global, words: &Vec<String>, desk: &mut D) -> Result<Gathered, NoMemory>
    ensures shapes { (line : Asked) (name : List ℕ) → HasShape line
        → map string_bytes words.now.items ≡ name ∷ shape_of line
        → line_in words.now.items ≡ Some line }
    ensures turns { AsksInTurn (D.bytes desk.old)
        (D.calls desk.old) (D.calls desk.new) (line_in words.now.items) }
    ensures names { AsksByName (D.bytes desk.old)
        (D.asked desk.old) (D.asked desk.new) (line_in words.now.items) }
    ensures bytes_stay { EachStays (D.bytes desk.old) (D.bytes desk.new) }
    ensures faults_of_files { NoneFalls (D.faults desk.old) (D.faults desk.new) }
    ensures ran { IfOk result (λ gathered. Ran (map string_bytes words.now.items)
        (record {
          bytes = D.bytes desk.old;
          later = D.bytes desk.new;
          faults = D.faults desk.old;
          faults_after = D.faults desk.new;
          calls = D.calls desk.old;
          calls_after = D.calls desk.new;
          asked = D.asked desk.old;
          asked_after = D.asked desk.new;
        })
        gathered.status gathered.text.items gathered.told.items) }
{
    let mut out = TextSink::new(alloc);
    let mut err = TextSink::new(alloc);
    let status = run_wide::<D, TextSink, TextSink>(alloc, words, desk, &mut out, &mut err);
    if status == Status::NoMemory || out.faults() > 0 || err.faults() > 0 {
        return Err(NoMemory);
    }
    let text = out.into_bytes();
    let told = told_of_all(status, err.into_bytes())?;
    Ok(Gathered { status, text, told })
}

/// What is told where `run_wide` told this: the usage text has the commands on goodness of fit too.
fn told_of_all(status: Status, told: Vec<u8>) -> Result<Vec<u8>, NoMemory>
    ensures { IfOk result (λ all. all.items ≡ told_of_all status told.items) }
{
    match status {
        Status::Usage => with_fit_calls(told),
        Status::Done
        | Status::Rejected
        | Status::ReadFault
        | Status::Refused
        | Status::WriteFault
        | Status::NoMemory => Ok(told),
    }
}

/// A usage text, and how the commands of `run_fit` are called.
fn with_fit_calls(usage: Vec<u8>) -> Result<Vec<u8>, NoMemory>
    ensures { IfOk result (λ all. all.items ≡ usage.items ++ fit_calls) }
{
    let mut all = usage;
    all.extend_from_slice(
        b"       rp-wide fit TABLE [--json]\n       rp-wide checkfit TABLE CERT\n       rp-wide random BUDGETS CHOICES --steps N [--per N] [--json]\n",
    )?;
    Ok(all)
}

/// Hands on what was written and told.
fn deliver<O: Sink, E: Sink>(gathered: &Gathered, out: &mut O, err: &mut E) -> Status
    ensures { IsDelivered gathered.now.status gathered.now.text.items gathered.now.told.items
        result
        (record {
          old = O.written out.old;
          new = O.written out.new;
          before = O.faults out.old;
          after = O.faults out.new;
        })
        (record {
          old = E.written err.old;
          new = E.written err.new;
          before = E.faults err.old;
          after = E.faults err.new;
        }) }
{
    let ends = is_end(gathered.status);
    if !ends {
        let line = gathered.told.as_slice();
        tell_with_hint(err, line, status_code(gathered.status, line));
        return gathered.status;
    }
    let text = gathered.text.as_slice();
    match pour(out, text) {
        Ok(()) => {
            tell_note(err, note_code(text));
            gathered.status
        }
        Err(_) => {
            tell_with_hint(err, b"rp: write failed\n", b"WriteFault");
            Status::WriteFault
        }
    }
}

/// Whether the whole answer went out.
fn is_end(status: Status) -> bool
    ensures yes { result ≡ true → IsEnd status }
    ensures no { result ≡ false → ¬ IsEnd status }
{
    match status {
        Status::Done | Status::Rejected => true,
        Status::Usage
        | Status::ReadFault
        | Status::Refused
        | Status::WriteFault
        | Status::NoMemory => false,
    }
}

/// The code by which the hint for a status is found, where its line is this.
fn status_code<'a>(status: Status, line: &'a [u8]) -> &'a [u8]
    ensures { result.now ≡ helping.status_code status line.now }
{
    match status {
        Status::Done | Status::Rejected => b"",
        Status::Usage => b"Usage",
        Status::ReadFault => b"ReadFault",
        Status::Refused => code_of_line(line),
        Status::WriteFault => b"WriteFault",
        Status::NoMemory => b"NoMemory",
    }
}
