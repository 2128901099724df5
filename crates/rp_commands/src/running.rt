//! A call of the program: its words, their answer, and what is written and told.
ghost use Rattle.std.specs.Prelude.{◌≡◌, ◌⊎◌, ◌≤◌, ℕ, List, [], ◌∷◌, Some, map, string_bytes};
ghost use Rattle.clap.specs.Faults.{fault_of};
ghost use Rattle.rp_outside.specs.Faults.{HasRisen};
ghost use Rattle.rp_outside.specs.Known.{Stays, Grows, GrowsByPrefix};
ghost use Rattle.rp_command_line.specs.CommandLine.{Line as Asked};
ghost use Rattle.rp_command_line.specs.Words.{line_in};
ghost use Rattle.rp_command_line.specs.Commands.{program};
ghost use Rattle.rp_command_line.specs.Shapes.{HasShape, shape_of};
ghost use Rattle.rp_commands.specs.Answers.{IsAcceptedBy, IsRefusedBy};
ghost use Rattle.rp_commands.specs.Calls.{AnswersUsage, AsksByName, AsksInTurn, GivesCheckVerdictBy};
ghost use Rattle.rp_commands.specs.Calls.{IsWrittenBy, LeavesTheRest};
ghost use Rattle.rp_commands.specs.Calls.{TellsWhyBy};
ghost use Rattle.rp_commands.specs.FaultLines.{write_line};
ghost use Rattle.rp_commands.specs.Endings.{IsEnd, Rose, NoneRose};
ghost use Rattle.rp_commands.specs.Gains.{Gains};
ghost use Rattle.rp_commands.specs.Turns.{AsksForFirst};
ghost use Rattle.rp_commands.specs.InnerCauses.{status_of_cause, cause_line};

use crate::answer::answer_line;
use crate::files::Cause;
use crate::telling::tell;
use rp_answers::{Answer, Edition, Status};
use rp_command_line::read_line;
use rp_outside::{Desk, Sink, pour};
use std::alloc::Global;

/// Answers the words of a command line over the files of a desk, by an edition of the program, whose texts and limits
/// of choices these are. The answer goes to `out`, and the reason why there is none to `err`, whose failures change no
/// status. All is printed as it stands.
pub fn run_edition<P: Edition, D: Desk, O: Sink, E: Sink>(
    alloc: Global,
    words: &Vec<String>,
    desk: &mut D,
    out: &mut O,
    err: &mut E,
) -> Status
    // The words.
    ensures words { AnswersUsage (line_in words.now.items) result }
    ensures refused_by_clap { result ≡ Status.Usage
        → ¬ (fault_of program (map string_bytes words.now.items) ≡ []) }
    ensures shapes { (line : Asked) (name : List ℕ) → HasShape line
        → map string_bytes words.now.items ≡ name ∷ shape_of line
        → line_in words.now.items ≡ Some line }

    // The answer, and what the output gains.
    ensures written { IsWrittenBy P.printed (D.bytes desk.old) (line_in words.now.items) result
        (O.written out.old) (O.written out.new) (O.faults out.old) (O.faults out.new) }

    // The checker's verdict on a certificate.
    ensures verdict { GivesCheckVerdictBy P.printed.limits (D.bytes desk.old)
        (line_in words.now.items) result }

    // Why there is no answer.
    ensures why { TellsWhyBy P.printed (D.bytes desk.old)
        (Rose (D.faults desk.old) (D.faults desk.new))
        (AsksForFirst (D.bytes desk.old) (D.calls desk.old) (D.calls desk.new))
        (line_in words.now.items) result
        (E.written err.old) (E.written err.new) (E.faults err.old) (E.faults err.new) }

    // How often the desk is asked for the files of the words, and in which order.
    ensures turns { AsksInTurn (D.bytes desk.old)
        (D.calls desk.old) (D.calls desk.new) (line_in words.now.items) }

    // For which names, and each once.
    ensures names { AsksByName (D.bytes desk.old)
        (D.asked desk.old) (D.asked desk.new) (line_in words.now.items) }

    // When there is one.
    ensures complete { (line : Asked) → line_in words.now.items ≡ Some line
        → IsAcceptedBy P.printed.limits (D.bytes desk.old) line
        → NoneRose line (D.faults desk.old) (D.faults desk.new)
        → ¬ HasRisen (O.faults out.old) (O.faults out.new)
        → IsEnd result ⊎ (result ≡ Status.NoMemory) }
    ensures refused { (line : Asked) → line_in words.now.items ≡ Some line
        → IsRefusedBy P.printed.limits (D.bytes desk.old) line
        → NoneRose line (D.faults desk.old) (D.faults desk.new)
        → (result ≡ Status.Refused) ⊎ (result ≡ Status.NoMemory) }

    // What is left as it was.
    ensures stays { LeavesTheRest (D.bytes desk.old) (D.bytes desk.new)
        (D.faults desk.old) (D.faults desk.new) (O.faults out.old) (O.faults out.new)
        (E.faults err.old) (E.faults err.new) }
{
    let Ok(asked) = read_line(alloc, words.as_slice()) else {
        return refuse(&Cause::NoMemory, err);
    };
    let Some(line) = asked else {
        tell(err, &[P::usage()]);
        return Status::Usage;
    };
    match answer_line::<P, D>(alloc, desk, &line) {
        Ok(answer) => finish(&answer, out, err),
        Err(cause) => refuse(&cause, err),
    }
}

/// Writes the whole answer, or tells that it could not be written.
fn finish<O: Sink, E: Sink>(answer: &Answer, out: &mut O, err: &mut E) -> Status
    requires { IsEnd answer.now.status }
    ensures either { (result ≡ answer.now.status) ⊎ (result ≡ Status.WriteFault) }
    ensures whole { IsEnd result
        → Grows (O.written out.old) (O.written out.new) answer.now.text.items
        × Stays (E.written err.old) (E.written err.new) }
    ensures part { result ≡ Status.WriteFault
        → GrowsByPrefix (O.written out.old) (O.written out.new) answer.now.text.items
        × HasRisen (O.faults out.old) (O.faults out.new) }
    ensures told { result ≡ Status.WriteFault → Gains (E.written err.old) (E.written err.new)
        (E.faults err.old) (E.faults err.new) write_line }
    ensures faults_of_out { O.faults out.old ≤ O.faults out.new }
    ensures faults_of_err { E.faults err.old ≤ E.faults err.new }
{
    match pour(out, answer.text.as_slice()) {
        Ok(()) => answer.status,
        Err(_) => {
            tell(err, &[b"rp: write failed\n"]);
            Status::WriteFault
        }
    }
}

/// Tells why there is no answer.
fn refuse<E: Sink>(cause: &Cause<'_>, err: &mut E) -> Status
    ensures status { result ≡ status_of_cause cause.now }
    ensures told { Gains (E.written err.old) (E.written err.new)
        (E.faults err.old) (E.faults err.new) (cause_line cause.now) }
    ensures faults_of_err { E.faults err.old ≤ E.faults err.new }
{
    match cause {
        Cause::Read(file) => {
            tell(err, &[b"rp: ", file.as_bytes(), b": read failed\n"]);
            Status::ReadFault
        }
        Cause::Refused(line) => {
            tell(err, &[line.as_slice()]);
            Status::Refused
        }
        Cause::NoMemory => {
            tell(err, &[b"rp: out of memory\n"]);
            Status::NoMemory
        }
    }
}
