//! A call of the wider edition of the program.
ghost use Rattle.std.specs.Prelude.{◌≡◌, ◌⊎◌, ◌≤◌, ℕ, List, [], ◌∷◌, Some, map, string_bytes};
ghost use Rattle.clap.specs.Faults.{fault_of};
ghost use Rattle.rp_outside.specs.Faults.{HasRisen};
ghost use Rattle.rp_command_line.specs.CommandLine.{Line as Asked};
ghost use Rattle.rp_command_line.specs.Words.{line_in};
ghost use Rattle.rp_command_line.specs.Commands.{program};
ghost use Rattle.rp_command_line.specs.Shapes.{HasShape, shape_of};
ghost use Rattle.rp_commands.specs.Answers.{IsAcceptedBy, IsRefusedBy};
ghost use Rattle.rp_commands.specs.Calls.{AnswersUsage, AsksByName, AsksInTurn, GivesCheckVerdictBy};
ghost use Rattle.rp_commands.specs.Calls.{IsWrittenBy, LeavesTheRest};
ghost use Rattle.rp_commands.specs.Calls.{TellsWhyBy};
ghost use Rattle.rp_commands.specs.Endings.{IsEnd, Rose, NoneRose};
ghost use Rattle.rp_commands.specs.Turns.{AsksForFirst};
ghost use Rattle.rp_run_wide.specs.Filling.{as_filled};

use crate::edition::Filled;
use rp_commands::{Status, run_edition};
use rp_outside::{Desk, Sink};
use std::alloc::Global;

/// Answers the words of a command line as `run` does, with what is withheld filled where evidence is found, and choices
/// whose rational types are not listed answered too.
pub fn run_wide<D: Desk, O: Sink, E: Sink>(
    alloc: Global,
    words: &Vec<String>,
    desk: &mut D,
    out: &mut O,
    err: &mut E,
) -> Status
    // The words.
    ensures words { AnswersUsage (line_in words.now.items) result }
    ensures refused_by_clap { result ≡ Status.Usage
        → ¬ (fault_of program (map string_bytes words.now.items) ≡ []) }
    ensures shapes { (line : Asked) (name : List ℕ) → HasShape line
        → map string_bytes words.now.items ≡ name ∷ shape_of line
        → line_in words.now.items ≡ Some line }

    // The answer, and what the output gains.
    ensures written { IsWrittenBy as_filled (D.bytes desk.old) (line_in words.now.items) result
        (O.written out.old) (O.written out.new) (O.faults out.old) (O.faults out.new) }

    // The checker's verdict on a certificate.
    ensures verdict { GivesCheckVerdictBy as_filled.limits (D.bytes desk.old)
        (line_in words.now.items) result }

    // Why there is no answer.
    ensures why { TellsWhyBy as_filled (D.bytes desk.old)
        (Rose (D.faults desk.old) (D.faults desk.new))
        (AsksForFirst (D.bytes desk.old) (D.calls desk.old) (D.calls desk.new))
        (line_in words.now.items) result
        (E.written err.old) (E.written err.new) (E.faults err.old) (E.faults err.new) }

    // How often the desk is asked for the files of the words, and in which order.
    ensures turns { AsksInTurn (D.bytes desk.old)
        (D.calls desk.old) (D.calls desk.new) (line_in words.now.items) }

    // For which names, and each once.
    ensures names { AsksByName (D.bytes desk.old)
        (D.asked desk.old) (D.asked desk.new) (line_in words.now.items) }

    // When there is one.
    ensures complete { (line : Asked) → line_in words.now.items ≡ Some line
        → IsAcceptedBy as_filled.limits (D.bytes desk.old) line
        → NoneRose line (D.faults desk.old) (D.faults desk.new)
        → ¬ HasRisen (O.faults out.old) (O.faults out.new)
        → IsEnd result ⊎ (result ≡ Status.NoMemory) }
    ensures refused { (line : Asked) → line_in words.now.items ≡ Some line
        → IsRefusedBy as_filled.limits (D.bytes desk.old) line
        → NoneRose line (D.faults desk.old) (D.faults desk.new)
        → (result ≡ Status.Refused) ⊎ (result ≡ Status.NoMemory) }

    // What is left as it was.
    ensures stays { LeavesTheRest (D.bytes desk.old) (D.bytes desk.new)
        (D.faults desk.old) (D.faults desk.new) (O.faults out.old) (O.faults out.new)
        (E.faults err.old) (E.faults err.new) }
{
    run_edition::<Filled, D, O, E>(alloc, words, desk, out, err)
}
