//! A call of the program over an outside that never fails.
ghost use Rattle.std.specs.Prelude.{◌≡◌, ◌⊎◌, Some};
ghost use Rattle.rp_command_line.specs.CommandLine.{Line as Asked};
ghost use Rattle.rp_command_line.specs.Words.{line_in};
ghost use Rattle.rp_commands.specs.Answers.{IsAccepted, IsRefused, all_known};
ghost use Rattle.rp_commands.specs.Calls.{AnswersUsage, AsksInTurn, GivesCheckVerdict, LeavesTheRest};
ghost use Rattle.rp_commands.specs.Endings.{IsEnd};

use crate::running::run;
use rp_answers::Status;
use rp_outside::{SureDesk, SureSink};
use std::alloc::Global;

/// `run` over an outside that never fails: the words and the files alone decide, but for want of memory.
pub fn run_surely(
    alloc: Global,
    words: &Vec<String>,
    desk: &mut SureDesk,
    out: &mut SureSink,
    err: &mut SureSink,
) -> Status
    ensures every_file_is_read { ¬ (result ≡ Status.ReadFault) }
    ensures every_answer_is_written { ¬ (result ≡ Status.WriteFault) }
    ensures words { AnswersUsage (line_in words.now.items) result }
    ensures verdict { GivesCheckVerdict (all_known desk.old) (line_in words.now.items) result }
    ensures turns { AsksInTurn (all_known desk.old)
        desk.old.calls desk.new.calls (line_in words.now.items) }
    ensures stays { LeavesTheRest (all_known desk.old) (all_known desk.new)
        (λ _. 0) (λ _. 0) 0 0 0 0 }
    ensures accepted { (line : Asked) → line_in words.now.items ≡ Some line
        → IsAccepted (all_known desk.old) line
        → IsEnd result ⊎ (result ≡ Status.NoMemory) }
    ensures refused { (line : Asked) → line_in words.now.items ≡ Some line
        → IsRefused (all_known desk.old) line
        → (result ≡ Status.Refused) ⊎ (result ≡ Status.NoMemory) }
{
    run(alloc, words, desk, out, err)
}
