//! What a program is that is called over files in memory.
ghost use Rattle.std.specs.Prelude.{◌≡◌, ℕ, List, IfOk, Some, false, map, option_map, string_bytes};
ghost use Rattle.rp_outside.specs.Faults.{HasRisen};
ghost use Rattle.rp_outside.specs.SureDesk.{bytes_or_none};
ghost use Rattle.rp_front.specs.Calls.{AnswersUsage, IsWritten, TellsWhy};
ghost use Rattle.rp_front.specs.Lines.{memory_line};
ghost use Rattle.rp_front.specs.Meaning.{Meaning};
ghost use Rattle.rp_front.specs.Turns.{AsksForFirst};
ghost use Rattle.rp_front.specs.declared.status.Status.{Status};

use rp_frame::TextSink;
use rp_front::Status;
use rp_num::NoMemory;
use rp_outside::SureDesk;
use std::alloc::Global;

/// A program of `rp_front` without the lifetime of its words, which a call makes itself: what its words ask, the files
/// that they name, and its run.
pub trait CalledProgram {
    /// What the program's words and answers mean.
    ghost meaning: { Meaning };

    /// What each line on standard error begins with.
    fn name() -> &'static [u8]
        ensures { result.now ≡ meaning.name };

    /// The line that is told where memory runs out.
    fn memory_line() -> &'static [u8]
        ensures { result.now ≡ memory_line meaning.name };

    /// The names of the files that words ask for, in their order, or nothing where the words are none that the program
    /// takes.
    fn files_of_words<'a>(
        alloc: Global,
        words: &'a [String],
    ) -> Result<Option<Vec<&'a str>>, NoMemory>
        ensures { IfOk result (λ found.
            option_map (λ names. map (λ name. name.now) names.items) found
            ≡ option_map meaning.files_of (meaning.asked_in (map string_bytes words.now))) };

    /// A run over files that are always read, without hints.
    fn run(
        alloc: Global,
        words: &Vec<String>,
        desk: &mut SureDesk,
        out: &mut TextSink,
        err: &mut TextSink,
    ) -> Status
        ensures words { AnswersUsage (meaning.asked_in (map string_bytes words.now.items)) result }
        ensures written { IsWritten false meaning (λ name. Some (bytes_or_none desk.old name))
            (meaning.asked_in (map string_bytes words.now.items)) result
            (record {
              old = Some out.old.written;
              new = Some out.new.written;
              before = out.old.faults;
              after = out.new.faults;
            })
            (record {
              old = Some err.old.written;
              new = Some err.new.written;
              before = err.old.faults;
              after = err.new.faults;
            }) }
        ensures why { TellsWhy false meaning (λ name. Some (bytes_or_none desk.old name))
            (λ file. HasRisen 0 0)
            (AsksForFirst meaning (λ name. Some (bytes_or_none desk.old name))
            desk.old.calls desk.new.calls)
            (meaning.asked_in (map string_bytes words.now.items)) result
            (record {
              old = Some err.old.written;
              new = Some err.new.written;
              before = err.old.faults;
              after = err.new.faults;
            }) };

    /// What is answered is accepted.
    ghost answers_accepted: { (a : meaning.Asked) (bytes : ℕ → List ℕ) (s : Status)
        (text told : List ℕ) → meaning.answers a bytes s text told → meaning.accepts a bytes };

    /// What is accepted is not refused.
    ghost never_both: { (a : meaning.Asked) (bytes : ℕ → List ℕ) (line : List ℕ)
        → meaning.accepts a bytes → ¬ meaning.refuses a (λ k. Some (bytes k)) line };
}
