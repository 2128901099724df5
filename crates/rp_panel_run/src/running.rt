//! A call of the program: its words, the table of the files that they name, and what is written and told.
ghost use Rattle.std.specs.Prelude.{◌≡◌, ◌≢◌, ◌⊎◌, ◌≤◌, ℕ, List, None, Some};
ghost use Rattle.std.specs.Prelude.{codes, map, string_bytes};
ghost use Rattle.rp_front.specs.Gains.{GainsBoth};
ghost use Rattle.rp_front.specs.Lines.{hinted};
ghost use Rattle.rp_guide.specs.Codes.{code_of_line};
ghost use Rattle.rp_guide.specs.Gains.{Gains};
ghost use Rattle.rp_outside.specs.Faults.{EachStays, HasRisen, NoneFalls};
ghost use Rattle.rp_outside.specs.Known.{Grows, GrowsByPrefix, Stays};
ghost use Rattle.rp_panel_run.specs.Endings.{AnswersWith, IsAccepted, IsRefused, IsUnread};
ghost use Rattle.rp_panel_run.specs.Endings.{NoneRose, RefusesWith};
ghost use Rattle.rp_panel_run.specs.Front.{front_status};
ghost use Rattle.rp_panel_run.specs.Questions.{Asking, asking_in};
ghost use Rattle.rp_panel_run.specs.Told.{memory_line, usage_line, write_line};
ghost use Rattle.rp_panel_run.specs.Turns.{AsksByName, AsksInTurn};

use crate::Status;
use crate::program::Panels;
use rp_front::{Status as FrontStatus, run_program};
use rp_outside::{Desk, Sink};
use std::alloc::Global;

/// What is told where the words are none that the program takes.
pub(crate) const USAGE: &[u8] =
    b"usage: rp-panel LONG [--id NAME] [--keep NAME].. [--pump] [--power DRAWS SEED] [--intercepts] [--wide]\n\
    \x20      rp-panel LONG [--id NAME] [--keep NAME].. (--demand | --welfare) NEW [--wide]\n";

/// Answers the words of a command line over the files of a desk: a row for each household of the long file that they
/// name, or its lines of bounds at the new prices of a second file. The table goes to `out`. What goes to `err`, whose
/// failures change no status, is a line for each column that is left out, before the table is written, or the reason why
/// there is none.
pub fn run_panel<D: Desk, O: Sink, E: Sink>(
    alloc: Global,
    words: &Vec<String>,
    desk: &mut D,
    out: &mut O,
    err: &mut E,
) -> Status
    // The words.
    ensures usage { result ≡ Status.Usage → (asking_in (map string_bytes words.now.items) ≡ None)
        × Gains (E.written err.old) (E.written err.new)
        (E.faults err.old) (E.faults err.new) usage_line }
    ensures asked { result ≢ Status.Usage → result ≢ Status.NoMemory
        → (a : Asking) × (asking_in (map string_bytes words.now.items) ≡ Some a) }

    // The table.
    ensures written { result ≡ Status.Done → (a : Asking) × (text : List ℕ) × (told : List ℕ)
        × (asking_in (map string_bytes words.now.items) ≡ Some a)
        × AnswersWith a (D.bytes desk.old) text told
        × Grows (O.written out.old) (O.written out.new) text
        × Gains (E.written err.old) (E.written err.new)
        (E.faults err.old) (E.faults err.new) told }
    ensures cut_short { result ≡ Status.WriteFault
        → (a : Asking) × (text : List ℕ) × (told : List ℕ)
        × (asking_in (map string_bytes words.now.items) ≡ Some a)
        × AnswersWith a (D.bytes desk.old) text told
        × GrowsByPrefix (O.written out.old) (O.written out.new) text
        × HasRisen (O.faults out.old) (O.faults out.new)
        × GainsBoth (E.written err.old) (E.written err.new)
        (E.faults err.old) (E.faults err.new) told write_line }
    ensures silent { result ≢ Status.Done → result ≢ Status.WriteFault
        → Stays (O.written out.old) (O.written out.new) }

    // Why there is none.
    ensures refused { result ≡ Status.Refused → (a : Asking) × (line : List ℕ)
        × (asking_in (map string_bytes words.now.items) ≡ Some a)
        × RefusesWith a (D.bytes desk.old) line
        × Gains (E.written err.old) (E.written err.new)
        (E.faults err.old) (E.faults err.new) line }
    ensures read_fault { result ≡ Status.ReadFault → (a : Asking) × (line : List ℕ)
        × (asking_in (map string_bytes words.now.items) ≡ Some a)
        × IsUnread a (D.bytes desk.old) (D.faults desk.old) (D.faults desk.new) line
        × Gains (E.written err.old) (E.written err.new)
        (E.faults err.old) (E.faults err.new) line }
    ensures no_memory { result ≡ Status.NoMemory → Gains (E.written err.old) (E.written err.new)
        (E.faults err.old) (E.faults err.new) memory_line }

    // When there is one.
    ensures complete { (a : Asking) → asking_in (map string_bytes words.now.items) ≡ Some a
        → IsAccepted a (D.bytes desk.old)
        → NoneRose a (D.faults desk.old) (D.faults desk.new)
        → ¬ HasRisen (O.faults out.old) (O.faults out.new)
        → (result ≡ Status.Done) ⊎ (result ≡ Status.NoMemory) }
    ensures refuses { (a : Asking) → asking_in (map string_bytes words.now.items) ≡ Some a
        → IsRefused a (D.bytes desk.old)
        → NoneRose a (D.faults desk.old) (D.faults desk.new)
        → (result ≡ Status.Refused) ⊎ (result ≡ Status.NoMemory) }

    // How often the desk is asked for the files of the words, and in which order.
    ensures turns { AsksInTurn (D.bytes desk.old) (D.calls desk.old) (D.calls desk.new)
        (asking_in (map string_bytes words.now.items)) }

    // For which names, and each once.
    ensures names { AsksByName (D.bytes desk.old) (D.asked desk.old) (D.asked desk.new)
        (asking_in (map string_bytes words.now.items)) }

    // What stays.
    ensures bytes_stay { EachStays (D.bytes desk.old) (D.bytes desk.new) }
    ensures files_counts { NoneFalls (D.faults desk.old) (D.faults desk.new) }
    ensures out_counts { O.faults out.old ≤ O.faults out.new }
    ensures err_counts { E.faults err.old ≤ E.faults err.new }
{
    run_panel_by(alloc, false, words, desk, out, err)
}

/// Answers as `run_panel` does, and follows each error with a hint where hints are wanted.
pub(crate) fn run_panel_by<D: Desk, O: Sink, E: Sink>(
    alloc: Global,
    hints: bool,
    words: &Vec<String>,
    desk: &mut D,
    out: &mut O,
    err: &mut E,
) -> Status
    // The words.
    ensures usage { result ≡ Status.Usage → (asking_in (map string_bytes words.now.items) ≡ None)
        × Gains (E.written err.old) (E.written err.new)
        (E.faults err.old) (E.faults err.new) (hinted hints (codes "Usage") usage_line) }
    ensures asked { result ≢ Status.Usage → result ≢ Status.NoMemory
        → (a : Asking) × (asking_in (map string_bytes words.now.items) ≡ Some a) }

    // The table.
    ensures written { result ≡ Status.Done → (a : Asking) × (text : List ℕ) × (told : List ℕ)
        × (asking_in (map string_bytes words.now.items) ≡ Some a)
        × AnswersWith a (D.bytes desk.old) text told
        × Grows (O.written out.old) (O.written out.new) text
        × Gains (E.written err.old) (E.written err.new)
        (E.faults err.old) (E.faults err.new) told }
    ensures cut_short { result ≡ Status.WriteFault
        → (a : Asking) × (text : List ℕ) × (told : List ℕ)
        × (asking_in (map string_bytes words.now.items) ≡ Some a)
        × AnswersWith a (D.bytes desk.old) text told
        × GrowsByPrefix (O.written out.old) (O.written out.new) text
        × HasRisen (O.faults out.old) (O.faults out.new)
        × GainsBoth (E.written err.old) (E.written err.new)
        (E.faults err.old) (E.faults err.new)
        told (hinted hints (codes "WriteFault") write_line) }
    ensures silent { result ≢ Status.Done → result ≢ Status.WriteFault
        → Stays (O.written out.old) (O.written out.new) }

    // Why there is none.
    ensures refused { result ≡ Status.Refused → (a : Asking) × (line : List ℕ)
        × (asking_in (map string_bytes words.now.items) ≡ Some a)
        × RefusesWith a (D.bytes desk.old) line
        × Gains (E.written err.old) (E.written err.new)
        (E.faults err.old) (E.faults err.new) (hinted hints (code_of_line line) line) }
    ensures read_fault { result ≡ Status.ReadFault → (a : Asking) × (line : List ℕ)
        × (asking_in (map string_bytes words.now.items) ≡ Some a)
        × IsUnread a (D.bytes desk.old) (D.faults desk.old) (D.faults desk.new) line
        × Gains (E.written err.old) (E.written err.new)
        (E.faults err.old) (E.faults err.new) (hinted hints (codes "ReadFault") line) }
    ensures no_memory { result ≡ Status.NoMemory → Gains (E.written err.old) (E.written err.new)
        (E.faults err.old) (E.faults err.new) (hinted hints (codes "NoMemory") memory_line) }

    // When there is one.
    ensures complete { (a : Asking) → asking_in (map string_bytes words.now.items) ≡ Some a
        → IsAccepted a (D.bytes desk.old)
        → NoneRose a (D.faults desk.old) (D.faults desk.new)
        → ¬ HasRisen (O.faults out.old) (O.faults out.new)
        → (result ≡ Status.Done) ⊎ (result ≡ Status.NoMemory) }
    ensures refuses { (a : Asking) → asking_in (map string_bytes words.now.items) ≡ Some a
        → IsRefused a (D.bytes desk.old)
        → NoneRose a (D.faults desk.old) (D.faults desk.new)
        → (result ≡ Status.Refused) ⊎ (result ≡ Status.NoMemory) }

    // How often the desk is asked for the files of the words, and in which order.
    ensures turns { AsksInTurn (D.bytes desk.old) (D.calls desk.old) (D.calls desk.new)
        (asking_in (map string_bytes words.now.items)) }

    // For which names, and each once.
    ensures names { AsksByName (D.bytes desk.old) (D.asked desk.old) (D.asked desk.new)
        (asking_in (map string_bytes words.now.items)) }

    // What stays.
    ensures bytes_stay { EachStays (D.bytes desk.old) (D.bytes desk.new) }
    ensures files_counts { NoneFalls (D.faults desk.old) (D.faults desk.new) }
    ensures out_counts { O.faults out.old ≤ O.faults out.new }
    ensures err_counts { E.faults err.old ≤ E.faults err.new }
{
    own_status(run_program::<Panels, D, O, E>(alloc, hints, words, desk, out, err))
}

/// The status of a call, which never rejects.
fn own_status(status: FrontStatus) -> Status
    requires { status ≢ FrontStatus.Rejected }
    ensures { front_status result ≡ status }
{
    match status {
        FrontStatus::Done => Status::Done,
        FrontStatus::Rejected => unreachable!(),
        FrontStatus::Usage => Status::Usage,
        FrontStatus::ReadFault => Status::ReadFault,
        FrontStatus::Refused => Status::Refused,
        FrontStatus::WriteFault => Status::WriteFault,
        FrontStatus::NoMemory => Status::NoMemory,
    }
}
