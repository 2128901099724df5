//! A call of the program `rp-panel`: its help page and its version, and else a table, with a hint after each error.
ghost use Rattle.std.specs.Prelude.{◌≡◌, ◌≢◌, ◌⊎◌, ◌≤◌, ℕ, List, None, Some};
ghost use Rattle.std.specs.Prelude.{codes, map, string_bytes, true};
ghost use Rattle.rp_front.specs.Gains.{GainsBoth};
ghost use Rattle.rp_front.specs.Lines.{hinted};
ghost use Rattle.rp_guide.specs.Codes.{code_of_line};
ghost use Rattle.rp_guide.specs.Gains.{Gains};
ghost use Rattle.rp_guide.specs.Pages.{panel_page};
ghost use Rattle.rp_outside.specs.Faults.{EachStays, HasRisen, NoneFalls};
ghost use Rattle.rp_outside.specs.Known.{Grows, GrowsByPrefix, Stays};
ghost use Rattle.rp_panel_run.specs.Endings.{AnswersWith, GivesPage, IsAccepted, IsRefused, IsUnread};
ghost use Rattle.rp_panel_run.specs.Endings.{NoneRose, RefusesWith};
ghost use Rattle.rp_panel_run.specs.Questions.{Asking, asking_in};
ghost use Rattle.rp_panel_run.specs.Told.{memory_line, usage_line, write_line};
ghost use Rattle.rp_panel_run.specs.Turns.{AsksByName, AsksInTurn};

use crate::Status;
use crate::running::run_panel_by;
use rp_guide::{give_page, panel_page};
use rp_outside::{Desk, Sink};
use std::alloc::Global;

/// Answers the words of a command line as the program `rp-panel` does. `--help` and `--version` write a text to `out`,
/// and no file is read. All other words are answered as by `run_panel`, with a line after each error on `err` that says
/// what to do.
pub fn run_panel_with_help<D: Desk, O: Sink, E: Sink>(
    alloc: Global,
    words: &Vec<String>,
    desk: &mut D,
    out: &mut O,
    err: &mut E,
) -> Status
    // Pages.
    ensures page { (text : List ℕ) → panel_page (map string_bytes words.now.items) ≡ Some text
        → GivesPage text result
        (record {
          old = O.written out.old;
          new = O.written out.new;
          before = O.faults out.old;
          after = O.faults out.new;
        })
        (record {
          old = E.written err.old;
          new = E.written err.new;
          before = E.faults err.old;
          after = E.faults err.new;
        }) }
    ensures nothing_read { (text : List ℕ)
        → panel_page (map string_bytes words.now.items) ≡ Some text → desk.new ≡ desk.old }

    // All other words.
    ensures usage { panel_page (map string_bytes words.now.items) ≡ None
        → result ≡ Status.Usage → (asking_in (map string_bytes words.now.items) ≡ None)
        × Gains (E.written err.old) (E.written err.new)
        (E.faults err.old) (E.faults err.new) (hinted true (codes "Usage") usage_line) }
    ensures asked { panel_page (map string_bytes words.now.items) ≡ None
        → result ≢ Status.Usage → result ≢ Status.NoMemory
        → (a : Asking) × (asking_in (map string_bytes words.now.items) ≡ Some a) }

    // The table.
    ensures written { panel_page (map string_bytes words.now.items) ≡ None
        → result ≡ Status.Done → (a : Asking) × (text : List ℕ) × (told : List ℕ)
        × (asking_in (map string_bytes words.now.items) ≡ Some a)
        × AnswersWith a (D.bytes desk.old) text told
        × Grows (O.written out.old) (O.written out.new) text
        × Gains (E.written err.old) (E.written err.new)
        (E.faults err.old) (E.faults err.new) told }
    ensures cut_short { panel_page (map string_bytes words.now.items) ≡ None
        → result ≡ Status.WriteFault
        → (a : Asking) × (text : List ℕ) × (told : List ℕ)
        × (asking_in (map string_bytes words.now.items) ≡ Some a)
        × AnswersWith a (D.bytes desk.old) text told
        × GrowsByPrefix (O.written out.old) (O.written out.new) text
        × HasRisen (O.faults out.old) (O.faults out.new)
        × GainsBoth (E.written err.old) (E.written err.new)
        (E.faults err.old) (E.faults err.new) told (hinted true (codes "WriteFault") write_line) }
    ensures silent { panel_page (map string_bytes words.now.items) ≡ None
        → result ≢ Status.Done → result ≢ Status.WriteFault
        → Stays (O.written out.old) (O.written out.new) }

    // Why there is none.
    ensures refused { panel_page (map string_bytes words.now.items) ≡ None
        → result ≡ Status.Refused → (a : Asking) × (line : List ℕ)
        × (asking_in (map string_bytes words.now.items) ≡ Some a)
        × RefusesWith a (D.bytes desk.old) line
        × Gains (E.written err.old) (E.written err.new)
        (E.faults err.old) (E.faults err.new) (hinted true (code_of_line line) line) }
    ensures read_fault { panel_page (map string_bytes words.now.items) ≡ None
        → result ≡ Status.ReadFault → (a : Asking) × (line : List ℕ)
        × (asking_in (map string_bytes words.now.items) ≡ Some a)
        × IsUnread a (D.bytes desk.old) (D.faults desk.old) (D.faults desk.new) line
        × Gains (E.written err.old) (E.written err.new)
        (E.faults err.old) (E.faults err.new) (hinted true (codes "ReadFault") line) }
    ensures no_memory { panel_page (map string_bytes words.now.items) ≡ None
        → result ≡ Status.NoMemory → Gains (E.written err.old) (E.written err.new)
        (E.faults err.old) (E.faults err.new) (hinted true (codes "NoMemory") memory_line) }

    // When there is one.
    ensures complete { panel_page (map string_bytes words.now.items) ≡ None
        → (a : Asking) → asking_in (map string_bytes words.now.items) ≡ Some a
        → IsAccepted a (D.bytes desk.old)
        → NoneRose a (D.faults desk.old) (D.faults desk.new)
        → ¬ HasRisen (O.faults out.old) (O.faults out.new)
        → (result ≡ Status.Done) ⊎ (result ≡ Status.NoMemory) }
    ensures refuses { panel_page (map string_bytes words.now.items) ≡ None
        → (a : Asking) → asking_in (map string_bytes words.now.items) ≡ Some a
        → IsRefused a (D.bytes desk.old)
        → NoneRose a (D.faults desk.old) (D.faults desk.new)
        → (result ≡ Status.Refused) ⊎ (result ≡ Status.NoMemory) }

    // How often the desk is asked for the files of the words, and in which order.
    ensures turns { panel_page (map string_bytes words.now.items) ≡ None
        → AsksInTurn (D.bytes desk.old) (D.calls desk.old) (D.calls desk.new)
        (asking_in (map string_bytes words.now.items)) }

    // For which names, and each once.
    ensures names { panel_page (map string_bytes words.now.items) ≡ None
        → AsksByName (D.bytes desk.old) (D.asked desk.old) (D.asked desk.new)
        (asking_in (map string_bytes words.now.items)) }

    // What stays.
    ensures bytes_stay { panel_page (map string_bytes words.now.items) ≡ None
        → EachStays (D.bytes desk.old) (D.bytes desk.new) }
    ensures files_counts { panel_page (map string_bytes words.now.items) ≡ None
        → NoneFalls (D.faults desk.old) (D.faults desk.new) }
    ensures out_counts { panel_page (map string_bytes words.now.items) ≡ None
        → O.faults out.old ≤ O.faults out.new }
    ensures err_counts { panel_page (map string_bytes words.now.items) ≡ None
        → E.faults err.old ≤ E.faults err.new }
{
    match panel_page(words.as_slice()) {
        Some(text) => answer_page(text, out, err),
        None => run_panel_by(alloc, true, words, desk, out, err),
    }
}

/// Writes a page, or tells that it could not be written.
fn answer_page<O: Sink, E: Sink>(text: &[u8], out: &mut O, err: &mut E) -> Status
    ensures { GivesPage text.now result
        (record {
          old = O.written out.old;
          new = O.written out.new;
          before = O.faults out.old;
          after = O.faults out.new;
        })
        (record {
          old = E.written err.old;
          new = E.written err.new;
          before = E.faults err.old;
          after = E.faults err.new;
        }) }
{
    let done = give_page(text, b"rp-panel: write failed\n", out, err);
    if done {
        Status::Done
    } else {
        Status::WriteFault
    }
}
