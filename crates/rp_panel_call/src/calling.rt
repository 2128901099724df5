//! The calls of the program of panels.
ghost use Rattle.std.specs.Prelude.{◌≡◌, ◌≢◌};
ghost use Rattle.rp_frame.specs.Frames.{frame_of};
ghost use Rattle.rp_front.specs.declared.status.Status.TheVariants as status;
ghost use Rattle.rp_front_call.specs.CallEndings.{EndsSo, IsDecided};
ghost use Rattle.rp_front_call.specs.NamedFiles.{NamesSo};
ghost use Rattle.rp_front_call.specs.declared.ending.Ending.TheVariants as ending;
ghost use Rattle.rp_panel_run.specs.Front.{front_status, panels};

use rp_frame::TextSink;
use rp_front::Status;
use rp_front_call::{CalledProgram, Ending, answer_call, name_files_of};
use rp_num::NoMemory;
use rp_outside::SureDesk;
use rp_panel_run::{Status as PanelStatus, files_of_words, run_panel};
use std::alloc::Global;

/// The program of panels, as it is called over files in memory.
struct Panels;

impl CalledProgram for Panels {
    ghost use Rattle.rp_panel_run.specs.Front.{panels};
    ghost use Rattle.rp_panel_run.specs.Laws.{answers_accepted, never_both};

    ghost meaning = { panels };

    fn name() -> &'static [u8] {
        b"rp-panel"
    }

    fn memory_line() -> &'static [u8] {
        b"rp-panel: out of memory\n"
    }

    fn files_of_words<'a>(
        alloc: Global,
        words: &'a [String],
    ) -> Result<Option<Vec<&'a str>>, NoMemory> {
        files_of_words(alloc, words)
    }

    fn run(
        alloc: Global,
        words: &Vec<String>,
        desk: &mut SureDesk,
        out: &mut TextSink,
        err: &mut TextSink,
    ) -> Status {
        front_status(run_panel(alloc, words, desk, out, err))
    }

    ghost answers_accepted = { answers_accepted };

    ghost never_both = { never_both };
}

/// The status of a call, as the front has it.
fn front_status(status: PanelStatus) -> Status
    ensures { result ≡ front_status status }
{
    match status {
        PanelStatus::Done => Status::Done,
        PanelStatus::Usage => Status::Usage,
        PanelStatus::ReadFault => Status::ReadFault,
        PanelStatus::Refused => Status::Refused,
        PanelStatus::WriteFault => Status::WriteFault,
        PanelStatus::NoMemory => Status::NoMemory,
    }
}

/// Answers the words of a command line of `rp-panel` over files in memory, as `answer_call` of `rp_front_call` does. A
/// table is never rejected.
pub fn answer_panel(
    alloc: Global,
    words: &[u8],
    names: &[u8],
    sizes: &[u64],
    bytes: &[u8],
    output: &mut [u8],
    told: &mut [u8],
    output_length: &mut u64,
    told_length: &mut u64,
) -> Ending
    ensures ends { EndsSo panels (frame_of words.now names.now sizes.now bytes.now) result
        output.old output.new output_length.new told.old told.new told_length.new }
    ensures decided { IsDecided panels (frame_of words.now names.now sizes.now bytes.now) result }
    ensures never_rejected { result ≢ ending.Ran status.Rejected }
{
    answer_call::<Panels>(
        alloc,
        words,
        names,
        sizes,
        bytes,
        output,
        told,
        output_length,
        told_length,
    )
}

/// Tells the files that the words of a command line of `rp-panel` name, the long file before that of new prices, as
/// `name_files_of` of `rp_front_call` does.
pub fn name_panel_files(
    alloc: Global,
    words: &[u8],
    names: &mut [u8],
    names_length: &mut u64,
) -> Ending
    ensures { NamesSo panels words.now result names.old names.new names_length.new }
{
    name_files_of::<Panels>(alloc, words, names, names_length)
}
