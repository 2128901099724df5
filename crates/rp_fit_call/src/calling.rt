//! The calls of the program of goodness of fit.
ghost use Rattle.rp_frame.specs.Frames.{frame_of};
ghost use Rattle.rp_fit_answers.specs.GoodnessOfFit.{goodness_of_fit};
ghost use Rattle.rp_front_call.specs.CallEndings.{EndsSo, IsDecided};
ghost use Rattle.rp_front_call.specs.NamedFiles.{NamesSo};

use crate::words::files_of_words;
use rp_fit_run::run_fit;
use rp_frame::TextSink;
use rp_front::Status;
use rp_front_call::{CalledProgram, Ending, answer_call, name_files_of};
use rp_num::NoMemory;
use rp_outside::SureDesk;
use std::alloc::Global;

/// The program of goodness of fit, as it is called over files in memory.
struct GoodnessOfFit;

impl CalledProgram for GoodnessOfFit {
    ghost use Rattle.rp_fit_answers.specs.GoodnessOfFit.{goodness_of_fit};
    ghost use Rattle.rp_fit_answers.proofs.Laws.{answers_accepted, never_both};

    ghost meaning = { goodness_of_fit };

    fn name() -> &'static [u8] {
        b"rp"
    }

    fn memory_line() -> &'static [u8] {
        b"rp: out of memory\n"
    }

    fn files_of_words<'a>(
        alloc: Global,
        words: &'a [String],
    ) -> Result<Option<Vec<&'a str>>, NoMemory> {
        files_of_words(alloc, words)
    }

    fn run(
        alloc: Global,
        words: &Vec<String>,
        desk: &mut SureDesk,
        out: &mut TextSink,
        err: &mut TextSink,
    ) -> Status {
        run_fit::<SureDesk, TextSink, TextSink>(alloc, false, words, desk, out, err)
    }

    ghost answers_accepted = { answers_accepted };

    ghost never_both = { never_both };
}

/// Answers the words of a command line of `fit` or `checkfit`, or of `random` with a limit of steps, over files in memory,
/// as `answer_call` of `rp_front_call` does.
pub fn answer_fit(
    alloc: Global,
    words: &[u8],
    names: &[u8],
    sizes: &[u64],
    bytes: &[u8],
    output: &mut [u8],
    told: &mut [u8],
    output_length: &mut u64,
    told_length: &mut u64,
) -> Ending
    ensures ends { EndsSo goodness_of_fit (frame_of words.now names.now sizes.now bytes.now) result
        output.old output.new output_length.new told.old told.new told_length.new }
    ensures decided { IsDecided goodness_of_fit
        (frame_of words.now names.now sizes.now bytes.now) result }
{
    answer_call::<GoodnessOfFit>(
        alloc,
        words,
        names,
        sizes,
        bytes,
        output,
        told,
        output_length,
        told_length,
    )
}

/// Tells the files that these words name, in their order, as `name_files_of` of `rp_front_call` does.
pub fn name_fit_files(
    alloc: Global,
    words: &[u8],
    names: &mut [u8],
    names_length: &mut u64,
) -> Ending
    ensures { NamesSo goodness_of_fit words.now result names.old names.new names_length.new }
{
    name_files_of::<GoodnessOfFit>(alloc, words, names, names_length)
}
