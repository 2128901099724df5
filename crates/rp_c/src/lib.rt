//! The suite as a library that programs in C call: one function over files in memory for each edition of the program and
//! one for panels, and two that tell which files the words name. They hand their arguments to the library crates of the
//! same calls, and state those contracts again. Words of `fit` and `checkfit` have a crate of their own.
#![tactic(auto)]

ghost use Rattle.std.specs.Prelude.{◌≡◌, ◌≢◌, false, pos, true};
ghost use Rattle.rp_frame.specs.Frames.{frame_of};
ghost use Rattle.rp_call.specs.CallEndings.{EndsSo, EndsSoBy, IsDecided, IsDecidedBy};
ghost use Rattle.rp_call.specs.CallEndings.{ending_number};
ghost use Rattle.rp_call.specs.NamedFiles.{NamesSo};
ghost use Rattle.rp_call.specs.declared.ending.Ending.{Ending};
ghost use Rattle.rp_fit_answers.specs.GoodnessOfFit.{goodness_of_fit};
ghost use Rattle.rp_fit_call.specs.FitWords.{asks_fit};
ghost use Rattle.rp_front.specs.declared.status.Status.TheVariants as status;
ghost use Rattle.rp_front_call.specs.CallEndings as Calls;
ghost use Rattle.rp_front_call.specs.NamedFiles as CallNames;
ghost use Rattle.rp_front_call.specs.declared.ending.Ending as Called;
ghost use Rattle.rp_front_call.specs.declared.ending.Ending.TheVariants as called;
ghost use Rattle.rp_panel_run.specs.Front.{panels};
ghost use Rattle.rp_run_wide.specs.Filling.{as_filled};

use rp_call::{answer, answer_edition, name_files};
use rp_fit_call::{answer_fit, asks_fit, name_fit_files};
use rp_panel_call::{answer_panel, name_panel_files};
use rp_run_wide::Filled;
use std::alloc::Global;

/// The answer to the words of a command line over files in memory, as `rp.h` tells; the status is the result.
#[unsafe(no_mangle)]
pub extern "C" fn rp_answer(
    alloc: Global,
    words: &[u8],
    names: &[u8],
    sizes: &[u64],
    bytes: &[u8],
    output: &mut [u8],
    told: &mut [u8],
    output_length: &mut u64,
    told_length: &mut u64,
) -> i32
    ensures { (ending : Ending) × (result ≡ pos (ending_number ending))
        × EndsSo (frame_of words.now names.now sizes.now bytes.now) ending
        output.old output.new output_length.new told.old told.new told_length.new
        × IsDecided (frame_of words.now names.now sizes.now bytes.now) ending }
{
    answer(
        alloc,
        words,
        names,
        sizes,
        bytes,
        output,
        told,
        output_length,
        told_length,
    )
    .number()
}

/// The answer of `rp-wide`, which fills what is withheld, to the words of a command line over files in memory. Words of
/// `fit` and `checkfit` are answered too.
#[unsafe(no_mangle)]
pub extern "C" fn rp_answer_wide(
    alloc: Global,
    words: &[u8],
    names: &[u8],
    sizes: &[u64],
    bytes: &[u8],
    output: &mut [u8],
    told: &mut [u8],
    output_length: &mut u64,
    told_length: &mut u64,
) -> i32
    ensures answers { asks_fit words.now ≡ false
        → (ending : Ending) × (result ≡ pos (ending_number ending))
        × EndsSoBy as_filled (frame_of words.now names.now sizes.now bytes.now) ending
        output.old output.new output_length.new told.old told.new told_length.new
        × IsDecidedBy as_filled (frame_of words.now names.now sizes.now bytes.now) ending }
    ensures answers_on_fit { asks_fit words.now ≡ true
        → (ending : Called.Ending) × (result ≡ pos (Calls.ending_number ending))
        × Calls.EndsSo goodness_of_fit (frame_of words.now names.now sizes.now bytes.now) ending
        output.old output.new output_length.new told.old told.new told_length.new
        × Calls.IsDecided goodness_of_fit
        (frame_of words.now names.now sizes.now bytes.now) ending }
{
    if asks_fit(words) {
        return answer_fit(
            alloc,
            words,
            names,
            sizes,
            bytes,
            output,
            told,
            output_length,
            told_length,
        )
        .number();
    }
    answer_edition::<Filled>(
        alloc,
        words,
        names,
        sizes,
        bytes,
        output,
        told,
        output_length,
        told_length,
    )
    .number()
}

/// The answer to the words of `rp-panel` over a long file in memory, as `rp.h` tells; the status is the result.
#[unsafe(no_mangle)]
pub extern "C" fn rp_panel(
    alloc: Global,
    words: &[u8],
    names: &[u8],
    sizes: &[u64],
    bytes: &[u8],
    output: &mut [u8],
    told: &mut [u8],
    output_length: &mut u64,
    told_length: &mut u64,
) -> i32
    ensures { (ending : Called.Ending) × (result ≡ pos (Calls.ending_number ending))
        × Calls.EndsSo panels (frame_of words.now names.now sizes.now bytes.now) ending
        output.old output.new output_length.new told.old told.new told_length.new
        × Calls.IsDecided panels (frame_of words.now names.now sizes.now bytes.now) ending
        × (ending ≢ called.Ran status.Rejected) }
{
    answer_panel(
        alloc,
        words,
        names,
        sizes,
        bytes,
        output,
        told,
        output_length,
        told_length,
    )
    .number()
}

/// The names of the files that the words of a command line name, as `rp.h` tells; the status is the result.
#[unsafe(no_mangle)]
pub extern "C" fn rp_files(
    alloc: Global,
    words: &[u8],
    names: &mut [u8],
    names_length: &mut u64,
) -> i32
    ensures names { asks_fit words.now ≡ false
        → (ending : Ending) × (result ≡ pos (ending_number ending))
        × NamesSo words.now ending names.old names.new names_length.new }
    ensures names_on_fit { asks_fit words.now ≡ true
        → (ending : Called.Ending) × (result ≡ pos (Calls.ending_number ending))
        × CallNames.NamesSo goodness_of_fit words.now ending names.old names.new names_length.new }
{
    if asks_fit(words) {
        return name_fit_files(alloc, words, names, names_length).number();
    }
    name_files(alloc, words, names, names_length).number()
}

/// The names of the files that the words of `rp-panel` name, as `rp.h` tells; the status is the result.
#[unsafe(no_mangle)]
pub extern "C" fn rp_panel_files(
    alloc: Global,
    words: &[u8],
    names: &mut [u8],
    names_length: &mut u64,
) -> i32
    ensures { (ending : Called.Ending) × (result ≡ pos (Calls.ending_number ending))
        × CallNames.NamesSo panels words.now ending names.old names.new names_length.new }
{
    name_panel_files(alloc, words, names, names_length).number()
}
