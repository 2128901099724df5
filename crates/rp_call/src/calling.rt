//! The call.
ghost use Rattle.std.specs.Prelude.{IfOk};
ghost use Rattle.rp_frame.specs.Frames.{frame_of};
ghost use Rattle.rp_call.specs.CallEndings.{EndsSo, EndsSoBy, IsDecided, IsDecidedBy};
ghost use Rattle.rp_call.specs.CallEndings.{IsEndingOf};

use crate::asking::{Texts, answer_handed, silent};
use crate::ending::Ending;
use rp_answers::{AsStated, Edition};
use rp_commands::Status;
use rp_frame::{FrameFault, fill, read_frame};
use rp_num::NoMemory;
use std::alloc::Global;

/// Answers the words of a command line over files in memory. `words` are those after the program's name and `names` those
/// of the files, as the words have them, each ended by a zero byte; `sizes` tells how many bytes each file has, in the
/// order of the names, and `bytes` has them one after the other. What the program would write goes to `output` and what
/// it would tell on standard error to `told`, each as far as there is room; how long they are goes to the last two.
/// A file that is given twice counts as it is given first.
pub fn answer(
    alloc: Global,
    words: &[u8],
    names: &[u8],
    sizes: &[u64],
    bytes: &[u8],
    output: &mut [u8],
    told: &mut [u8],
    output_length: &mut u64,
    told_length: &mut u64,
) -> Ending
    ensures ends { EndsSo (frame_of words.now names.now sizes.now bytes.now) result
        output.old output.new output_length.new told.old told.new told_length.new }
    ensures decided { IsDecided (frame_of words.now names.now sizes.now bytes.now) result }
{
    answer_edition::<AsStated>(
        alloc,
        words,
        names,
        sizes,
        bytes,
        output,
        told,
        output_length,
        told_length,
    )
}

/// Answers words over files in memory as `answer` does, by any edition of the program, whose texts these are.
pub fn answer_edition<P: Edition>(
    alloc: Global,
    words: &[u8],
    names: &[u8],
    sizes: &[u64],
    bytes: &[u8],
    output: &mut [u8],
    told: &mut [u8],
    output_length: &mut u64,
    told_length: &mut u64,
) -> Ending
    ensures ends { EndsSoBy P.printed (frame_of words.now names.now sizes.now bytes.now) result
        output.old output.new output_length.new told.old told.new told_length.new }
    ensures decided { IsDecidedBy P.printed (frame_of words.now names.now sizes.now bytes.now)
        result }
{
    match answer_frame::<P>(alloc, words, names, sizes, bytes) {
        Ok(texts) => {
            fill(output, texts.output.as_slice(), output_length);
            fill(told, texts.told.as_slice(), told_length);
            texts.ending
        }
        Err(NoMemory) => {
            fill(output, b"", output_length);
            fill(told, b"rp: out of memory\n", told_length);
            Ending::Ran(Status::NoMemory)
        }
    }
}

/// The answer to what a frame holds, or why there is none.
fn answer_frame<P: Edition>(
    alloc: Global,
    words: &[u8],
    names: &[u8],
    sizes: &[u64],
    bytes: &[u8],
) -> Result<Texts, NoMemory>
    ensures { IfOk result (λ texts.
        IsEndingOf P.printed (frame_of words.now names.now sizes.now bytes.now)
        texts.ending texts.output.items texts.told.items) }
{
    match read_frame(alloc, words, names, sizes, bytes) {
        Ok(handed) => answer_handed::<P>(alloc, handed),
        Err(FrameFault::Malformed) => Ok(silent(alloc, Ending::Malformed)),
        Err(FrameFault::NoText) => Ok(silent(alloc, Ending::NoText)),
        Err(FrameFault::NoMemory) => Err(NoMemory),
    }
}
