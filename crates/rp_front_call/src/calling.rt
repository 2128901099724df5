//! The call.
ghost use Rattle.std.specs.Prelude.{IfOk};
ghost use Rattle.rp_frame.specs.Frames.{frame_of};
ghost use Rattle.rp_front_call.specs.CallEndings.{EndsSo, IsDecided, IsEndingOf};

use crate::asking::{Texts, answer_handed, silent};
use crate::called::CalledProgram;
use crate::ending::Ending;
use rp_frame::{FrameFault, fill, read_frame};
use rp_front::Status;
use rp_num::NoMemory;
use std::alloc::Global;

/// Answers the words of a program over files in memory. `words` are those after the program's name and `names` those
/// of the files, as the words have them, each ended by a zero byte; `sizes` tells how many bytes each file has, in the
/// order of the names, and `bytes` has them one after the other. What the program would write goes to `output` and
/// what it would tell on standard error to `told`, each as far as there is room; how long they are goes to the last
/// two. A file that is given twice counts as it is given first.
pub fn answer_call<P: CalledProgram>(
    alloc: Global,
    words: &[u8],
    names: &[u8],
    sizes: &[u64],
    bytes: &[u8],
    output: &mut [u8],
    told: &mut [u8],
    output_length: &mut u64,
    told_length: &mut u64,
) -> Ending
    ensures ends { EndsSo P.meaning (frame_of words.now names.now sizes.now bytes.now) result
        output.old output.new output_length.new told.old told.new told_length.new }
    ensures decided { IsDecided P.meaning (frame_of words.now names.now sizes.now bytes.now) result }
{
    match answer_frame::<P>(alloc, words, names, sizes, bytes) {
        Ok(texts) => {
            fill(output, texts.output.as_slice(), output_length);
            fill(told, texts.told.as_slice(), told_length);
            texts.ending
        }
        Err(NoMemory) => {
            fill(output, b"", output_length);
            fill(told, P::memory_line(), told_length);
            Ending::Ran(Status::NoMemory)
        }
    }
}

/// The answer to what a frame holds, or why there is none.
fn answer_frame<P: CalledProgram>(
    alloc: Global,
    words: &[u8],
    names: &[u8],
    sizes: &[u64],
    bytes: &[u8],
) -> Result<Texts, NoMemory>
    ensures { IfOk result (λ texts.
        IsEndingOf P.meaning (frame_of words.now names.now sizes.now bytes.now)
        texts.ending texts.output.items texts.told.items) }
{
    match read_frame(alloc, words, names, sizes, bytes) {
        Ok(handed) => answer_handed::<P>(alloc, handed),
        Err(FrameFault::Malformed) => Ok(silent(alloc, Ending::Malformed)),
        Err(FrameFault::NoText) => Ok(silent(alloc, Ending::NoText)),
        Err(FrameFault::NoMemory) => Err(NoMemory),
    }
}
