//! What a caller hands over.

ghost use Rattle.std.specs.Prelude.{◌≡◌, None, Some, IfOk, IsErrOf};
ghost use Rattle.rp_frame.specs.Frames.{Request, frame_of, request_in};
ghost use Rattle.rp_frame.specs.Handed.{Holds, IsText};
ghost use Rattle.rp_frame.specs.declared.handed.FrameFault.TheVariants as fault;

use crate::parts::read_parts;
use crate::pieces::read_pieces;
use crate::texts::{files_of, words_of};
use rp_num::NoMemory;
use rp_outside::MemFile;
use std::alloc::Global;

/// The words of a command line, of which the first is the program's name, and files in memory.
#[derive(Drop)]
pub struct Handed {
    pub words: Vec<String>,
    pub files: Vec<MemFile>,
}

/// Why nothing was read.
#[derive(Clone, Copy, Debug, PartialEq, Eq)]
pub enum FrameFault {
    /// A piece is not ended, there are not as many names as sizes, or the sizes are not those of the bytes.
    Malformed,
    /// A word, or a name of a file, is no text.
    NoText,
    /// Memory ran out.
    NoMemory,
}

impl From<NoMemory> for FrameFault {
    ghost from_gives = { λ _ f. f ≡ fault.NoMemory };

    fn from(_error: NoMemory) -> FrameFault {
        FrameFault::NoMemory
    }
}

/// The words and the files that are handed over as bytes: words and names of files each ended by a zero byte, the
/// sizes of the files in the order of the names, and their bytes one after the other.
pub fn read_frame(
    alloc: Global,
    words: &[u8],
    names: &[u8],
    sizes: &[u64],
    bytes: &[u8],
) -> Result<Handed, FrameFault>
    ensures held { IfOk result (λ handed. (request : Request) × Holds handed request
        × IsText request
        × (request_in (frame_of words.now names.now sizes.now bytes.now) ≡ Some request)) }
    ensures malformed { IsErrOf result FrameFault.Malformed
        → request_in (frame_of words.now names.now sizes.now bytes.now) ≡ None }
    ensures no_text { IsErrOf result FrameFault.NoText → (request : Request) × ¬ IsText request
        × (request_in (frame_of words.now names.now sizes.now bytes.now) ≡ Some request) }
{
    let pieces = read_pieces(alloc, words)?;
    let named = read_pieces(alloc, names)?;
    let parts = read_parts(alloc, sizes, bytes)?;
    let (Some(pieces), Some(named), Some(parts)) = (pieces, named, parts) else {
        return Err(FrameFault::Malformed);
    };
    if named.len() != parts.len() {
        return Err(FrameFault::Malformed);
    }
    let Some(words) = words_of(alloc, pieces.as_slice())? else {
        return Err(FrameFault::NoText);
    };
    let Some(files) = files_of(alloc, named.as_slice(), parts.as_slice())? else {
        return Err(FrameFault::NoText);
    };
    Ok(Handed { words, files })
}
