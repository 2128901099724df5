//! Which files the words of a program name.
ghost use Rattle.std.specs.Prelude.{◌≡◌, [], IfOk, map, string_bytes};
ghost use Rattle.rp_front_call.specs.NamedFiles.{IsNamingOf, NamesOfAsked, NamesSo};

use crate::called::CalledProgram;
use crate::ending::Ending;
use rp_frame::{FrameFault, end_names, fill, read_frame};
use rp_front::Status;
use rp_num::NoMemory;
use std::alloc::Global;

/// Tells the files that the words of a program name, in the order in which it reads them: the names stand one after
/// the other, each ended by a zero byte, as `answer_call` takes words and names. `words` are those after the program's
/// name. A file that the words name twice is told twice. What has no room in `names` is cut off; `names_length` tells
/// how long all names are.
pub fn name_files_of<P: CalledProgram>(
    alloc: Global,
    words: &[u8],
    names: &mut [u8],
    names_length: &mut u64,
) -> Ending
    ensures { NamesSo P.meaning words.now result names.old names.new names_length.new }
{
    match names_of_words::<P>(alloc, words) {
        Ok(named) => {
            fill(names, named.text.as_slice(), names_length);
            named.ending
        }
        Err(NoMemory) => {
            fill(names, b"", names_length);
            Ending::Ran(Status::NoMemory)
        }
    }
}

/// How a call ends that tells names, and what it tells.
#[derive(Drop)]
struct Named {
    ending: Ending,
    text: Vec<u8>,
}

/// An ending that no name is told of.
fn no_names(alloc: Global, ending: Ending) -> Named
    ensures ending { result.ending ≡ ending }
    ensures text { result.text.items ≡ [] }
{
    Named {
        ending,
        text: Vec::new(alloc),
    }
}

/// The names of the files of words that are handed over, or why there are none.
fn names_of_words<P: CalledProgram>(alloc: Global, words: &[u8]) -> Result<Named, NoMemory>
    ensures { IfOk result (λ named. IsNamingOf P.meaning words.now named.ending named.text.items) }
{
    match read_frame(alloc, words, b"", &[], b"") {
        Ok(handed) => names_of_asked::<P>(alloc, handed.words.as_slice()),
        Err(FrameFault::Malformed) => Ok(no_names(alloc, Ending::Malformed)),
        Err(FrameFault::NoText) => Ok(no_names(alloc, Ending::NoText)),
        Err(FrameFault::NoMemory) => Err(NoMemory),
    }
}

/// The names of the files that words ask for, or none where they ask for nothing.
fn names_of_asked<P: CalledProgram>(alloc: Global, words: &[String]) -> Result<Named, NoMemory>
    ensures { IfOk result (λ named.
        NamesOfAsked P.meaning
        (P.meaning.asked_in (map string_bytes words.now)) named.ending named.text.items) }
{
    match P::files_of_words(alloc, words)? {
        Some(names) => {
            let text = end_names(alloc, names.as_slice())?;
            Ok(Named {
                ending: Ending::Ran(Status::Done),
                text,
            })
        }
        None => Ok(no_names(alloc, Ending::Ran(Status::Usage))),
    }
}
