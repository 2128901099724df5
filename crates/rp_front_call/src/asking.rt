//! What the words and files that were handed over end with.
ghost use Rattle.std.specs.Prelude.{◌≡◌, ◌++◌, [], IfOk, Some, codes, map, option_map, string_bytes};
ghost use Rattle.rp_outside.specs.NamedFile.{named_bytes};
ghost use Rattle.rp_front_call.specs.InnerEndings.{EndsAsRun, EndsFor, TellsUnread, known_in};

use crate::called::CalledProgram;
use crate::ending::Ending;
use crate::running::run_over;
use rp_frame::{Handed, first_missing};
use rp_front::Status;
use rp_num::NoMemory;
use rp_outside::MemFile;
use std::alloc::Global;

/// How a call ended, with what is written and what is told.
#[derive(Drop)]
pub(crate) struct Texts {
    pub(crate) ending: Ending,
    pub(crate) output: Vec<u8>,
    pub(crate) told: Vec<u8>,
}

/// An ending that nothing is written or told of.
pub(crate) fn silent(alloc: Global, ending: Ending) -> Texts
    ensures ending { result.ending ≡ ending }
    ensures output { result.output.items ≡ [] }
    ensures told { result.told.items ≡ [] }
{
    Texts {
        ending,
        output: Vec::new(alloc),
        told: Vec::new(alloc),
    }
}

/// The answer to words over files, or why there is none.
pub(crate) fn answer_handed<P: CalledProgram>(
    alloc: Global,
    handed: Handed,
) -> Result<Texts, NoMemory>
    ensures { IfOk result (λ texts. EndsFor P.meaning
        (map string_bytes handed.words.items) (map named_bytes handed.files.items)
        texts.ending texts.output.items texts.told.items) }
{
    let Handed { words, files } = handed;
    match P::files_of_words(alloc, words.as_slice())? {
        Some(names) => answer_asked::<P>(alloc, &words, names.as_slice(), files),
        None => run_files::<P>(alloc, &words, files),
    }
}

/// The answer to words that ask for these files. One that is not given is told before any file is looked at.
fn answer_asked<P: CalledProgram>(
    alloc: Global,
    words: &Vec<String>,
    names: &[&str],
    files: Vec<MemFile>,
) -> Result<Texts, NoMemory>
    requires { Some (map (λ name. name.now) names.now)
        ≡ option_map P.meaning.files_of (P.meaning.asked_in (map string_bytes words.now.items)) }
    ensures { IfOk result (λ texts. EndsFor P.meaning
        (map string_bytes words.now.items) (map named_bytes files.items)
        texts.ending texts.output.items texts.told.items) }
{
    if files.len() > names.len() {
        return Ok(silent(alloc, Ending::Malformed));
    }
    match first_missing(names, files.as_slice()) {
        Some(place) => unread::<P>(alloc, names[place]),
        None => run_files::<P>(alloc, words, files),
    }
}

/// The answer of a run over files.
fn run_files<P: CalledProgram>(
    alloc: Global,
    words: &Vec<String>,
    files: Vec<MemFile>,
) -> Result<Texts, NoMemory>
    ensures { IfOk result (λ texts. EndsAsRun P.meaning
        (known_in (map named_bytes files.items))
        (P.meaning.asked_in (map string_bytes words.now.items))
        texts.ending texts.output.items texts.told.items) }
{
    let texts = run_over::<P>(alloc, words, files)?;
    Ok(Texts {
        ending: Ending::Ran(texts.status),
        output: texts.output,
        told: texts.told,
    })
}

/// The ending where a file is not given.
fn unread<P: CalledProgram>(alloc: Global, name: &str) -> Result<Texts, NoMemory>
    ensures { IfOk result (λ texts. TellsUnread P.meaning name.now
        texts.ending texts.output.items texts.told.items) }
{
    let told = failed_line(alloc, P::name(), name)?;
    Ok(Texts {
        ending: Ending::Ran(Status::ReadFault),
        output: Vec::new(alloc),
        told,
    })
}

/// The line of a program on a file that could not be read.
fn failed_line(alloc: Global, program: &[u8], name: &str) -> Result<Vec<u8>, NoMemory>
    ensures { IfOk result (λ line. line.items
        ≡ ((program.now ++ codes ": ") ++ name.now) ++ codes ": read failed\n") }
{
    let mut line = Vec::from_slice(alloc, program)?;
    line.extend_from_slice(b": ")?;
    line.extend_from_slice(name.as_bytes())?;
    line.extend_from_slice(b": read failed\n")?;
    Ok(line)
}
