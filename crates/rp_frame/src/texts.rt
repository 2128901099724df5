//! Words and named files, of pieces that are text.
ghost use Rattle.std.specs.Prelude.{◌≡◌, ◌∷◌, All, IfOk, IfNone, IfSome, IsUtf8, Some, codes, length};
ghost use Rattle.std.specs.Prelude.{map, string_bytes};
ghost use Rattle.rp_outside.specs.NamedFile.{named_bytes};
ghost use Rattle.rp_frame.specs.Frames.{named_parts};

use rp_num::NoMemory;
use rp_outside::MemFile;
use std::alloc::Global;
use std::str;

/// The name of the program, which a command line begins with.
const PROGRAM: &str = "rp";

/// The program's name and then these pieces, or none where one of them is no text.
pub(crate) fn words_of(alloc: Global, pieces: &[&[u8]]) -> Result<Option<Vec<String>>, NoMemory>
    ensures texts { IfOk result (λ words. IfSome words (λ texts. map string_bytes texts.items
        ≡ codes "rp" ∷ map (λ piece. piece.now) pieces.now)) }
    ensures all { IfOk result (λ words.
        IfSome words (λ _. All IsUtf8 (map (λ piece. piece.now) pieces.now))) }
    ensures none { IfOk result (λ words.
        IfNone words (¬ All IsUtf8 (map (λ piece. piece.now) pieces.now))) }
{
    let mut words = Vec::new(alloc);
    words.push(String::from_str(alloc, PROGRAM)?)?;
    for piece in pieces {
        let Ok(text) = str::from_utf8(piece) else {
            return Ok(None);
        };
        words.push(String::from_str(alloc, text)?)?;
    }
    Ok(Some(words))
}

/// The files of these names and bytes, or none where a name is no text.
pub(crate) fn files_of(
    alloc: Global,
    names: &[&[u8]],
    parts: &[&[u8]],
) -> Result<Option<Vec<MemFile>>, NoMemory>
    requires { length names.now ≡ length parts.now }
    ensures files { IfOk result (λ files. IfSome files (λ all.
        named_parts (map (λ name. name.now) names.now) (map (λ part. part.now) parts.now)
        ≡ Some (map named_bytes all.items))) }
    ensures all { IfOk result (λ files.
        IfSome files (λ _. All IsUtf8 (map (λ name. name.now) names.now))) }
    ensures none { IfOk result (λ files.
        IfNone files (¬ All IsUtf8 (map (λ name. name.now) names.now))) }
{
    let mut files = Vec::new(alloc);
    for place in 0..names.len() {
        let Some(file) = file_of(alloc, names[place], parts[place])? else {
            return Ok(None);
        };
        files.push(file)?;
    }
    Ok(Some(files))
}

/// The file of a name and its bytes, or none where the name is no text.
fn file_of(alloc: Global, name: &[u8], part: &[u8]) -> Result<Option<MemFile>, NoMemory>
    ensures file { IfOk result (λ file.
        IfSome file (λ made. named_bytes made ≡ (name.now, part.now))) }
    ensures text { IfOk result (λ file. IfSome file (λ _. IsUtf8 name.now)) }
    ensures none { IfOk result (λ file. IfNone file (¬ IsUtf8 name.now)) }
{
    let Ok(text) = str::from_utf8(name) else {
        return Ok(None);
    };
    let name = String::from_str(alloc, text)?;
    let bytes = Vec::from_slice(alloc, part)?;
    Ok(Some(MemFile { name, bytes }))
}
