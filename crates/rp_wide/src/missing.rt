//! A file of the words that does not exist.
use rp_command_line::read_line;
use rp_outside::{Sink, pour};
use std::alloc::Global;
use std::fs;
use std::rt::Files;

/// Says which file of the words does not exist, the first one in their order. Nothing is said where all files exist, where
/// the system does not say so, or where memory runs out.
pub(crate) fn tell_missing<R: Files, E: Sink>(
    rt: &R,
    alloc: Global,
    words: &[String],
    err: &mut E,
) {
    let Ok(Some(line)) = read_line(alloc, words) else {
        return;
    };
    for file in line.arguments.files.as_slice() {
        if let Ok(false) = fs::exists(rt, *file) {
            tell(err, file.as_bytes());
            return;
        }
    }
}

/// Writes the note on a file that does not exist, as far as the sink takes it.
fn tell<E: Sink>(err: &mut E, file: &[u8]) {
    let pieces: [&[u8]; 3] = [
        b"note: ",
        file,
        b" does not exist. Check the name and the folder.\n",
    ];
    for piece in pieces {
        let Ok(()) = pour(err, piece) else {
            return;
        };
    }
}
