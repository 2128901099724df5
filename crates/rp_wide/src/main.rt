//! The command `rp-wide`: it hands the words, the files and the standard streams of the system to
//! `run_wide_with_help`.
#![tactic(auto)]

mod missing;

use missing::tell_missing;
use rp_commands::Status;
use rp_outside::{FileDesk, StdSink};
use rp_run_wide::run_wide_with_help;
use std::env;
use std::io::ErrorKind;
use std::process::ExitCode;

/// The status where the system cannot give the words as text.
const NO_WORDS: u8 = 7;

fn main(rt: HostRuntime) -> ExitCode {
    let words = match env::args(&rt) {
        Ok(words) => words,
        Err(error) => return ExitCode::from(status_without_words(error.kind())),
    };
    let Ok(words) = words.collect::<Vec<String>>(rt.alloc()) else {
        return ExitCode::from(Status::NoMemory.number());
    };
    let mut desk = FileDesk::new(&rt, rt.alloc());
    let mut out = StdSink::new(rt.stdout());
    let mut err = StdSink::new(rt.stderr());
    let status = run_wide_with_help(rt.alloc(), &words, &mut desk, &mut out, &mut err);
    if status == Status::ReadFault {
        tell_missing(&rt, rt.alloc(), words.as_slice(), &mut err);
    }
    ExitCode::from(status.number())
}

/// The status of the program where it did not get its words.
fn status_without_words(kind: ErrorKind) -> u8 {
    match kind {
        ErrorKind::OutOfMemory => Status::NoMemory.number(),
        _ => NO_WORDS,
    }
}
