//! A run of an edition of the program over files that are all given.
ghost use Rattle.std.specs.Prelude.{IfOk, map};
ghost use Rattle.rp_outside.specs.NamedFile.{named_bytes};
ghost use Rattle.rp_command_line.specs.Words.{line_in};
ghost use Rattle.rp_call.specs.RunEndings.{IsRun, known_in};

use rp_answers::Edition;
use rp_commands::{Status, run_edition};
use rp_frame::TextSink;
use rp_num::NoMemory;
use rp_outside::{MemFile, SureDesk};
use std::alloc::Global;

/// What a run wrote and told, and its status.
#[derive(Drop)]
pub(crate) struct RunTexts {
    pub(crate) status: Status,
    pub(crate) output: Vec<u8>,
    pub(crate) told: Vec<u8>,
}

/// Runs words over files, of which none is missing that they name.
pub(crate) fn run_over<P: Edition>(
    alloc: Global,
    words: &Vec<String>,
    files: Vec<MemFile>,
) -> Result<RunTexts, NoMemory>
    ensures { IfOk result (λ texts.
        IsRun P.printed (known_in (map named_bytes files.items)) (line_in words.now.items)
        texts.status texts.output.items texts.told.items) }
{
    let mut desk = SureDesk::new(files);
    let mut out = TextSink::new(alloc);
    let mut err = TextSink::new(alloc);
    let status = run_edition::<P, SureDesk, TextSink, TextSink>(
        alloc, words, &mut desk, &mut out, &mut err,
    );
    if status == Status::NoMemory || out.faults() > 0 || err.faults() > 0 {
        return Err(NoMemory);
    }
    Ok(RunTexts {
        status,
        output: out.into_bytes(),
        told: err.into_bytes(),
    })
}
