//! A run of a program over files that are all given.
ghost use Rattle.std.specs.Prelude.{IfOk, map, string_bytes};
ghost use Rattle.rp_outside.specs.NamedFile.{named_bytes};
ghost use Rattle.rp_front_call.specs.InnerEndings.{IsRun, known_in};

use crate::called::CalledProgram;
use rp_frame::TextSink;
use rp_front::Status;
use rp_num::NoMemory;
use rp_outside::{MemFile, SureDesk};
use std::alloc::Global;

/// What a run wrote and told, and its status.
#[derive(Drop)]
pub(crate) struct RunTexts {
    pub(crate) status: Status,
    pub(crate) output: Vec<u8>,
    pub(crate) told: Vec<u8>,
}

/// Runs words over files, of which none is missing that they name.
pub(crate) fn run_over<P: CalledProgram>(
    alloc: Global,
    words: &Vec<String>,
    files: Vec<MemFile>,
) -> Result<RunTexts, NoMemory>
    ensures { IfOk result (λ texts. IsRun P.meaning
        (known_in (map named_bytes files.items))
        (P.meaning.asked_in (map string_bytes words.now.items))
        texts.status texts.output.items texts.told.items) }
{
    let mut desk = SureDesk::new(files);
    let mut out = TextSink::new(alloc);
    let mut err = TextSink::new(alloc);
    let status = P::run(alloc, words, &mut desk, &mut out, &mut err);
    if status == Status::NoMemory || out.faults() > 0 || err.faults() > 0 {
        return Err(NoMemory);
    }
    Ok(RunTexts {
        status,
        output: out.into_bytes(),
        told: err.into_bytes(),
    })
}
