//! Files in memory that are always read, and what is always written.
ghost use Rattle.std.specs.Prelude.{◌≡◌, None, Ok, Some, IfOk, IsOk, length, map};
ghost use Rattle.rp_outside.specs.Faults.{next_count};
ghost use Rattle.rp_outside.specs.Files.{ReadsAll};
ghost use Rattle.rp_outside.specs.NamedFile.{named_bytes};
ghost use Rattle.rp_outside.specs.SureDesk.{after_sure_read, bytes_or_none};

use crate::desks::{Desk, DeskFault};
use crate::memory_files::{MemFile, read_file};
use crate::sinks::{Failed, Sink};
use std::marker::Model;

/// Files in memory that are always read. A contract sees them and how many calls there were. A name
/// that it has not is read as empty, and known to be.
#[derive(Debug, Drop)]
pub struct SureDesk {
    files: Vec<MemFile>,
    calls: u64,
}

impl Model for SureDesk {
    ghost use Rattle.std.specs.Prelude.{map};
    ghost use Rattle.rp_outside.specs.NamedFile.{named_bytes};
    ghost use Rattle.rp_outside.specs.SureDesk.{SureState};

    ghost Value = { SureState };

    ghost view = { λ d. record {
      files = map named_bytes d.files.items;
      calls = d.calls;
    } };
}

impl SureDesk {
    /// A desk over these files, where a name means the first that has it.
    pub fn new(files: Vec<MemFile>) -> SureDesk
        ensures files { result.files ≡ map named_bytes files.items }
        ensures calls { result.calls ≡ 0 }
    {
        SureDesk { files, calls: 0 }
    }
}

impl Desk for SureDesk {
    ghost bytes = { λ d name. Some (bytes_or_none d name) };

    ghost faults = { λ _ _. 0 };

    ghost calls = { λ d. d.calls };

    ghost asked = { λ _. None };

    fn read_at(&mut self, name: &str, at: u64, into: &mut [u8]) -> Result<u64, DeskFault>
        ensures sure { IsOk result }
        ensures reads_all { IfOk result
            (λ n. ReadsAll (bytes_or_none self.old name.now) at into.new n) }
        ensures after { self.new ≡ after_sure_read self.old }
    {
        self.calls = self.calls.saturating_add(1);
        Ok(read_file(&self.files, name, at, into).unwrap_or(0))
    }
}

/// Takes every piece whole and keeps none. A contract sees how many calls there were.
#[derive(Debug, Drop)]
pub struct SureSink {
    calls: u64,
}

impl Model for SureSink {
    ghost use Rattle.std.specs.Prelude.{ℕ};

    ghost Value = { ℕ };

    ghost view = { λ s. s.calls };
}

impl SureSink {
    /// A sink that nothing was written to.
    pub fn new() -> SureSink
        ensures { result ≡ 0 }
    {
        SureSink { calls: 0 }
    }
}

impl Sink for SureSink {
    ghost written = { λ _. None };

    ghost faults = { λ _. 0 };

    ghost calls = { λ s. s };

    fn write(&mut self, piece: &[u8]) -> Result<u64, Failed>
        ensures whole { result ≡ Ok (length piece.now) }
        ensures call_counted { self.new ≡ next_count self.old }
    {
        self.calls = self.calls.saturating_add(1);
        Ok(piece.len() as u64)
    }
}
