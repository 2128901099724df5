//! Files in memory, with planned failures.
ghost use Rattle.std.specs.Prelude.{◌≡◌, ◌≤◌, ◌⊎◌, ◌↔◌, ℕ, Contains, List, None, IfOk, IfSome};
ghost use Rattle.std.specs.Prelude.{IsErr, IsNone, IsOkUnless, IsSomeAnd, is_ok, map};
ghost use Rattle.rp_outside.specs.Files.{ReadsAll, bytes_under};
ghost use Rattle.rp_outside.specs.MemoryDesk.{ReadFails, after_read};
ghost use Rattle.rp_outside.specs.NamedFile.{named_bytes};

use crate::desks::{Desk, DeskFault};
use crate::memory_files::{MemFile, read_file};
use crate::planned::is_listed;
use std::marker::Model;

/// Files in memory, with failures at planned calls. One count of faults stands for every name; a name
/// that it has not is not known.
#[derive(Debug, Drop)]
pub struct MemDesk {
    files: Vec<MemFile>,
    fails: Vec<u64>,
    calls: u64,
    faults: u64,
}

impl Model for MemDesk {
    ghost use Rattle.std.specs.Prelude.{map};
    ghost use Rattle.rp_outside.specs.MemoryDesk.{DeskState};
    ghost use Rattle.rp_outside.specs.NamedFile.{named_bytes};

    ghost Value = { DeskState };

    ghost view = { λ d. record {
      files = map named_bytes d.files.items;
      fails = d.fails.items;
      calls = d.calls;
      faults = d.faults;
    } };
}

impl MemDesk {
    /// A desk over these files, where a name means the first that has it. `fails` holds the numbers
    /// of the calls that fail, and the first call is 1.
    pub fn new(files: Vec<MemFile>, fails: Vec<u64>) -> MemDesk
        ensures files { result.files ≡ map named_bytes files.items }
        ensures fails { result.fails ≡ fails.items }
        ensures calls { result.calls ≡ 0 }
        ensures faults { result.faults ≡ 0 }
    {
        MemDesk {
            files,
            fails,
            calls: 0,
            faults: 0,
        }
    }

    /// How many calls failed.
    pub fn faults(&self) -> u64
        ensures { result ≡ self.now.faults }
    {
        self.faults
    }
}

impl Desk for MemDesk {
    ghost bytes = { λ d name. bytes_under d.files name };

    ghost faults = { λ d _. d.faults };

    ghost calls = { λ d. d.calls };

    ghost asked = { λ _. None };

    fn read_at(&mut self, name: &str, at: u64, into: &mut [u8]) -> Result<u64, DeskFault>
        ensures fails { IsErr result ↔ ReadFails self.old name.now }
        ensures only_failed { IsOkUnless result DeskFault.Failed }
        ensures reads_all { IfOk result (λ n. IsSomeAnd (bytes_under self.old.files name.now)
            (λ bs. ReadsAll bs at into.new n)) }
        ensures never_falls { (other : List ℕ) → self.old.faults ≤ self.new.faults }
        ensures after { self.new ≡ after_read self.old (is_ok result) }
    {
        self.calls = self.calls.saturating_add(1);
        match read_planned(&self.files, &self.fails, self.calls, name, at, into) {
            Some(count) => Ok(count),
            None => {
                self.faults = self.faults.saturating_add(1);
                Err(DeskFault::Failed)
            }
        }
    }
}

/// The call of this number: `None` where it is planned to fail, and where there is no such file.
fn read_planned(
    files: &[MemFile],
    fails: &[u64],
    number: u64,
    name: &str,
    at: u64,
    into: &mut [u8],
) -> Option<u64>
    ensures refused { IsNone result ↔ (Contains fails.now number
        ⊎ (bytes_under (map named_bytes files.now) name.now ≡ None)) }
    ensures read { IfSome result (λ n.
        IsSomeAnd (bytes_under (map named_bytes files.now) name.now)
        (λ bs. ReadsAll bs at into.new n)) }
{
    if is_listed(fails, number) {
        return None;
    }
    read_file(files, name, at, into)
}
