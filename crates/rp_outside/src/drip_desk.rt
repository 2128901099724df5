//! A desk in memory that gives files in pieces.
ghost use Rattle.std.specs.Prelude.{None, ◌≡◌, ◌≤◌, ◌⊎◌, ◌↔◌, ℕ, List, IfOk, IsErr, IsOkUnless};
ghost use Rattle.std.specs.Prelude.{IsSomeAnd, is_ok, length, map};
ghost use Rattle.std.specs.Option.{ForSome};
ghost use Rattle.rp_outside.specs.Drip.{ReadsPiece, after_drip_read};
ghost use Rattle.rp_outside.specs.Files.{bytes_under};
ghost use Rattle.rp_outside.specs.MemoryDesk.{ReadFails};
ghost use Rattle.rp_outside.specs.NamedFile.{named_bytes};

use crate::desks::{Desk, DeskFault};
use crate::memory_desk::MemDesk;
use crate::memory_files::MemFile;
use std::marker::Model;

/// A desk in memory that gives at most `piece` bytes a call, as a slow file does. A contract sees the
/// desk of whole reads and the piece.
#[derive(Debug, Drop)]
pub struct DripDesk {
    desk: MemDesk,
    piece: u32,
}

impl Model for DripDesk {
    ghost use Rattle.std.specs.Prelude.{◌≤◌};
    ghost use Rattle.rp_outside.specs.Drip.{DripDeskState};

    ghost Value = { DripDeskState };

    ghost view = { λ d. record {
      desk = d.desk;
      piece = d.piece;
    } };

    ghost invariant = { λ d. 1 ≤ d.piece };
}

impl DripDesk {
    /// A desk over these files, where a name means the first that has it. `fails` holds the numbers
    /// of the calls that fail, and the first call is 1.
    pub fn new(files: Vec<MemFile>, piece: u32, fails: Vec<u64>) -> DripDesk
        requires { 1 ≤ piece }
        ensures files { result.desk.files ≡ map named_bytes files.items }
        ensures fails { result.desk.fails ≡ fails.items }
        ensures piece { result.piece ≡ piece }
        ensures calls { result.desk.calls ≡ 0 }
        ensures faults { result.desk.faults ≡ 0 }
    {
        DripDesk {
            desk: MemDesk::new(files, fails),
            piece,
        }
    }

    /// How many calls failed.
    pub fn faults(&self) -> u64
        ensures { result ≡ self.now.desk.faults }
    {
        self.desk.faults()
    }
}

impl Desk for DripDesk {
    ghost bytes = { λ d name. bytes_under d.desk.files name };

    ghost faults = { λ d _. d.desk.faults };

    ghost calls = { λ d. d.desk.calls };

    ghost asked = { λ _. None };

    fn read_at(&mut self, name: &str, at: u64, into: &mut [u8]) -> Result<u64, DeskFault>
        ensures fails { IsErr result ↔ ReadFails self.old.desk name.now }
        ensures only_failed { IsOkUnless result DeskFault.Failed }
        ensures reads_piece { IfOk result (λ n.
            IsSomeAnd (bytes_under self.old.desk.files name.now)
            (λ bs. ReadsPiece self.old.piece bs at into.new n)) }
        ensures none_only_at_end { IfOk result (λ n. n ≡ 0 →
            ForSome (bytes_under self.old.desk.files name.now)
            (λ bs. (length into.new ≡ 0) ⊎ (length bs ≤ at))) }
        ensures never_falls { (other : List ℕ) → self.old.desk.faults ≤ self.new.desk.faults }
        ensures after { self.new ≡ after_drip_read self.old (is_ok result) }
    {
        let room = into.len().min(self.piece as usize);
        self.desk.read_at(name, at, &mut into[..room])
    }
}
