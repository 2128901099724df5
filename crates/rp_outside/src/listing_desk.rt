//! A desk that lists the reads that were asked for.
ghost use Rattle.std.specs.Prelude.{◌≡◌, ◌++◌, ◌∷◌, [], Some, OnErr, OnOk, map};
ghost use Rattle.rp_outside.specs.Asked.{reads_of};
ghost use Rattle.rp_outside.specs.Files.{bytes_under};
ghost use Rattle.rp_outside.specs.ListedRead.{listed_read};
ghost use Rattle.rp_outside.specs.NamedFile.{named_bytes};

use crate::desks::{Desk, DeskFault};
use crate::memory_desk::MemDesk;
use crate::memory_files::MemFile;
use rp_num::NoMemory;
use std::alloc::Global;
use std::marker::Model;

/// A read that was asked for: of which file, and from which place on.
#[derive(Debug, Drop)]
pub struct AskedRead {
    pub name: String,
    pub at: u64,
}

/// Files in memory, as those of `MemDesk`, with a list of the reads that were asked for. Where there is no memory to
/// list a read, it is not asked for.
#[derive(Drop)]
pub struct ListingDesk {
    alloc: Global,
    desk: MemDesk,
    asked: Vec<AskedRead>,
    calls: u64,
}

impl Model for ListingDesk {
    ghost use Rattle.std.specs.Prelude.{map};
    ghost use Rattle.rp_outside.specs.ListedRead.{listed_read};
    ghost use Rattle.rp_outside.specs.ListingDesk.{ListingState};

    ghost Value = { ListingState };

    ghost view = { λ d. record {
      desk = d.desk;
      asked = map listed_read d.asked.items;
      calls = d.calls;
    } };
}

impl ListingDesk {
    /// A desk over these files, where a name means the first that has it. `fails` holds the numbers of the reads that
    /// fail, and the first read is 1.
    pub fn new(alloc: Global, files: Vec<MemFile>, fails: Vec<u64>) -> ListingDesk
        ensures files { result.desk.files ≡ map named_bytes files.items }
        ensures fails { result.desk.fails ≡ fails.items }
        ensures faults { result.desk.faults ≡ 0 }
        ensures asked { result.asked ≡ [] }
        ensures calls { result.calls ≡ 0 }
    {
        ListingDesk {
            alloc,
            desk: MemDesk::new(files, fails),
            asked: Vec::new(alloc),
            calls: 0,
        }
    }

    /// The reads that were asked for, the first first.
    pub fn asked(&self) -> &[AskedRead]
        ensures { map listed_read result.now ≡ self.now.asked }
    {
        self.asked.as_slice()
    }
}

impl Desk for ListingDesk {
    ghost bytes = { λ d name. bytes_under d.desk.files name };

    ghost faults = { λ d _. d.desk.faults };

    ghost calls = { λ d. d.calls };

    ghost asked = { λ d. Some d.asked };

    fn read_at(&mut self, name: &str, at: u64, into: &mut [u8]) -> Result<u64, DeskFault> {
        self.calls = self.calls.saturating_add(1);
        if list_read(self.alloc, &mut self.asked, name, at).is_err() {
            return Err(DeskFault::NoMemory);
        }
        self.desk.read_at(name, at, into)
    }
}

/// Lists one more read.
fn list_read(alloc: Global, asked: &mut Vec<AskedRead>, name: &str, at: u64) -> Result<(), NoMemory>
    ensures listed { OnOk result (map listed_read asked.new.items
        ≡ map listed_read asked.old.items ++ reads_of name.now (at ∷ [])) }
    ensures kept { OnErr result (asked.new.items ≡ asked.old.items) }
{
    let read = AskedRead {
        name: String::from_str(alloc, name)?,
        at,
    };
    asked.push(read)?;
    Ok(())
}
