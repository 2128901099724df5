//! A sink in memory, with planned failures.
ghost use Rattle.std.specs.Prelude.{◌≡◌, ◌-◌, ◌<◌, ◌≤◌, ◌⊎◌, ◌↔◌, [], Some, Contains, IfOk, IsErr};
ghost use Rattle.std.specs.Prelude.{IsTrue, length, min};
ghost use Rattle.rp_outside.specs.MemorySink.{WriteFails, after_write};

use crate::planned::is_listed;
use crate::sinks::{Failed, Sink};
use rp_num::NoMemory;
use std::alloc::Global;
use std::marker::Model;

/// What was written, kept in memory up to a limit, with failures at planned calls.
#[derive(Debug, Drop)]
pub struct MemSink {
    bytes: Vec<u8>,
    limit: u64,
    fails: Vec<u64>,
    calls: u64,
    faults: u64,
}

impl Model for MemSink {
    ghost use Rattle.std.specs.Prelude.{◌≤◌, vec_capacity, vec_len};
    ghost use Rattle.rp_outside.specs.MemorySink.{SinkState};

    ghost Value = { SinkState };

    ghost view = { λ s. record {
      written = s.bytes.items;
      limit = s.limit;
      fails = s.fails.items;
      calls = s.calls;
      faults = s.faults;
    } };

    ghost invariant = { λ s. (vec_len s.bytes ≤ s.limit) × (s.limit ≤ vec_capacity s.bytes) };
}

impl MemSink {
    /// A sink with room for `limit` bytes, which it takes at once. `fails` holds the numbers of the
    /// calls that fail, and the first call is 1.
    pub fn new(alloc: Global, limit: u64, fails: Vec<u64>) -> Result<MemSink, NoMemory>
        ensures written { IfOk result (λ s. s.written ≡ []) }
        ensures limit { IfOk result (λ s. s.limit ≡ limit) }
        ensures fails { IfOk result (λ s. s.fails ≡ fails.items) }
        ensures calls { IfOk result (λ s. s.calls ≡ 0) }
        ensures faults { IfOk result (λ s. s.faults ≡ 0) }
    {
        let bytes = Vec::with_capacity(alloc, limit as usize)?;
        Ok(MemSink {
            bytes,
            limit,
            fails,
            calls: 0,
            faults: 0,
        })
    }

    /// All that was written.
    pub fn written(&self) -> &[u8]
        ensures written { result.now ≡ self.now.written }
        ensures within_limit { length result.now ≤ self.now.limit }
    {
        self.bytes.as_slice()
    }

    /// How many calls failed.
    pub fn faults(&self) -> u64
        ensures { result ≡ self.now.faults }
    {
        self.faults
    }
}

impl Sink for MemSink {
    ghost written = { λ s. Some s.written };

    ghost faults = { λ s. s.faults };

    ghost calls = { λ s. s.calls };

    fn write(&mut self, piece: &[u8]) -> Result<u64, Failed>
        ensures fails { IsErr result ↔ WriteFails self.old piece.now }
        ensures takes_what_fits { IfOk result (λ n.
            n ≡ min (length piece.now) (self.old.limit - length self.old.written)) }
        ensures never_falls { self.old.faults ≤ self.new.faults }
        ensures after { self.new ≡ after_write self.old piece.now result }
    {
        self.calls = self.calls.saturating_add(1);
        let room = self.limit as usize - self.bytes.len();
        if is_refused(&self.fails, self.calls, room, piece.len()) {
            self.faults = self.faults.saturating_add(1);
            return Err(Failed);
        }
        let count = piece.len().min(room);
        match self.bytes.extend_from_slice(&piece[..count]) {
            Ok(()) => Ok(count as u64),
            Err(_) => unreachable!(),
        }
    }
}

/// Whether the call of this number fails, where `room` is left for a piece of `len` bytes.
fn is_refused(fails: &[u64], number: u64, room: usize, len: usize) -> bool
    ensures { IsTrue result ↔ (Contains fails.now number ⊎ ((0 < len) × (room ≡ 0))) }
{
    is_listed(fails, number) || len > 0 && room == 0
}
