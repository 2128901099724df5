//! A sink in memory that takes bytes in pieces.
ghost use Rattle.std.specs.Prelude.{◌≡◌, ◌<◌, ◌≤◌, ◌↔◌, [], Some, IfOk, IsErr, length};
ghost use Rattle.rp_outside.specs.Drip.{after_drip_write, taken_count};
ghost use Rattle.rp_outside.specs.MemorySink.{WriteFails};

use crate::memory_sink::MemSink;
use crate::sinks::{Failed, Sink};
use rp_num::NoMemory;
use std::alloc::Global;
use std::marker::Model;

/// A sink in memory that takes at most `piece` bytes a call, as a pipe that is nearly full does. A
/// contract sees the sink of whole writes and the piece.
#[derive(Debug, Drop)]
pub struct DripSink {
    sink: MemSink,
    piece: u32,
}

impl Model for DripSink {
    ghost use Rattle.std.specs.Prelude.{◌≤◌};
    ghost use Rattle.rp_outside.specs.Drip.{DripSinkState};

    ghost Value = { DripSinkState };

    ghost view = { λ s. record {
      sink = s.sink;
      piece = s.piece;
    } };

    ghost invariant = { λ s. 1 ≤ s.piece };
}

impl DripSink {
    /// A sink with room for `limit` bytes, which it takes at once. `fails` holds the numbers of the
    /// calls that fail, and the first call is 1.
    pub fn new(alloc: Global, limit: u64, piece: u32, fails: Vec<u64>) -> Result<DripSink, NoMemory>
        requires { 1 ≤ piece }
        ensures written { IfOk result (λ s. s.sink.written ≡ []) }
        ensures limit { IfOk result (λ s. s.sink.limit ≡ limit) }
        ensures piece { IfOk result (λ s. s.piece ≡ piece) }
        ensures fails { IfOk result (λ s. s.sink.fails ≡ fails.items) }
        ensures calls { IfOk result (λ s. s.sink.calls ≡ 0) }
        ensures faults { IfOk result (λ s. s.sink.faults ≡ 0) }
    {
        let sink = MemSink::new(alloc, limit, fails)?;
        Ok(DripSink { sink, piece })
    }

    /// All that was written.
    pub fn written(&self) -> &[u8]
        ensures written { result.now ≡ self.now.sink.written }
        ensures within_limit { length result.now ≤ self.now.sink.limit }
    {
        self.sink.written()
    }

    /// How many calls failed.
    pub fn faults(&self) -> u64
        ensures { result ≡ self.now.sink.faults }
    {
        self.sink.faults()
    }
}

impl Sink for DripSink {
    ghost written = { λ s. Some s.sink.written };

    ghost faults = { λ s. s.sink.faults };

    ghost calls = { λ s. s.sink.calls };

    fn write(&mut self, piece: &[u8]) -> Result<u64, Failed>
        ensures fails { IsErr result ↔ WriteFails self.old.sink piece.now }
        ensures takes_piece { IfOk result (λ n. n ≡ taken_count self.old (length piece.now)) }
        ensures progress { IfOk result (λ n. 0 < length piece.now → 0 < n) }
        ensures never_falls { self.old.sink.faults ≤ self.new.sink.faults }
        ensures after { self.new ≡ after_drip_write self.old piece.now result }
    {
        let count = piece.len().min(self.piece as usize);
        self.sink.write(&piece[..count])
    }
}
