//! A sink that keeps all that is written.
ghost use Rattle.std.specs.Prelude.{◌≡◌, ◌≤◌, [], Some, IfOk, length};
ghost use Rattle.rp_frame.specs.TextSink.{after_text};

use rp_outside::{Failed, Sink};
use std::alloc::Global;
use std::marker::Model;

/// All that was written, kept in memory that grows. A write fails only where memory runs out.
#[derive(Debug, Drop)]
pub struct TextSink {
    bytes: Vec<u8>,
    calls: u64,
    faults: u64,
}

impl Model for TextSink {
    ghost use Rattle.rp_frame.specs.TextSink.{TextState};

    ghost Value = { TextState };

    ghost view = { λ s. record {
      written = s.bytes.items;
      calls = s.calls;
      faults = s.faults;
    } };
}

impl TextSink {
    /// A sink that nothing was written to.
    pub fn new(alloc: Global) -> TextSink
        ensures written { result.written ≡ [] }
        ensures calls { result.calls ≡ 0 }
        ensures faults { result.faults ≡ 0 }
    {
        TextSink {
            bytes: Vec::new(alloc),
            calls: 0,
            faults: 0,
        }
    }

    /// How many writes found no memory.
    pub fn faults(&self) -> u64
        ensures { result ≡ self.now.faults }
    {
        self.faults
    }

    /// All that was written.
    pub fn into_bytes(self) -> Vec<u8>
        ensures { result.items ≡ self.written }
    {
        self.bytes
    }
}

impl Sink for TextSink {
    ghost written = { λ s. Some s.written };

    ghost faults = { λ s. s.faults };

    ghost calls = { λ s. s.calls };

    fn write(&mut self, piece: &[u8]) -> Result<u64, Failed>
        ensures whole { IfOk result (λ n. n ≡ length piece.now) }
        ensures never_falls { self.old.faults ≤ self.new.faults }
        ensures after { self.new ≡ after_text self.old piece.now result }
    {
        self.calls = self.calls.saturating_add(1);
        match self.bytes.extend_from_slice(piece) {
            Ok(()) => Ok(piece.len() as u64),
            Err(_) => {
                self.faults = self.faults.saturating_add(1);
                Err(Failed)
            }
        }
    }
}
