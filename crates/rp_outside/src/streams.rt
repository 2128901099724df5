//! The writers of the system as sinks.
ghost use Rattle.std.specs.Prelude.{◌≡◌, ◌<◌, ◌≤◌, IfErr, IfOk, if◌then◌else◌, is_ok, length, take};
ghost use Rattle.rp_outside.specs.Faults.{next_count};
ghost use Rattle.rp_outside.specs.Known.{Grows, Stays};
ghost use Rattle.rp_outside.specs.SystemSink.{flushed_of};

use crate::sinks::{Failed, Sink};
use std::io::Write;
use std::marker::Model;

/// Any writer of the system, as standard output. Where the writer tells what it holds, a contract sees that; of
/// standard output and of files it sees the counts alone. A writer that takes nothing of a piece has failed. Each piece
/// is flushed, so what is taken is out; once a flush has failed after some bytes, every later write fails.
#[derive(Drop)]
pub struct StdSink<W: Write + Drop> {
    writer: W,
    unflushed: u64,
    calls: u64,
    faults: u64,
}

impl<W: Write + Drop> Model for StdSink<W> {
    ghost use Rattle.rp_outside.specs.SystemSink.{StdSinkState};

    ghost Value = { StdSinkState };

    ghost view = { λ s. record {
      contents = W.contents s.writer;
      unflushed = s.unflushed;
      calls = s.calls;
      faults = s.faults;
    } };
}

impl<W: Write + Drop> StdSink<W> {
    /// A sink over this writer.
    pub fn new(writer: W) -> StdSink<W>
        ensures contents { result.contents ≡ W.contents writer }
        ensures unflushed { result.unflushed ≡ 0 }
        ensures calls { result.calls ≡ 0 }
        ensures faults { result.faults ≡ 0 }
    {
        StdSink {
            writer,
            unflushed: 0,
            calls: 0,
            faults: 0,
        }
    }

    /// How many writes failed.
    pub fn faults(&self) -> u64
        ensures { result ≡ self.now.faults }
    {
        self.faults
    }
}

impl<W: Write + Drop> Sink for StdSink<W> {
    ghost written = { λ s. flushed_of s.contents s.unflushed };

    ghost faults = { λ s. s.faults };

    ghost calls = { λ s. s.calls };

    fn write(&mut self, piece: &[u8]) -> Result<u64, Failed>
        ensures within { IfOk result (λ n. n ≤ length piece.now) }
        ensures progress { IfOk result (λ n. 0 < length piece.now → 0 < n) }
        ensures grows { IfOk result (λ n.
            Grows (flushed_of self.old.contents self.old.unflushed)
            (flushed_of self.new.contents self.new.unflushed) (take n piece.now)) }
        ensures failed_stays { IfErr result (λ _.
            Stays (flushed_of self.old.contents self.old.unflushed)
            (flushed_of self.new.contents self.new.unflushed)) }
        ensures never_falls { self.old.faults ≤ self.new.faults }
        ensures call_counted { self.new.calls ≡ next_count self.old.calls }

        // Beyond what every sink does.
        ensures faults { self.new.faults
            ≡ (if is_ok result then self.old.faults else next_count self.old.faults) }
        ensures flushed { IfOk result (λ _. self.new.unflushed ≡ 0) }
    {
        self.calls = self.calls.saturating_add(1);
        if self.unflushed > 0 {
            self.faults = self.faults.saturating_add(1);
            return Err(Failed);
        }
        match write_out(&mut self.writer, piece) {
            Ok(count) => Ok(count),
            Err(held) => {
                self.unflushed = held;
                self.faults = self.faults.saturating_add(1);
                Err(Failed)
            }
        }
    }
}

/// Writes some of a piece and flushes. An error is how many bytes of it the writer has taken and not flushed: none
/// where the write failed, or took nothing of a piece that is not empty.
fn write_out<W: Write>(writer: &mut W, piece: &[u8]) -> Result<u64, u64>
    ensures within { IfOk result (λ n. n ≤ length piece.now) }
    ensures progress { IfOk result (λ n. 0 < length piece.now → 0 < n) }
    ensures out { IfOk result (λ n.
        Grows (W.contents writer.old) (W.contents writer.new) (take n piece.now)) }
    ensures held { IfErr result (λ n. n ≤ length piece.now) }
    ensures taken { IfErr result (λ n.
        Grows (W.contents writer.old) (W.contents writer.new) (take n piece.now)) }
{
    let Ok(count) = writer.write(piece) else {
        return Err(0);
    };
    if count == 0 && !piece.is_empty() {
        return Err(0);
    }
    match writer.flush() {
        Ok(()) => Ok(count as u64),
        Err(_) => Err(count as u64),
    }
}
