//! Writing all bytes, write by write.
ghost use Rattle.std.specs.Prelude.{◌+◌, ◌<◌, ◌≤◌, OnErr, OnOk, length};
ghost use Rattle.rp_outside.specs.Faults.{HasRisen};
ghost use Rattle.rp_outside.specs.Known.{FallsShort, Grows, GrowsByPrefix};

use crate::sinks::{Failed, Sink};

/// A write failed before all bytes had gone out.
#[derive(Clone, Copy, Debug, PartialEq, Eq)]
pub struct WriteFault;

/// Writes all the bytes, in as many pieces as the sink takes them in.
pub fn pour<O: Sink>(sink: &mut O, bytes: &[u8]) -> Result<(), WriteFault>
    ensures whole { OnOk result (Grows (O.written sink.old) (O.written sink.new) bytes.now) }
    ensures prefix { OnErr result
        (GrowsByPrefix (O.written sink.old) (O.written sink.new) bytes.now) }
    ensures falls_short { OnErr result
        (FallsShort (O.written sink.old) (O.written sink.new) bytes.now) }
    ensures fault_counted { OnErr result (HasRisen (O.faults sink.old) (O.faults sink.new)) }
    ensures never_falls { O.faults sink.old ≤ O.faults sink.new }

    // How often the sink is asked.
    ensures writes { O.calls sink.new ≤ O.calls sink.old + length bytes.now }
    ensures some_write { 0 < length bytes.now → HasRisen (O.calls sink.old) (O.calls sink.new) }
{
    let mut at = 0;
    while at < bytes.len() {
        match sink.write(&bytes[at..]) {
            Ok(n) => at += n as usize,
            Err(Failed) => return Err(WriteFault),
        }
    }
    Ok(())
}
