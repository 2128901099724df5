//! Tests of the system's files and streams: files that are read by turns, a file that is written, and flushes that
//! fail.
use crate::calls::{loads, pours, reads, writes};
use rp_outside::{Desk, Failed, FileDesk, LoadFault, StdSink, WriteFault};
use std::alloc::Global;
use std::io::Write;
use std::test::Fail;
use std::{env, fs, io, process};

/// The name of a file of this process alone, in the folder for such files.
fn own_name(rt: &HostRuntime, about: &str) -> Result<String, Fail> {
    let id = process::id(rt.process());
    let name = format!(in rt.alloc(); "rp_outside_{about}_{id}")?;
    let mut path = env::temp_dir(rt)?;
    path.push(name.as_str())?;
    Ok(path.into_string())
}

/// Writes a file of this process alone, and gives its name.
fn written(rt: &HostRuntime, about: &str, text: &str) -> Result<String, Fail> {
    let name = own_name(rt, about)?;
    fs::write(rt, name.as_str(), text)?;
    Ok(name)
}

/// Whether all 12 bytes of a file are loaded at a limit that they just keep, and not at one less.
fn loads_up_to_its_length<D: Desk>(alloc: Global, desk: &mut D, name: &str) -> bool {
    loads(alloc, desk, name, 12, Ok(b"p_a,q_a\n1,2\n"))
        && loads(alloc, desk, name, 11, Err(LoadFault::TooLong))
}

/// Whether two files are read by turns, forwards and back, each from its own place.
fn reads_by_turns<D: Desk>(desk: &mut D, first: &str, second: &str) -> bool {
    reads(desk, first, 8, Ok(b"1,2\n"))
        && reads(desk, second, 12, Ok(b"5\n"))
        && reads(desk, first, 0, Ok(b"p_a,"))
        && reads(desk, second, 4, Ok(b"q_b\n"))
        && reads(desk, second, 8, Ok(b"3,4,"))
        && reads(desk, second, 14, Ok(b""))
}

/// Whether a file that is not there is not loaded.
fn misses<D: Desk>(alloc: Global, desk: &mut D) -> bool {
    loads(alloc, desk, "no such file", 12, Err(LoadFault::Read))
}

#[test]
fn a_desk_reads_files_in_turn(rt: HostRuntime) -> Result<(), Fail> {
    let first = written(&rt, "first", "p_a,q_a\n1,2\n")?;
    let second = written(&rt, "second", "p_b,q_b\n3,4,5\n")?;
    let mut desk = FileDesk::new(&rt, rt.alloc());
    assert!(rt; loads_up_to_its_length(rt.alloc(), &mut desk, first.as_str()));
    assert!(rt; reads_by_turns(&mut desk, first.as_str(), second.as_str()));
    assert!(rt; desk.faults() == 0);

    // A file that is not there, twice, and then a file again from its last line.
    assert!(rt; misses(rt.alloc(), &mut desk));
    assert!(rt; desk.faults() == 1);
    assert!(rt; misses(rt.alloc(), &mut desk));
    assert!(rt; desk.faults() == 2);
    assert!(rt; reads(&mut desk, first.as_str(), 8, Ok(b"1,2\n")));
    assert!(rt; desk.faults() == 2);

    fs::remove_file(&rt, first.as_str())?;
    fs::remove_file(&rt, second.as_str())?;
    Ok(())
}

/// Whether a file has these bytes.
fn has_bytes(rt: &HostRuntime, name: &str, want: &[u8]) -> Result<bool, Fail> {
    let bytes = fs::read(rt, name)?;
    Ok(bytes.as_slice() == want)
}

/// Whether a file that is open for reading takes nothing.
fn takes_nothing(rt: &HostRuntime, name: &str) -> Result<bool, Fail> {
    let mut closed = StdSink::new(fs::open(rt, name)?);
    Ok(pours(&mut closed, b"pair", Err(WriteFault)) && closed.faults() == 1)
}

#[test]
fn a_sink_writes_a_file(rt: HostRuntime) -> Result<(), Fail> {
    let name = own_name(&rt, "sink")?;
    let mut out = StdSink::new(fs::create(&rt, name.as_str())?);
    assert!(rt; pours(&mut out, b"pair ", Ok(())));
    assert!(rt; pours(&mut out, b"1 2\n", Ok(())));
    assert!(rt; out.faults() == 0);
    assert!(rt; has_bytes(&rt, name.as_str(), b"pair 1 2\n")?);
    assert!(rt; takes_nothing(&rt, name.as_str())?);
    fs::remove_file(&rt, name.as_str())?;
    Ok(())
}

/// Takes every piece; its flushes fail from the one of this number on, from 1.
#[derive(Drop)]
struct Unflushed {
    flushes: u32,
    fails_from: u32,
}

impl Write for Unflushed {
    fn write(&mut self, buf: &[u8]) -> io::Result<usize> {
        Ok(buf.len())
    }

    fn flush(&mut self) -> io::Result<()> {
        self.flushes = self.flushes.saturating_add(1);
        if self.flushes >= self.fails_from {
            return Err(io::Error::from(io::ErrorKind::BrokenPipe));
        }
        Ok(())
    }
}

#[test]
fn a_flush_that_fails_is_a_counted_fault(rt: HostRuntime) -> Result<(), Fail> {
    let mut out = StdSink::new(Unflushed {
        flushes: 0,
        fails_from: 3,
    });
    assert!(rt; pours(&mut out, b"pair ", Ok(())));
    assert!(rt; writes(&mut out, b"1 2\n", Ok(4)));
    assert_eq!(rt; out.faults(), 0);
    assert!(rt; writes(&mut out, b"pair", Err(Failed)));
    assert_eq!(rt; out.faults(), 1);
    assert!(rt; pours(&mut out, b"pair", Err(WriteFault)));
    assert_eq!(rt; out.faults(), 2);
    Ok(())
}
