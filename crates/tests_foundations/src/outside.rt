//! Tests of desks and sinks in memory, whose failures are planned, and of those that never fail.
use crate::calls::{TABLE, files_of, loads, pours, reads, writes};
use rp_outside::{
    DeskFault, Failed, ListingDesk, LoadFault, MemDesk, MemSink, SureDesk, SureSink, WriteFault,
};
use std::alloc::Global;
use std::process::Abort;
use std::test::Fail;

/// A desk of two files of one name and one without bytes, where the reads of these numbers fail.
fn desk_of(alloc: Global, fails: &[u64]) -> Result<MemDesk, Fail> {
    let files = files_of(
        alloc,
        &[("t.csv", TABLE), ("t.csv", b"second"), ("empty.csv", b"")],
    )?;
    Ok(MemDesk::new(files, fails.to_vec(alloc)?))
}

/// A sink with room for so many bytes, where the writes of these numbers fail.
fn sink_of(alloc: Global, room: u64, fails: &[u64]) -> Result<MemSink, Fail> {
    Ok(MemSink::new(alloc, room, fails.to_vec(alloc)?)?)
}

/// Whether a sink has this, and counted so many faults.
fn has_written(sink: &MemSink, written: &[u8], faults: u64) -> bool {
    sink.written() == written && sink.faults() == faults
}

/// The faults that a desk counted.
fn faults_of(desk: &MemDesk) -> u64 {
    desk.faults()
}

/// Calls that fail, a name, a limit, the answer, and the faults after it.
type LoadCase = (
    &'static [u64],
    &'static str,
    u32,
    Result<&'static [u8], LoadFault>,
    u64,
);

/// Asserts what each load answers.
fn assert_loads(rt: &impl Abort, alloc: Global, cases: &[LoadCase]) -> Result<(), Fail> {
    for (fails, name, limit, want, faults) in cases {
        let mut desk = desk_of(alloc, fails)?;
        assert!(rt;
            loads(alloc, &mut desk, name, *limit, *want),
            "{name} at {limit}"
        );
        assert!(rt; faults_of(&desk) == *faults, "{name} at {limit}");
    }
    Ok(())
}

const LOADS: [LoadCase; 10] = [
    (&[], "t.csv", 4_194_304, Ok(TABLE), 0),
    (&[], "t.csv", 32, Ok(TABLE), 0),
    (&[], "t.csv", 31, Err(LoadFault::TooLong), 0),
    (&[], "t.csv", 0, Err(LoadFault::TooLong), 0),
    (&[], "empty.csv", 0, Ok(b""), 0),
    (&[], "none.csv", 32, Err(LoadFault::Read), 1),
    (&[1], "t.csv", 32, Err(LoadFault::Read), 1),
    (&[2], "t.csv", 32, Err(LoadFault::Read), 1),
    (&[3], "t.csv", 32, Ok(TABLE), 0),
    (&[2], "t.csv", 31, Err(LoadFault::TooLong), 0),
];

#[test]
fn loads_from_memory(rt: HostRuntime) -> Result<(), Fail> {
    assert_loads(&rt, rt.alloc(), &LOADS)
}

#[test]
fn pours_to_memory(rt: HostRuntime) -> Result<(), Fail> {
    // (calls that fail, room, answer, written, faults after)
    let rows: [(&[u64], u64, Result<(), WriteFault>, &[u8], u64); 5] = [
        (&[], 64, Ok(()), b"pair 1 2\n", 0),
        (&[], 9, Ok(()), b"pair 1 2\n", 0),
        (&[], 8, Err(WriteFault), b"pair 1 2", 1),
        (&[], 0, Err(WriteFault), b"", 1),
        (&[1], 64, Err(WriteFault), b"", 1),
    ];
    for (fails, room, want, written, faults) in rows {
        let mut out = sink_of(rt.alloc(), room, fails)?;
        assert!(rt; pours(&mut out, b"pair 1 2\n", want), "{room}");
        assert!(rt; has_written(&out, written, faults), "{room}");
    }
    Ok(())
}

#[test]
fn reads_one_call(rt: HostRuntime) -> Result<(), Fail> {
    let mut desk = desk_of(rt.alloc(), &[2])?;
    // (place, what comes), one read after the other
    let rows: [(u64, Result<&[u8], DeskFault>); 5] = [
        (28, Ok(b"1,1\n")),
        (0, Err(DeskFault::Failed)),
        (31, Ok(b"\n")),
        (32, Ok(b"")),
        (u64::MAX, Ok(b"")),
    ];
    for (at, want) in rows {
        assert!(rt; reads(&mut desk, "t.csv", at, want), "{at}");
    }
    Ok(())
}

#[test]
fn writes_one_call(rt: HostRuntime) -> Result<(), Fail> {
    let mut out = sink_of(rt.alloc(), 5, &[3])?;
    // (piece, how much of it is taken), one write after the other
    let rows: [(&[u8], Result<u64, Failed>); 5] = [
        (b"pair", Ok(4)),
        (b" 1", Ok(1)),
        (b"2", Err(Failed)),
        (b"", Ok(0)),
        (b"2", Err(Failed)),
    ];
    for (piece, want) in rows {
        assert!(rt; writes(&mut out, piece, want));
    }
    assert!(rt; has_written(&out, b"pair ", 2));
    Ok(())
}

/// Whether the reads that a desk was asked for are these.
fn was_asked(desk: &ListingDesk, want: &[(&str, u64)]) -> bool {
    let asked = desk.asked();
    if asked.len() != want.len() {
        return false;
    }
    for k in 0..asked.len() {
        let (name, at) = want[k];
        if asked[k].name.as_str() != name || asked[k].at != at {
            return false;
        }
    }
    true
}

#[test]
fn lists_what_it_is_asked_for(rt: HostRuntime) -> Result<(), Fail> {
    let alloc = rt.alloc();
    let files = files_of(alloc, &[("t.csv", TABLE), ("empty.csv", b"")])?;
    let mut desk = ListingDesk::new(alloc, files, vec![in alloc; 5]?);
    assert!(rt; loads(alloc, &mut desk, "t.csv", 32, Ok(TABLE)));
    assert!(rt; loads(alloc, &mut desk, "empty.csv", 32, Ok(b"")));
    assert!(rt; loads(alloc, &mut desk, "none.csv", 32, Err(LoadFault::Read)));
    assert!(rt; loads(alloc, &mut desk, "t.csv", 32, Err(LoadFault::Read)));
    let asked = [
        ("t.csv", 0),
        ("t.csv", 32),
        ("empty.csv", 0),
        ("none.csv", 0),
        ("t.csv", 0),
    ];
    assert!(rt; was_asked(&desk, &asked));
    Ok(())
}

#[test]
fn the_sure_ones_never_fail(rt: HostRuntime) -> Result<(), Fail> {
    let alloc = rt.alloc();
    let files = files_of(alloc, &[("t.csv", TABLE), ("t.csv", b"second")])?;
    let mut desk = SureDesk::new(files);
    assert!(rt; loads(alloc, &mut desk, "t.csv", 32, Ok(TABLE)));
    assert!(rt; loads(alloc, &mut desk, "none.csv", 32, Ok(b"")));
    assert!(rt; pours(&mut SureSink::new(), TABLE, Ok(())));
    Ok(())
}
