//! Tests of the call over files in memory: each ending with its texts, malformed frames, small rooms.
use crate::bounds::{DEMAND_HEADER, DEMANDS, FILES};
use crate::running::{HEADER, USAGE};
use rp_panel_call::{Ending, answer_panel};
use std::alloc::Global;
use std::process::Abort;
use std::test::Fail;

/// What stands in a room before the call.
pub(crate) const BEFORE: u8 = b'.';

/// A call: its words and the names of its files, each ended by a zero byte, and the texts of the files.
#[derive(Clone, Copy)]
struct Call<'a> {
    words: &'a [u8],
    names: &'a [u8],
    texts: &'a [&'a str],
}

/// What a call gave: how it ended, what stands in the two rooms, and the two lengths.
#[derive(Drop)]
struct Given {
    ending: Ending,
    output: Vec<u8>,
    told: Vec<u8>,
    output_length: u64,
    told_length: u64,
}

/// The bytes of texts, one after the other.
fn bytes_of(alloc: Global, texts: &[&str]) -> Result<Vec<u8>, Fail> {
    let mut bytes = Vec::new(alloc);
    for text in texts {
        bytes.extend_from_slice(text.as_bytes())?;
    }
    Ok(bytes)
}

/// How many bytes each text has.
fn sizes_of(alloc: Global, texts: &[&str]) -> Result<Vec<u64>, Fail> {
    let mut sizes = Vec::new(alloc);
    for text in texts {
        sizes.push(text.len() as u64)?;
    }
    Ok(sizes)
}

/// Makes a call with so much room for each of the two texts.
fn made(alloc: Global, call: &Call<'_>, room: usize) -> Result<Given, Fail> {
    let bytes = bytes_of(alloc, call.texts)?;
    let sizes = sizes_of(alloc, call.texts)?;
    let mut output = vec![in alloc; BEFORE; room]?;
    let mut told = vec![in alloc; BEFORE; room]?;
    let mut output_length = 0;
    let mut told_length = 0;
    let ending = answer_panel(
        alloc,
        call.words,
        call.names,
        sizes.as_slice(),
        bytes.as_slice(),
        output.as_mut_slice(),
        told.as_mut_slice(),
        &mut output_length,
        &mut told_length,
    );
    Ok(Given {
        ending,
        output,
        told,
        output_length,
        told_length,
    })
}

/// Whether a room has a text at its front, as much of it as has place, and behind it what stood there before.
pub(crate) fn has_text(room: &[u8], length: u64, text: &str) -> bool {
    let count = text.len().min(room.len());
    let is_kept = length == text.len() as u64 && room[..count] == text.as_bytes()[..count];
    for byte in &room[count..] {
        if *byte != BEFORE {
            return false;
        }
    }
    is_kept
}

/// A call with so much room ends so, with these texts.
fn ends_within(
    rt: &impl Abort,
    alloc: Global,
    call: &Call<'_>,
    room: usize,
    number: i32,
    output: &str,
    told: &str,
) -> Result<(), Fail> {
    let got = made(alloc, call, room)?;
    assert!(rt;
        got.ending.number() == number,
        "{:?} {}",
        call.words,
        got.ending.number()
    );
    assert!(rt;
        has_text(got.output.as_slice(), got.output_length, output),
        "{:?}",
        call.words
    );
    assert!(rt;
        has_text(got.told.as_slice(), got.told_length, told),
        "{:?}",
        call.words
    );
    Ok(())
}

const LONG: &str = "household,year,p_a,q_a\nA,1990,3,2\n";

const TOLD: &str = "rp-panel: column year is left out\n";

/// Words and the parts that are given of the file `l.csv`, the number that a call ends with, and what is told.
type Row<'a> = (&'a [u8], &'a [&'a str], i32, &'a str);

const NOT_WRITTEN: &[Row<'static>] = &[
    (b"", &[LONG], 2, USAGE),
    (b"l.csv\0--wide\0--wide\0", &[LONG], 2, USAGE),
    (b"m.csv\0", &[LONG], 3, "rp-panel: m.csv: read failed\n"),
    (
        b"l.csv\0",
        &["household\nA\n"],
        4,
        "rp-panel: l.csv: Unpaired column 0\n",
    ),
    (b"l.csv\0--id\0\xff\0", &[LONG], 7, ""),
    (b"l.csv", &[LONG], 8, ""),
    (b"l.csv\0", &[], 8, ""),
    (b"l.csv\0", &[LONG, LONG], 8, ""),
];

/// A call with these words over the file `l.csv`, in so many parts.
fn over<'a>(words: &'a [u8], texts: &'a [&'a str]) -> Call<'a> {
    Call {
        words,
        names: b"l.csv\0",
        texts,
    }
}

#[test]
fn calls_that_write_nothing(rt: HostRuntime) -> Result<(), Fail> {
    for (words, texts, number, told) in NOT_WRITTEN {
        let call = over(words, texts);
        ends_within(&rt, rt.alloc(), &call, 256, *number, "", told)?;
    }
    Ok(())
}

#[test]
fn more_files_than_the_words_name(rt: HostRuntime) -> Result<(), Fail> {
    let call = Call {
        words: b"l.csv\0",
        names: b"l.csv\0m.csv\0",
        texts: &[LONG, LONG],
    };
    ends_within(&rt, rt.alloc(), &call, 256, 8, "", "")
}

#[test]
fn no_file(rt: HostRuntime) -> Result<(), Fail> {
    let call = Call {
        words: b"l.csv\0",
        names: b"",
        texts: &[],
    };
    let told = "rp-panel: l.csv: read failed\n";
    ends_within(&rt, rt.alloc(), &call, 256, 3, "", told)
}

/// What is written of the long file.
fn table(alloc: Global) -> Result<String, Fail> {
    Ok(format!(in alloc; "{HEADER}\nA,1,1,holds,1,1.000000,yes,holds,holds,,,,,,\n")?)
}

#[test]
fn a_table_in_large_and_in_small_rooms(rt: HostRuntime) -> Result<(), Fail> {
    let alloc = rt.alloc();
    let call = over(b"l.csv\0", &[LONG]);
    let wanted = table(alloc)?;
    ends_within(&rt, alloc, &call, 1024, 0, wanted.as_str(), TOLD)?;
    ends_within(&rt, alloc, &call, 10, 0, wanted.as_str(), TOLD)?;
    ends_within(&rt, alloc, &call, 0, 0, wanted.as_str(), TOLD)
}

/// A call that asks bounds at the prices of a second file, over these files.
fn bounds_over<'a>(names: &'a [u8], texts: &'a [&'a str]) -> Call<'a> {
    Call {
        words: b"l.csv\0--demand\0n.csv\0",
        names,
        texts,
    }
}

#[test]
fn bounds_over_files_in_either_order(rt: HostRuntime) -> Result<(), Fail> {
    let alloc = rt.alloc();
    let (long, new) = FILES;
    let wanted = format!(in alloc; "{DEMAND_HEADER}{DEMANDS}")?;
    let told = "rp-panel: column town is left out\n";
    let texts = [long, new];
    let one = bounds_over(b"l.csv\0n.csv\0", &texts);
    ends_within(&rt, alloc, &one, 1024, 0, wanted.as_str(), told)?;
    let turned = [new, long];
    let other = bounds_over(b"n.csv\0l.csv\0", &turned);
    ends_within(&rt, alloc, &other, 1024, 0, wanted.as_str(), told)
}

/// The first file that is not given is told, and that before any is refused.
#[test]
fn bounds_without_a_file(rt: HostRuntime) -> Result<(), Fail> {
    let alloc = rt.alloc();
    let told = "rp-panel: n.csv: read failed\n";
    for long in [FILES.0, "household\nA\n"] {
        let texts = [long];
        let no_new = bounds_over(b"l.csv\0", &texts);
        ends_within(&rt, alloc, &no_new, 256, 3, "", told)?;
    }
    let texts = [FILES.1];
    let no_long = bounds_over(b"n.csv\0", &texts);
    let told = "rp-panel: l.csv: read failed\n";
    ends_within(&rt, alloc, &no_long, 256, 3, "", told)
}

#[test]
fn bounds_with_more_files_than_the_words_name(rt: HostRuntime) -> Result<(), Fail> {
    let (long, new) = FILES;
    let texts = [long, new, new];
    let call = bounds_over(b"l.csv\0n.csv\0m.csv\0", &texts);
    ends_within(&rt, rt.alloc(), &call, 256, 8, "", "")
}
