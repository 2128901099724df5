//! Tests of the call over files in memory: each ending with its texts, malformed frames, small rooms, and the files that
//! words name.
use crate::worked::WORKED;
use rp_fit_call::{Ending, answer_fit, asks_fit, name_fit_files};
use std::alloc::Global;
use std::process::Abort;
use std::test::Fail;
use tests_inputs::tables::{APART, AT_800, CONTRADICTION};

/// What a room holds before the call.
const BEFORE: u8 = b'.';

/// A call: its words and the names of its files, each ended by a zero byte, and the texts of the files.
#[derive(Clone, Copy)]
struct Call<'a> {
    words: &'a [u8],
    names: &'a [u8],
    texts: &'a [&'a str],
}

/// What a call gave: how it ended, the two rooms, and the two lengths.
#[derive(Drop)]
struct Given {
    ending: Ending,
    output: Vec<u8>,
    told: Vec<u8>,
    output_length: u64,
    told_length: u64,
}

/// The bytes of texts, one after the other.
fn bytes_of(alloc: Global, texts: &[&str]) -> Result<Vec<u8>, Fail> {
    let mut bytes = Vec::new(alloc);
    for text in texts {
        bytes.extend_from_slice(text.as_bytes())?;
    }
    Ok(bytes)
}

/// How many bytes each text has.
fn sizes_of(alloc: Global, texts: &[&str]) -> Result<Vec<u64>, Fail> {
    let mut sizes = Vec::new(alloc);
    for text in texts {
        sizes.push(text.len() as u64)?;
    }
    Ok(sizes)
}

/// Makes a call with this room for each of the two texts.
fn made(alloc: Global, call: &Call<'_>, room: usize) -> Result<Given, Fail> {
    let bytes = bytes_of(alloc, call.texts)?;
    let sizes = sizes_of(alloc, call.texts)?;
    let mut output = vec![in alloc; BEFORE; room]?;
    let mut told = vec![in alloc; BEFORE; room]?;
    let mut output_length = 0;
    let mut told_length = 0;
    let ending = answer_fit(
        alloc,
        call.words,
        call.names,
        sizes.as_slice(),
        bytes.as_slice(),
        output.as_mut_slice(),
        told.as_mut_slice(),
        &mut output_length,
        &mut told_length,
    );
    Ok(Given {
        ending,
        output,
        told,
        output_length,
        told_length,
    })
}

/// Whether a room begins with a text, as much of it as fits, and holds behind it what it held before.
fn has_text(room: &[u8], length: u64, text: &str) -> bool {
    let count = text.len().min(room.len());
    let is_kept = length == text.len() as u64 && room[..count] == text.as_bytes()[..count];
    for byte in &room[count..] {
        if *byte != BEFORE {
            return false;
        }
    }
    is_kept
}

/// Asserts that a call with this room ends with this number and these texts.
fn ends_within(
    rt: &impl Abort,
    alloc: Global,
    call: &Call<'_>,
    room: usize,
    number: i32,
    output: &str,
    told: &str,
) -> Result<(), Fail> {
    let got = made(alloc, call, room)?;
    assert!(rt;
        got.ending.number() == number,
        "{:?} {}",
        call.words,
        got.ending.number()
    );
    assert!(rt;
        has_text(got.output.as_slice(), got.output_length, output),
        "{:?}",
        call.words
    );
    assert!(rt;
        has_text(got.told.as_slice(), got.told_length, told),
        "{:?}",
        call.words
    );
    Ok(())
}

const USAGE: &str =
    "usage: rp-wide fit TABLE [--json]\n       rp-wide checkfit TABLE CERT\n       rp-wide random BUDGETS CHOICES --steps N [--per N] [--json]\n";

/// Words, the parts of the file `t.csv`, the number that a call ends with, and what is reported.
type Row = (&'static [u8], &'static [&'static str], i32, &'static str);

const NOT_WRITTEN: &[Row] = &[
    (b"fit\0", &[CONTRADICTION], 2, USAGE),
    (b"fit\0t.csv\0--wide\0", &[CONTRADICTION], 2, USAGE),
    (b"checkfit\0t.csv\0", &[CONTRADICTION], 2, USAGE),
    (b"analyse\0t.csv\0", &[CONTRADICTION], 2, USAGE),
    (
        b"fit\0m.csv\0",
        &[CONTRADICTION],
        3,
        "rp: m.csv: read failed\n",
    ),
    (
        b"checkfit\0t.csv\0c.json\0",
        &["p_a,q_a\n1,x\n"],
        3,
        "rp: c.json: read failed\n",
    ),
    (
        b"fit\0t.csv\0",
        &["p_a,q_a\n1,x\n"],
        4,
        "rp: t.csv: BadNumber record 1 column 2\n",
    ),
    (b"fit\0t.csv\0", &[AT_800], 4, "rp: t.csv: OwnLevels\n"),
    (b"fit\0t.csv\0\xff\0", &[CONTRADICTION], 7, ""),
    (b"fit\0t.csv", &[CONTRADICTION], 8, ""),
    (b"fit\0t.csv\0", &[], 8, ""),
];

/// A call with these words over the file `t.csv`, in parts.
fn over<'a>(words: &'a [u8], texts: &'a [&'a str]) -> Call<'a> {
    Call {
        words,
        names: b"t.csv\0",
        texts,
    }
}

#[test]
fn calls_that_write_nothing(rt: HostRuntime) -> Result<(), Fail> {
    for (words, texts, number, told) in NOT_WRITTEN {
        let call = over(words, texts);
        ends_within(&rt, rt.alloc(), &call, 256, *number, "", told)?;
    }
    Ok(())
}

#[test]
fn a_call_with_more_files_than_the_words_name(rt: HostRuntime) -> Result<(), Fail> {
    let call = Call {
        words: b"fit\0t.csv\0",
        names: b"t.csv\0c.json\0",
        texts: &[CONTRADICTION, "{}"],
    };
    ends_within(&rt, rt.alloc(), &call, 256, 8, "", "")
}

/// How the report of two choices that contradict each other begins.
const BEGINNING: &str =
    "observations 2 goods 2 places 0 0\nviolations garp 2 wgarp 2 warp 2 sarp 2 of 2\nviolating observations 2 of 2\nefficiency 4/5 attained yes\n";

#[test]
fn a_report_by_the_call(rt: HostRuntime) -> Result<(), Fail> {
    let texts = [CONTRADICTION];
    let got = made(rt.alloc(), &over(b"fit\0t.csv\0", &texts), 4096)?;
    assert_eq!(&rt; got.ending.number(), 0);
    assert!(&rt; got.output.as_slice().starts_with(BEGINNING.as_bytes()));
    assert!(&rt; has_text(got.told.as_slice(), got.told_length, ""));
    Ok(())
}

/// Asserts what the check of a certificate on a table gives, in a large and in a small room.
fn assert_checked(
    rt: &impl Abort,
    alloc: Global,
    files: [&str; 2],
    number: i32,
    output: &str,
) -> Result<(), Fail> {
    let [table, certificate] = files;
    let one = Call {
        words: b"checkfit\0t.csv\0c.json\0",
        names: b"t.csv\0c.json\0",
        texts: &[table, certificate],
    };
    ends_within(rt, alloc, &one, 256, number, output, "")?;
    ends_within(rt, alloc, &one, 9, number, output, "")?;
    let turned = Call {
        words: b"checkfit\0t.csv\0c.json\0",
        names: b"c.json\0t.csv\0",
        texts: &[certificate, table],
    };
    ends_within(rt, alloc, &turned, 0, number, output, "")
}

#[test]
fn certificates_are_checked_by_the_call(rt: HostRuntime) -> Result<(), Fail> {
    for (table, _, text, _) in WORKED {
        assert_checked(&rt, rt.alloc(), [table, text], 0, "accepted items 9\n")?;
    }
    let (_, _, text, _) = WORKED[0];
    let told = "rejected item 1 Number place 1\n";
    assert_checked(&rt, rt.alloc(), [APART, text], 1, told)
}

/// Words, whether they are for this call, the number that the naming ends with, and the names.
const NAMES: &[(&[u8], bool, i32, &str)] = &[
    (b"fit\0t.csv\0", true, 0, "t.csv\0"),
    (b"fit\0--json\0t.csv\0", true, 0, "t.csv\0"),
    (b"checkfit\0t.csv\0c.json\0", true, 0, "t.csv\0c.json\0"),
    (b"checkfit\0t.csv\0t.csv\0", true, 0, "t.csv\0t.csv\0"),
    (b"checkfit\0t.csv\0", true, 2, ""),
    (b"fit\0", true, 2, ""),
    (b"fit\0\xff\0", true, 7, ""),
    (b"fit\0t.csv", true, 8, ""),
    (b"fit", false, 8, ""),
    (b"", false, 2, ""),
    (b"fits\0t.csv\0", false, 2, ""),
    (b"checkfits\0t.csv\0c.json\0", false, 2, ""),
    (b"check\0t.csv\0c.json\0", false, 2, ""),
    (b"analyse\0fit\0", false, 2, ""),
];

/// Asserts that the names of words are in rooms of two sizes, with their length.
fn assert_named(
    rt: &impl Abort,
    alloc: Global,
    words: &[u8],
    number: i32,
    wanted: &str,
) -> Result<(), Fail> {
    for room in [wanted.len() + 8, wanted.len() / 2] {
        let mut names = vec![in alloc; BEFORE; room]?;
        let mut length = 0;
        let ending = name_fit_files(alloc, words, names.as_mut_slice(), &mut length);
        assert!(rt; ending.number() == number, "{words:?}");
        assert!(rt; has_text(names.as_slice(), length, wanted), "{words:?}");
    }
    Ok(())
}

#[test]
fn words_name_their_files_in_order(rt: HostRuntime) -> Result<(), Fail> {
    for (words, is_for_this_call, number, names) in NAMES {
        assert!(&rt; asks_fit(words) == *is_for_this_call, "{words:?}");
        assert_named(&rt, rt.alloc(), words, *number, names)?;
    }
    Ok(())
}
