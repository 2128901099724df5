//! Tests of the order in which a run asks for its files: each once, and none after one that is refused or missing.
use rp_outside::{ListingDesk, MemFile, MemSink};
use rp_run::run;
use std::alloc::Global;
use std::test::Fail;

/// A table of one good and three records, of 20 bytes.
const TABLE: (&str, &str) = ("t.csv", "p_a,q_a\n1,2\n3,4\n5,6\n");

/// The text of reads that were asked for, a line each.
fn text_of(alloc: Global, desk: &ListingDesk) -> Result<String, Fail> {
    let mut text = String::new(alloc);
    for read in desk.asked() {
        let line = format!(in alloc; "{} {}\n", read.name, read.at)?;
        text.push_str(line.as_str())?;
    }
    Ok(text)
}

/// What a run of these words asks for over these files.
fn asked_over(alloc: Global, words: &[&str], files: &[(&str, &str)]) -> Result<String, Fail> {
    let mut all = Vec::new(alloc);
    for word in words {
        all.push(String::from_str(alloc, word)?)?;
    }
    let mut held = Vec::new(alloc);
    for (name, text) in files {
        held.push(MemFile {
            name: String::from_str(alloc, name)?,
            bytes: Vec::from_slice(alloc, text.as_bytes())?,
        })?;
    }
    let mut desk = ListingDesk::new(alloc, held, Vec::new(alloc));
    let mut out = MemSink::new(alloc, 65_536, Vec::new(alloc))?;
    let mut err = MemSink::new(alloc, 65_536, Vec::new(alloc))?;
    run(alloc, &all, &mut desk, &mut out, &mut err);
    text_of(alloc, &desk)
}

/// Words, files, and the reads that are asked for.
type OrderCase = (
    &'static [&'static str],
    &'static [(&'static str, &'static str)],
    &'static str,
);

const ORDERS: [OrderCase; 6] = [
    (
        &["rp", "check", "t.csv", "c.json"],
        &[("c.json", "{}"), TABLE],
        "t.csv 0\nt.csv 20\nc.json 0\nc.json 2\n",
    ),
    (
        &["rp", "check", "t.csv", "t.csv"],
        &[TABLE],
        "t.csv 0\nt.csv 20\nt.csv 0\nt.csv 20\n",
    ),
    (
        &["rp", "check", "t.csv", "c.json"],
        &[("t.csv", "p"), ("c.json", "{}")],
        "t.csv 0\nt.csv 1\n",
    ),
    (
        &["rp", "check", "t.csv", "c.json"],
        &[("c.json", "{}")],
        "t.csv 0\n",
    ),
    (
        &["rp", "check", "t.csv", "c.json"],
        &[TABLE],
        "t.csv 0\nt.csv 20\nc.json 0\n",
    ),
    (&["rp", "check", "t.csv"], &[TABLE], ""),
];

#[test]
fn files_are_asked_for_in_turn(rt: HostRuntime) -> Result<(), Fail> {
    for (words, files, want) in ORDERS {
        let got = asked_over(rt.alloc(), words, files)?;
        assert!(rt; got.as_str() == want, "{words:?}: {got}");
    }
    Ok(())
}
