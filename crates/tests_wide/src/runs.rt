//! Tests of the wider edition over files in memory: where `run` prints what is withheld, and where it does not.
use crate::rounded::ROUND_COSTS;
use rp_outside::{MemDesk, MemFile, MemSink};
use rp_run_wide::run_wide;
use std::alloc::Global;
use std::process::Abort;
use std::test::Fail;
use tests_inputs::tables::{APART, CONTRADICTION};
use tests_support::run_over;

/// The room of each sink, in bytes.
const ROOM: u64 = 65_536;

/// What the wider edition writes and tells on these words over these files.
#[derive(Drop)]
pub(crate) struct Written {
    pub(crate) out: String,
    pub(crate) err: String,
}

/// The words of a command line.
pub(crate) fn owned_words(alloc: Global, words: &[&str]) -> Result<Vec<String>, Fail> {
    let mut all = Vec::new(alloc);
    for word in words {
        all.push(String::from_str(alloc, word)?)?;
    }
    Ok(all)
}

/// Files of these names and texts.
pub(crate) fn owned_files(alloc: Global, files: &[(&str, &str)]) -> Result<Vec<MemFile>, Fail> {
    let mut all = Vec::new(alloc);
    for (name, text) in files {
        all.push(MemFile {
            name: String::from_str(alloc, name)?,
            bytes: Vec::from_slice(alloc, text.as_bytes())?,
        })?;
    }
    Ok(all)
}

/// Runs the words over these files by the wider edition.
pub(crate) fn run_wide_over(
    alloc: Global,
    words: &[&str],
    files: &[(&str, &str)],
) -> Result<Written, Fail> {
    let all = owned_words(alloc, words)?;
    let mut desk = MemDesk::new(owned_files(alloc, files)?, Vec::new(alloc));
    let mut out = MemSink::new(alloc, ROOM, Vec::new(alloc))?;
    let mut err = MemSink::new(alloc, ROOM, Vec::new(alloc))?;
    run_wide(alloc, &all, &mut desk, &mut out, &mut err);
    Ok(Written {
        out: String::from_utf8_lossy(alloc, out.written())?,
        err: String::from_utf8_lossy(alloc, err.written())?,
    })
}

/// Whether both editions write and tell the same on these words over these files.
pub(crate) fn are_alike(
    alloc: Global,
    words: &[&str],
    files: &[(&str, &str)],
) -> Result<bool, Fail> {
    let wide = run_wide_over(alloc, words, files)?;
    let stated = run_over(alloc, words, files)?;
    Ok(wide.out.as_str() == stated.out.as_str() && wide.err.as_str() == stated.err.as_str())
}

/// Four inputs with four digits. `rp` withholds the bound from below on the output 7235 at the prices below.
const FIRM: &str = "w_a,x_a,w_b,x_b,w_c,x_c,w_d,x_d,y\n\
                    8540,356,4729,1084,1027,9845,3380,697,7235\n\
                    7023,1025,3658,3411,6565,1489,4444,1024,6316\n\
                    4270,2331,2222,7769,9413,987,6521,657,9001\n\
                    2431,1430,1304,4562,1995,2505,9338,107,7169\n";

const ASKED: &str = "w_a,w_b,w_c,w_d,y\n7943,8270,2843,7933,7235\n";

#[test]
fn a_withheld_bound_on_costs_is_filled(rt: HostRuntime) -> Result<(), Fail> {
    let files = &[("firm.csv", FIRM), ("asked.csv", ASKED)];
    let written = run_wide_over(
        rt.alloc(),
        &["rp-wide", "cost", "firm.csv", "asked.csv"],
        files,
    )?;
    assert!(rt;
        written.out.as_str()
            == "technology records 4 inputs 4 places 0 0\ncost holds\n\
        bounds prices 7943 8270 2843 7933 output 7235 \
        lower 551567013917160199/20262072270 upper 45311024 at 1\n\
        lower x 713340105137758 0 1082714313490670 218776757350669 \
        y 1:245325884750 2:65394043723 3:207135226631 over 384979373130\n"
    );
    Ok(())
}

#[test]
fn a_withheld_verdict_is_filled(rt: HostRuntime) -> Result<(), Fail> {
    let files = &[("t.csv", ROUND_COSTS)];
    let written = run_wide_over(rt.alloc(), &["rp-wide", "analyse", "t.csv"], files)?;
    assert!(rt;
        written.out.as_str().contains(
            "homothetic holds\n\
        values 1 7330081712811/8796093022208 21990241643181/35184372088832\n"
        )
    );
    Ok(())
}

#[test]
fn texts_are_the_same_where_nothing_is_withheld(rt: HostRuntime) -> Result<(), Fail> {
    let alloc = rt.alloc();
    let files = &[("t.csv", APART), ("new.csv", "p_a,p_b,m\n1,1,4\n")];
    assert!(rt; are_alike(alloc, &["rp", "certify", "t.csv"], files)?);
    assert!(rt; are_alike(alloc, &["rp", "demand", "t.csv", "new.csv"], files)?);
    assert!(rt; are_alike(alloc, &["rp", "trial", "7", "9", "3"], files)?);
    assert!(rt; are_alike(alloc, &["rp", "analyse", "none.csv"], files)?);
    let files = &[("t.csv", CONTRADICTION)];
    assert!(rt; are_alike(alloc, &["rp", "analyse", "t.csv"], files)?);
    Ok(())
}

#[test]
fn the_usage_has_the_name_of_the_edition(rt: HostRuntime) -> Result<(), Fail> {
    let written = run_wide_over(rt.alloc(), &["rp-wide"], &[])?;
    assert!(rt; written.out.as_str().is_empty());
    assert!(rt;
        written
            .err
            .as_str()
            .starts_with("usage: rp-wide pairs TABLE\n       rp-wide analyse")
    );
    Ok(())
}
