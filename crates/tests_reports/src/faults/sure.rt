//! An outside that never fails, and the statuses.
use rp_outside::{MemFile, SureDesk, SureSink};
use rp_run::{Status, run_surely};
use std::alloc::Global;
use std::test::Fail;
use tests_inputs::tables::ALONE;

/// The words of a command line.
fn owned(alloc: Global, words: &[&str]) -> Result<Vec<String>, Fail> {
    let mut all = Vec::new(alloc);
    for word in words {
        all.push(String::from_str(alloc, word)?)?;
    }
    Ok(all)
}

/// A file `t.csv` and no other.
fn only_file(alloc: Global, file: &str) -> Result<Vec<MemFile>, Fail> {
    let mut files = Vec::new(alloc);
    files.push(MemFile {
        name: String::from_str(alloc, "t.csv")?,
        bytes: Vec::from_slice(alloc, file.as_bytes())?,
    })?;
    Ok(files)
}

/// How the words end over a file `t.csv` of one observation, where the outside never fails.
fn status_of(alloc: Global, words: &[&str]) -> Result<Status, Fail> {
    let all = owned(alloc, words)?;
    let mut desk = SureDesk::new(only_file(alloc, ALONE)?);
    let (mut out, mut err) = (SureSink::new(), SureSink::new());
    Ok(run_surely(alloc, &all, &mut desk, &mut out, &mut err))
}

#[test]
fn an_outside_that_never_fails_leaves_the_words_and_the_files(rt: HostRuntime) -> Result<(), Fail> {
    for (words, status) in [
        (&["rp", "pairs", "t.csv"], Status::Done),
        (&["rp", "analyse", "t.csv"], Status::Done),
        (&["rp", "pairs", "no.csv"], Status::Refused),
        (&["rp", "pair", "t.csv"], Status::Usage),
    ] {
        assert!(rt; status_of(rt.alloc(), words)? == status, "{words:?}");
    }
    Ok(())
}

#[test]
fn each_status_has_its_number(rt: HostRuntime) -> Result<(), Fail> {
    for (status, number) in [
        (Status::Done, 0),
        (Status::Rejected, 1),
        (Status::Usage, 2),
        (Status::ReadFault, 3),
        (Status::Refused, 4),
        (Status::WriteFault, 5),
        (Status::NoMemory, 6),
    ] {
        assert!(rt; status.number() == number, "{status:?}");
    }
    Ok(())
}
