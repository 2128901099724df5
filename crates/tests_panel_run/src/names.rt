//! Which files words of the program name.
use crate::calls::{BEFORE, has_text};
use rp_panel_call::name_panel_files;
use std::alloc::Global;
use std::test::Fail;

/// Words, the number that the call ends with, and the names that it tells.
struct Row<'a> {
    words: &'a [u8],
    number: i32,
    names: &'a str,
}

const ROWS: &[Row<'static>] = &[
    Row {
        words: b"l.csv\0",
        number: 0,
        names: "l.csv\0",
    },
    Row {
        words: b"l.csv\0--welfare\0n.csv\0--id\0who\0",
        number: 0,
        names: "l.csv\0n.csv\0",
    },
    Row {
        words: b"l.csv\0--demand\0l.csv\0--wide\0",
        number: 0,
        names: "l.csv\0l.csv\0",
    },
    Row {
        words: b"l.csv\0--keep\0n.csv\0--pump\0",
        number: 0,
        names: "l.csv\0",
    },
    Row {
        words: b"--demand\0n.csv\0l.csv\0",
        number: 0,
        names: "l.csv\0n.csv\0",
    },
    Row {
        words: b"--demand\0n.csv\0",
        number: 2,
        names: "",
    },
    Row {
        words: b"",
        number: 2,
        names: "",
    },
    Row {
        words: b"l.csv\0--id\0\xff\0",
        number: 7,
        names: "",
    },
    Row {
        words: b"l.csv",
        number: 8,
        names: "",
    },
];

/// The names of a row stand at the front of so much room, and their whole length is told.
fn is_named(alloc: Global, row: &Row<'_>, room: usize) -> Result<(), Fail> {
    let mut names = vec![in alloc; BEFORE; room]?;
    let mut length = 0;
    let ending = name_panel_files(alloc, row.words, names.as_mut_slice(), &mut length);
    if ending.number() == row.number && has_text(names.as_slice(), length, row.names) {
        return Ok(());
    }
    let wrong = format!(in alloc;
        "{:?}: got {} {:?}",
        row.words,
        ending.number(),
        names.as_slice()
    )?;
    Err(wrong.into())
}

#[test]
fn words_name_their_files_in_order(rt: HostRuntime) -> Result<(), Fail> {
    for row in ROWS {
        for room in [row.names.len() + 8, row.names.len() / 2] {
            is_named(rt.alloc(), row, room)?;
        }
    }
    Ok(())
}
