//! Which files words name.
use crate::call::calls::{BEFORE, has_text};
use rp_call::name_files;
use std::alloc::Global;
use std::test::Fail;

/// Words, the number that the call ends with, and the names that it tells.
struct Row<'a> {
    words: &'a [u8],
    number: i32,
    names: &'a str,
}

const ROWS: &[Row<'static>] = &[
    Row {
        words: b"pairs\0t.csv\0",
        number: 0,
        names: "t.csv\0",
    },
    Row {
        words: b"checkrandom\0b.csv\0a.csv\0c.json\0--per\x007\0",
        number: 0,
        names: "b.csv\0a.csv\0c.json\0",
    },
    Row {
        words: b"demand\0--json\0t.csv\0n.csv\0",
        number: 0,
        names: "t.csv\0n.csv\0",
    },
    Row {
        words: b"check\0t.csv\0t.csv\0",
        number: 0,
        names: "t.csv\0t.csv\0",
    },
    Row {
        words: b"pairs\0\0",
        number: 2,
        names: "",
    },
    Row {
        words: b"trial\x001\x002\x003\0",
        number: 0,
        names: "",
    },
    Row {
        words: b"pairs\0",
        number: 2,
        names: "",
    },
    Row {
        words: b"",
        number: 2,
        names: "",
    },
    Row {
        words: b"pairs\0\xff\0",
        number: 7,
        names: "",
    },
    Row {
        words: b"pairs\0t.csv",
        number: 8,
        names: "",
    },
];

/// Each row with more room than its names need, and with less.
fn each_is_named(alloc: Global, rows: &[Row<'_>]) -> Result<(), Fail> {
    for row in rows {
        for room in [row.names.len() + 8, row.names.len() / 2] {
            is_named(alloc, row, room)?;
        }
    }
    Ok(())
}

/// The names of a row stand at the front of so much room, and their whole length is told.
fn is_named(alloc: Global, row: &Row<'_>, room: usize) -> Result<(), Fail> {
    let mut names = vec![in alloc; BEFORE; room]?;
    let mut length = 0;
    let ending = name_files(alloc, row.words, names.as_mut_slice(), &mut length);
    if ending.number() == row.number && has_text(names.as_slice(), length, row.names) {
        return Ok(());
    }
    let wrong = format!(in alloc;
        "{:?}: got {} {:?}",
        row.words,
        ending.number(),
        names.as_slice()
    )?;
    Err(wrong.into())
}

#[test]
fn words_name_their_files_in_order(rt: HostRuntime) -> Result<(), Fail> {
    each_is_named(rt.alloc(), ROWS)
}
