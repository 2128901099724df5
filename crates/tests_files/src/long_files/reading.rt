//! What is found in long files that are written out. The reader is called by functions with no clause, so that no proof
//! works out what such a file denotes.
ghost use Rattle.std.specs.Prelude.{◌<◌, length};

use rp_long::{Households, LongFault, read_long_records, read_panel};
use rp_num::{NoMemory, Seq};
use rp_table::Table;
use rp_text::TableFault;
use std::alloc::{AllocError, Global};
use std::process::Abort;
use std::test::Fail;

/// Puts the scaled prices and quantities of a table at the end of a text, by observation.
fn push_table(text: &mut String, table: &Table) -> Result<(), AllocError> {
    for t in 0..table.n() {
        text.push_str(" [")?;
        for g in 0..table.goods() {
            let (price, quantity) = (table.price(t, g), table.quantity(t, g));
            write!(text, " {price}x{quantity}")?;
        }
        text.push_str("]")?;
    }
    Ok(())
}

/// Puts texts at the end of a text, each after a colon.
fn push_kept(text: &mut String, kept: &Seq<Seq<u8>>) -> Result<(), AllocError> {
    for field in kept.as_slice() {
        text.push_str(" :")?;
        push_bytes(text, field.as_slice())?;
    }
    Ok(())
}

/// Puts bytes at the end of a text; what is no text is told as such.
fn push_bytes(text: &mut String, bytes: &[u8]) -> Result<(), AllocError> {
    match std::str::from_utf8(bytes) {
        Ok(read) => text.push_str(read),
        Err(_) => text.push_str("no text"),
    }
}

/// A household's id, how many records it has, its table or its fault, and its texts.
fn push_household(
    alloc: Global,
    text: &mut String,
    panel: &Households<'_>,
    h: usize,
) -> Result<(), NoMemory>
    requires { h < length panel.now.households }
{
    push_bytes(text, panel.id(h))?;
    let observations = panel.observations(h);
    write!(text, " {observations}")?;
    match panel.table(alloc, h) {
        Ok(table) => push_table(text, &table)?,
        Err(fault) => write!(text, " {fault:?}")?,
    }
    let kept = panel.kept_texts(alloc, h)?;
    push_kept(text, &kept)?;
    text.push_str(";")?;
    Ok(())
}

/// All households, and the records that are refused for their ids.
fn households(alloc: Global, panel: &Households<'_>) -> Result<String, NoMemory> {
    let mut text = String::new(alloc);
    for h in 0..panel.len() {
        push_household(alloc, &mut text, panel, h)?;
    }
    for refused in panel.unnamed() {
        let (row, fault) = (refused.row, refused.fault);
        write!(text, "{fault:?} {row};")?;
    }
    Ok(text)
}

/// What a long file says, with the texts under these names.
fn told_of(alloc: Global, file: &str, id: &str, kept: &[&[u8]]) -> Result<String, NoMemory> {
    let records = read_long_records(alloc, file.as_bytes())?;
    match read_panel(alloc, &records, id.as_bytes(), kept) {
        Ok(panel) => households(alloc, &panel),
        Err(LongFault::Table(fault)) => Ok(format!(in alloc; "{fault:?}")?),
        Err(fault) => Ok(format!(in alloc; "{fault:?}")?),
    }
}

/// Asserts what a long file says.
pub(crate) fn assert_told(
    rt: &impl Abort,
    alloc: Global,
    file: &str,
    id: &str,
    kept: &[&[u8]],
    wanted: &str,
) -> Result<(), Fail> {
    let Ok(got) = told_of(alloc, file, id, kept) else {
        return Err(Fail::from(AllocError));
    };
    assert!(rt; got.as_str() == wanted, "{file} => {got}");
    Ok(())
}

/// Asserts what each long file says. A line has the lines of a file, each with a bar at its end, an arrow, and what is
/// found.
pub(crate) fn assert_files(
    rt: &impl Abort,
    alloc: Global,
    id: &str,
    kept: &[&[u8]],
    cases: &str,
) -> Result<(), Fail> {
    for case in cases.lines() {
        let (lines, wanted) = case.split_once(" => ").unwrap_or((case, ""));
        let file = lines.replace(alloc, '|', "\n")?;
        assert_told(rt, alloc, file.as_str(), id, kept, wanted)?;
    }
    Ok(())
}

/// How many households a file has, how many of the last of them have a table, and how many records are refused for
/// their ids; or the file's fault.
pub(crate) fn counted(
    alloc: Global,
    file: &str,
    last: usize,
) -> Result<(usize, usize, usize), TableFault> {
    let records = read_long_records(alloc, file.as_bytes())?;
    match read_panel(alloc, &records, b"household", &[]) {
        Ok(panel) => {
            let tables = last_tables(alloc, &panel, last);
            Ok((panel.len(), tables, panel.unnamed().len()))
        }
        Err(LongFault::Table(fault)) => Err(fault),
        Err(_) => Err(TableFault::Empty),
    }
}

fn last_tables(alloc: Global, panel: &Households<'_>, last: usize) -> usize {
    let mut count = 0usize;
    let households = panel.len();
    for h in households.saturating_sub(last)..households {
        if panel.table(alloc, h).is_ok() {
            count = count.saturating_add(1);
        }
    }
    count
}
