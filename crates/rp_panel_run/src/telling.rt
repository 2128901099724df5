//! What is told on standard error.
ghost use Rattle.std.specs.Prelude.{◌≡◌, [], ◌∷◌, ◌++◌, IfOk, OnOk, map};
ghost use Rattle.rp_panel_run.specs.Told as Told;
ghost use Rattle.rp_panel_run.specs.Told.{file_line, left_out_line, long_fault_text, place_text};
ghost use Rattle.rp_panel_run.specs.Told.{told_fault};

use rp_long::LongFault;
use rp_num::NoMemory;
use rp_print::{Number, push_after};
use rp_rows::Fault;
use std::alloc::Global;

/// The line with a text about a file.
pub(crate) fn line_about(alloc: Global, file: &str, text: &[u8]) -> Result<Vec<u8>, NoMemory>
    ensures { IfOk result (λ line. line.items ≡ file_line file.now text.now) }
{
    let mut line = Vec::from_slice(alloc, b"rp-panel: ")?;
    line.extend_from_slice(file.as_bytes())?;
    line.extend_from_slice(b": ")?;
    push_line(&mut line, text)?;
    Ok(line)
}

/// The line where the file of that name could not be read.
pub fn unread_line(alloc: Global, file: &str) -> Result<Vec<u8>, NoMemory>
    ensures { IfOk result (λ line. line.items ≡ Told.unread_line file.now) }
{
    line_about(alloc, file, b"read failed")
}

/// The lines for columns that are left out of the table.
pub(crate) fn left_out_lines(alloc: Global, columns: &[&[u8]]) -> Result<Vec<u8>, NoMemory>
    ensures { IfOk result (λ lines. lines.items
        ≡ Told.left_out_lines (map (λ column. column.now) columns.now)) }
{
    let mut lines = Vec::new(alloc);
    for column in columns {
        push_left_out(&mut lines, column)?;
    }
    Ok(lines)
}

/// Appends the line for a column that is left out.
fn push_left_out(lines: &mut Vec<u8>, column: &[u8]) -> Result<(), NoMemory>
    ensures { OnOk result (lines.new.items ≡ lines.old.items ++ left_out_line column.now) }
{
    lines.extend_from_slice(b"rp-panel: column ")?;
    lines.extend_from_slice(column)?;
    push_line(lines, b" is left out")?;
    Ok(())
}

/// Appends a text and the end of its line.
fn push_line(line: &mut Vec<u8>, text: &[u8]) -> Result<(), NoMemory>
    ensures { OnOk result (line.new.items ≡ line.old.items ++ (text.now ++ 10 ∷ [])) }
{
    line.extend_from_slice(text)?;
    line.push(b'\n')?;
    Ok(())
}

/// The text of the fault of a file as a whole.
pub(crate) fn long_fault_text(alloc: Global, fault: LongFault) -> Result<Vec<u8>, NoMemory>
    ensures { IfOk result (λ text. text.items ≡ long_fault_text fault) }
{
    match fault {
        LongFault::Table(fault) => told_fault(alloc, Fault::OfTable(fault)),
        LongFault::NoIdColumn => Ok(Vec::from_slice(alloc, b"NoIdColumn")?),
        LongFault::NoKeptColumn { number } => {
            let mut text = Vec::new(alloc);
            push_after::<Number>(alloc, &mut text, b"NoKeptColumn name ", number)?;
            Ok(text)
        }
    }
}

/// The word of a fault, and its record and its column.
fn told_fault(alloc: Global, fault: Fault) -> Result<Vec<u8>, NoMemory>
    ensures { IfOk result (λ text. text.items ≡ told_fault fault) }
{
    let mut text = Vec::from_slice(alloc, fault.word())?;
    push_place(alloc, &mut text, b" record ", fault.row())?;
    push_place(alloc, &mut text, b" column ", fault.column())?;
    Ok(text)
}

/// Appends a number after a word, where there is one.
fn push_place(
    alloc: Global,
    text: &mut Vec<u8>,
    word: &[u8],
    number: Option<u32>,
) -> Result<(), NoMemory>
    ensures { OnOk result (text.new.items ≡ text.old.items ++ place_text word.now number) }
{
    match number {
        Some(number) => push_after::<Number>(alloc, text, word, number),
        None => Ok(()),
    }
}
