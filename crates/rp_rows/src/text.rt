//! The text of rows.
ghost use Rattle.std.specs.Prelude.{◌≡◌, ◌++◌, ℕ, List, IfOk, OnOk, map};
ghost use Rattle.csv.specs.Records.{fields_of};
ghost use Rattle.csv.specs.Writing.{row_text};
ghost use Rattle.rp_rows.specs.InnerWriting.{IsWriting};
ghost use Rattle.rp_rows.specs.RowText.{panel_writer, rows_text};

use crate::fields::{header_record, row_record};
use crate::row::Row;
use csv::{ByteRecord, Writer, WriterBuilder};
use rp_num::NoMemory;
use std::alloc::Global;

/// The header, with the names of the columns that are kept, and a line for each row.
pub fn panel_text(alloc: Global, kept: &[&[u8]], rows: &[Row]) -> Result<Vec<u8>, NoMemory>
    ensures { IfOk result (λ text. text.items
        ≡ rows_text (map (λ name. name.now) kept.now) rows.now) }
{
    let mut writer = WriterBuilder::new()
        .flexible(true)
        .from_writer(Vec::new(alloc));
    let header = header_record(alloc, kept)?;
    write(&mut writer, &header)?;
    for row in rows {
        let line = row_record(alloc, row)?;
        write(&mut writer, &line)?;
    }
    match writer.into_inner() {
        Ok(text) => Ok(text),
        Err(_) => Err(NoMemory),
    }
}

/// Writes a record.
fn write(writer: &mut Writer<Vec<u8>>, line: &ByteRecord) -> Result<(), NoMemory>
    ensures { OnOk result ((text : List ℕ) → IsWriting writer.old text
        → IsWriting writer.new (text ++ row_text panel_writer (fields_of line.now))) }
{
    match writer.write_byte_record(line) {
        Ok(()) => Ok(()),
        Err(_) => Err(NoMemory),
    }
}
