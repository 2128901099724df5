//! The text of rows, one household after another.
ghost use Rattle.std.specs.Prelude.{◌≡◌, ◌++◌, ℕ, List, IfOk, OnOk, map};
ghost use Rattle.std.specs.List.{flat_map};
ghost use Rattle.csv.specs.Records.{fields_of};
ghost use Rattle.csv.specs.Writing.{row_text};
ghost use Rattle.rp_rows.specs.RowText.{panel_writer};
ghost use Rattle.rp_bound_rows.specs.RowText.{header_text, lines_text, text_of_row};
ghost use Rattle.rp_bound_rows.specs.Writing.{HasWritten};

use crate::asked::BoundsAsked;
use crate::fields::{fault_record, header_record, line_record};
use crate::line::Line;
use crate::row::{BoundRow, Bounds, FoundBounds};
use csv::{ByteRecord, Writer, WriterBuilder};
use rp_num::{NoMemory, Seq};
use std::alloc::Global;

/// The text of rows so far.
#[derive(Drop)]
pub struct RowWriter {
    writer: Writer<Vec<u8>>,
}

/// The text of no rows: the header, with the names of the columns that are kept.
pub fn start_rows(alloc: Global, asked: BoundsAsked, kept: &[&[u8]]) -> Result<RowWriter, NoMemory>
    ensures { IfOk result (λ rows.
        HasWritten rows (header_text asked (map (λ name. name.now) kept.now))) }
{
    let writer = WriterBuilder::new()
        .flexible(true)
        .from_writer(Vec::new(alloc));
    let mut rows = RowWriter { writer };
    let header = header_record(alloc, asked, kept)?;
    rows.write(&header)?;
    Ok(rows)
}

impl RowWriter {
    /// Writes the lines of a household.
    pub fn write_row(&mut self, alloc: Global, row: &BoundRow) -> Result<(), NoMemory>
        ensures { OnOk result ((text : List ℕ) → HasWritten self.old text
            → HasWritten self.new (text ++ text_of_row row.now)) }
    {
        match &row.found {
            FoundBounds::Bounds(bounds) => {
                self.write_bounds(alloc, row, bounds, bounds.at.as_slice())
            }
            FoundBounds::Fault(fault) => {
                let line = fault_record(alloc, row, *fault)?;
                self.write(&line)
            }
        }
    }

    /// The text that is written.
    pub fn finish(self) -> Result<Vec<u8>, NoMemory>
        ensures { IfOk result (λ bytes. (text : List ℕ) → HasWritten self text
            → bytes.items ≡ text) }
    {
        match self.writer.into_inner() {
            Ok(text) => Ok(text),
            Err(_) => Err(NoMemory),
        }
    }

    /// Writes the lines at each record of the new prices.
    fn write_bounds(
        &mut self,
        alloc: Global,
        row: &BoundRow,
        bounds: &Bounds,
        at: &[Seq<Line>],
    ) -> Result<(), NoMemory>
        ensures { OnOk result ((text : List ℕ) → HasWritten self.old text
            → HasWritten self.new (text ++ flat_map (lines_text row.now bounds.now) at.now)) }
    {
        for lines in at {
            self.write_lines(alloc, row, bounds, lines.as_slice())?;
        }
        Ok(())
    }

    /// Writes these lines.
    fn write_lines(
        &mut self,
        alloc: Global,
        row: &BoundRow,
        bounds: &Bounds,
        lines: &[Line],
    ) -> Result<(), NoMemory>
        ensures { OnOk result ((text : List ℕ) → HasWritten self.old text
            → HasWritten self.new (text ++ lines_text row.now bounds.now lines.now)) }
    {
        for line in lines {
            let record = line_record(alloc, row, bounds, line)?;
            self.write(&record)?;
        }
        Ok(())
    }

    /// Writes a record.
    fn write(&mut self, line: &ByteRecord) -> Result<(), NoMemory>
        ensures { OnOk result ((text : List ℕ) → HasWritten self.old text
            → HasWritten self.new (text ++ row_text panel_writer (fields_of line.now))) }
    {
        match self.writer.write_byte_record(line) {
            Ok(()) => Ok(()),
            Err(_) => Err(NoMemory),
        }
    }
}
