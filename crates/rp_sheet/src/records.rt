//! The stage that splits bytes into records.
ghost use Rattle.std.specs.Prelude.{◌≡◌, ◌+◌, ◌<◌, All, IfOk, length, take};
ghost use Rattle.csv.specs.Records.{fields_of};
ghost use Rattle.rp_sheet.specs.Records.{records_in, record_at, selected_fields};
ghost use Rattle.rp_sheet.specs.Selections.{selected_records};
ghost use Rattle.rp_sheet.specs.Fields.{row_at};
ghost use Rattle.rp_forms.specs.Texts.{text_at};

use csv::{ByteRecord, ReaderBuilder};
use rp_num::NoMemory;
use std::alloc::Global;
use std::marker::Model;

/// The bytes of fields for which a record has room as it is begun.
const BYTES_AT_FIRST: usize = 64;

/// The fields for which a record has room as it is begun.
const FIELDS_AT_FIRST: usize = 8;

/// The records of a file, each a list of fields.
#[derive(Drop)]
pub struct Records {
    records: Vec<ByteRecord>,
}

impl Model for Records {
    ghost use Rattle.std.specs.Prelude.{ℕ, List, map};
    ghost use Rattle.csv.specs.Records.{fields_of};

    ghost Value = { List (List (List ℕ)) };

    ghost view = { λ r. map fields_of r.records.items };
}

impl Records {
    /// Reads the records of a file, and no more than so many.
    pub fn of(alloc: Global, bytes: &[u8], most: usize) -> Result<Records, NoMemory>
        ensures { IfOk result (λ records. records ≡ take most (records_in bytes.now)) }
    {
        let mut reader = ReaderBuilder::new()
            .has_headers(false)
            .flexible(true)
            .from_reader(alloc, bytes);
        let mut records = Vec::new(alloc);
        for _ in 0..most {
            let mut row = ByteRecord::with_capacity(alloc, BYTES_AT_FIRST, FIELDS_AT_FIRST)?;
            match reader.read_byte_record(&mut row) {
                Ok(true) => records.push(row)?,
                Ok(false) => return Ok(Records { records }),
                Err(_) => return Err(NoMemory),
            }
        }
        Ok(Records { records })
    }

    /// The headers of these columns, and these records after the headers in these columns alone, from 0.
    #[tactic(auto, unfolding(crate::specs::Selections::selected_records))]
    pub fn selected(
        &self,
        alloc: Global,
        rows: &[u32],
        columns: &[usize],
    ) -> Result<Records, NoMemory>
        requires headers { 0 < length self.now }
        requires there { All (λ t. t + 1 < length self.now) rows.now }
        ensures { IfOk result (λ records. records
            ≡ selected_records self.now rows.now columns.now) }
    {
        let mut records = Vec::new(alloc);
        records.push(select_fields(alloc, &self.records[0], columns)?)?;
        for t in rows {
            records.push(select_fields(alloc, &self.records[*t as usize + 1], columns)?)?;
        }
        Ok(Records { records })
    }

    /// How many records there are.
    pub fn len(&self) -> usize
        ensures { result ≡ length self.now }
    {
        self.records.len()
    }

    /// How many headers there are.
    pub fn headers(&self) -> usize
        requires { 0 < length self.now }
        ensures { result ≡ length (record_at self.now 0) }
    {
        self.records[0].len()
    }

    /// The header of column `c`, from 0.
    pub fn header(&self, c: usize) -> &[u8]
        requires { 0 < length self.now }
        ensures { result.now ≡ text_at (record_at self.now 0) c }
    {
        field_of(&self.records[0], c)
    }

    /// How many fields the t-th record after the headers has, from 0.
    pub fn row_width(&self, t: usize) -> usize
        requires { t + 1 < length self.now }
        ensures { result ≡ length (row_at self.now t) }
    {
        self.records[t + 1].len()
    }

    /// A field of the t-th record after the headers.
    pub fn row_field(&self, t: usize, c: usize) -> &[u8]
        requires { t + 1 < length self.now }
        ensures { result.now ≡ text_at (row_at self.now t) c }
    {
        field_of(&self.records[t + 1], c)
    }
}

/// A field of a record, from 0.
fn field_of(row: &ByteRecord, c: usize) -> &[u8]
    ensures { result.now ≡ text_at (fields_of row.now) c }
{
    match row.get(c) {
        Some(field) => field,
        None => b"",
    }
}

/// The fields of a record in these columns, from 0.
fn select_fields(alloc: Global, row: &ByteRecord, columns: &[usize]) -> Result<ByteRecord, NoMemory>
    ensures { IfOk result (λ selected. fields_of selected
        ≡ selected_fields columns.now (fields_of row.now)) }
{
    let mut selected = ByteRecord::with_capacity(alloc, BYTES_AT_FIRST, FIELDS_AT_FIRST)?;
    for c in columns {
        selected.push_field(field_of(row, *c))?;
    }
    Ok(selected)
}
