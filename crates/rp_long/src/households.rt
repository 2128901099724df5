//! The households of a long file.
ghost use Rattle.std.specs.Prelude.{◌≡◌, ◌+◌, ◌<◌, Err, None, Ok, IfOk, length, map, slice_index_or};
ghost use Rattle.rp_limits.specs.declared.table.TheConstants.{RECORDS};
ghost use Rattle.rp_sheet.specs.Refusals.{RefusedAs};
ghost use Rattle.rp_sheet.specs.Fields.{row_at, rows_in};
ghost use Rattle.rp_sheet.specs.Records.{selected_fields};
ghost use Rattle.rp_long.specs.Ids.{grouped_below};
ghost use Rattle.rp_long.specs.LongFaults.{goods_fault};
ghost use Rattle.rp_long.specs.Panels.{household_at, id_text, panel_with};

use crate::Unnamed;
use crate::columns::LongColumns;
use crate::groups::Groups;
use crate::in_long_file::in_long_file;
use rp_limits::table::RECORDS;
use rp_num::{NoMemory, Seq};
use rp_sheet::{Records, TableFault};
use rp_table::Table;
use rp_text::read_table_of;
use std::alloc::Global;
use std::marker::Model;

/// The households of a long file, in the order of their first records, over the records of the file. The table of one is
/// read when it is asked for.
#[derive(Drop)]
pub struct Households<'a> {
    records: &'a Records,
    columns: LongColumns,
    groups: Groups<'a>,
}

impl<'a> Model for Households<'a> {
    ghost use Rattle.std.specs.Prelude.{◌≡◌, ◌<◌, None, length};
    ghost use Rattle.rp_sheet.specs.Fields.{rows_in};
    ghost use Rattle.rp_long.specs.Ids.{grouped_below};
    ghost use Rattle.rp_long.specs.LongFaults.{goods_fault};
    ghost use Rattle.rp_long.specs.Panels.{Panel, id_text, panel_with};

    ghost Value = { Panel };

    ghost view = { λ h. panel_with h.columns h.records.now };

    ghost invariant = { λ h. (1 < length h.records.now)
        × (h.groups ≡ grouped_below (id_text h.columns.id h.records.now) (rows_in h.records.now))
        × (goods_fault h.columns.table h.records.now ≡ None) };
}

impl<'a> Households<'a> {
    /// The households of these records by these uses of their columns.
    pub(crate) fn new(
        records: &'a Records,
        columns: LongColumns,
        groups: Groups<'a>,
    ) -> Households<'a>
        requires some { 1 < length records.now }
        requires grouped { groups ≡ grouped_below (id_text columns.id records.now)
            (rows_in records.now) }
        requires goods { goods_fault columns.table records.now ≡ None }
        ensures { result ≡ panel_with columns records.now }
    {
        Households {
            records,
            columns,
            groups,
        }
    }

    /// How many households there are.
    pub fn len(&self) -> usize
        ensures { result ≡ length self.now.households }
    {
        self.groups.len()
    }

    /// The id of a household, from 0, without the blanks round it.
    pub fn id(&self, h: usize) -> &[u8]
        requires { h < length self.now.households }
        ensures { result.now ≡ (household_at self.now h).id }
    {
        self.groups.id(h)
    }

    /// How many records a household has.
    pub fn observations(&self, h: usize) -> usize
        requires { h < length self.now.households }
        ensures { result ≡ length (household_at self.now h).records }
    {
        self.groups.members(h).len()
    }

    /// The texts that are kept of a household's first record.
    pub fn kept_texts(&self, alloc: Global, h: usize) -> Result<Seq<Seq<u8>>, NoMemory>
        requires { h < length self.now.households }
        ensures { IfOk result (λ texts. texts ≡ (household_at self.now h).kept) }
    {
        let first = first_of(self.groups.members(h));
        texts_in(alloc, self.records, first as usize, self.columns.kept())
    }

    /// The table of a household, or its fault with the record and the column of the long file. A household with more
    /// records than a table may have is told so before memory is asked for, so memory never runs out on its records.
    pub fn table(&self, alloc: Global, h: usize) -> Result<Table, TableFault>
        requires { h < length self.now.households }
        ensures denoted { IfOk result (λ table. (household_at self.now h).table ≡ Ok table) }
        ensures refused { RefusedAs result (household_at self.now h).table }
        ensures counted { RECORDS < length (household_at self.now h).records
            → result ≡ Err TableFault.TooManyRecords }
    {
        let rows = self.groups.members(h);
        if rows.len() > RECORDS as usize {
            return Err(TableFault::TooManyRecords);
        }
        let columns = self.columns.table();
        let records = self.records.selected(alloc, rows, columns)?;
        match read_table_of(alloc, &records) {
            Ok(table) => Ok(table),
            Err(fault) => Err(in_long_file(rows, columns, fault)),
        }
    }

    /// The names of the columns that are left out, in order.
    pub fn left_out(&self, alloc: Global) -> Result<Vec<&'a [u8]>, NoMemory>
        ensures { IfOk result (λ names. map (λ name. name.now) names.items ≡ self.now.left_out) }
    {
        self.columns.left_out(alloc, self.records)
    }

    /// The records that are refused for their ids, in order.
    pub fn unnamed(&self) -> &[Unnamed]
        ensures { result.now ≡ self.now.unnamed }
    {
        self.groups.unnamed()
    }
}

/// The first of some records, or the first of all.
fn first_of(rows: &[u32]) -> u32
    ensures { result ≡ slice_index_or rows.now 0 0 }
{
    rows.get(0).copied().unwrap_or(0)
}

/// The texts of a record in these columns.
fn texts_in(
    alloc: Global,
    records: &Records,
    t: usize,
    columns: &[usize],
) -> Result<Seq<Seq<u8>>, NoMemory>
    requires { t + 1 < length records.now }
    ensures { IfOk result (λ texts. texts
        ≡ selected_fields columns.now (row_at records.now t)) }
{
    let mut texts = Vec::new(alloc);
    for column in columns {
        let text = Vec::from_slice(alloc, records.row_field(t, *column))?;
        texts.push(Seq::from_vec(text))?;
    }
    Ok(Seq::from_vec(texts))
}
