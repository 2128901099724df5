//! Which columns of a long file are used, and for what, and which are left out.
ghost use Rattle.std.specs.Prelude.{◌≡◌, ◌==◌, ◌&&◌, ◌<◌, None, IfOk, length, map, not};
ghost use Rattle.std.specs.List.{list_any};
ghost use Rattle.indexmap.specs.IndexSet.{keys};
ghost use Rattle.rp_num.specs.Below.{first_of};
ghost use Rattle.rp_forms.specs.Texts.{place_of, text_at};
ghost use Rattle.rp_sheet.specs.ChoiceCounts.{column_named};
ghost use Rattle.rp_sheet.specs.Headers.{headers_of};
ghost use Rattle.rp_long.specs.LongColumns as Columns;
ghost use Rattle.rp_long.specs.LongColumns.{is_of_table, is_used, left_out_of, uses_of};
ghost use Rattle.rp_long.specs.LongFaults.{RefusedFor, columns_fault, kept_fault};

use crate::LongFault;
use crate::headers::read_headers;
use indexmap::IndexSet;
use rp_forms::{Form, Marks, number_of, role_of, trimmed};
use rp_num::NoMemory;
use rp_sheet::Records;
use std::alloc::Global;
use std::marker::Model;

/// The columns that are used: that of the ids, those of a table in order, and those whose texts are kept.
#[derive(Drop)]
pub(crate) struct LongColumns {
    id: usize,
    table: Vec<usize>,
    kept: Vec<usize>,
}

impl Model for LongColumns {
    ghost use Rattle.rp_long.specs.LongColumns.{Uses};

    ghost Value = { Uses };

    ghost view = { λ c. record {
      id = c.id;
      table = c.table.items;
      kept = c.kept.items;
    } };
}

impl LongColumns {
    /// The column of the ids.
    pub(crate) fn id(&self) -> usize
        ensures { result ≡ self.now.id }
    {
        self.id
    }

    /// The columns of a table, in order.
    pub(crate) fn table(&self) -> &[usize]
        ensures { result.now ≡ self.now.table }
    {
        self.table.as_slice()
    }

    /// The columns whose texts are kept.
    pub(crate) fn kept(&self) -> &[usize]
        ensures { result.now ≡ self.now.kept }
    {
        self.kept.as_slice()
    }

    /// The names of the columns of records that are used for nothing, in order.
    pub(crate) fn left_out<'a>(
        &self,
        alloc: Global,
        records: &'a Records,
    ) -> Result<Vec<&'a [u8]>, NoMemory>
        requires { 0 < length records.now }
        ensures { IfOk result (λ names. map (λ name. name.now) names.items
            ≡ left_out_of self.now (headers_of records.now)) }
    {
        let mut names = Vec::new(alloc);
        for c in 0..records.headers() {
            let header = trimmed(records.header(c));
            if !self.is_used(header, c) {
                names.push(header)?;
            }
        }
        Ok(names)
    }

    /// Whether a column with that header is used.
    fn is_used(&self, header: &[u8], c: usize) -> bool
        ensures { result ≡ is_used self.now header.now c }
    {
        c == self.id || is_of_table(header) || is_among(self.kept.as_slice(), c)
    }
}

/// Whether a column is among some.
fn is_among(columns: &[usize], c: usize) -> bool
    ensures { result ≡ list_any (λ k. k == c) columns.now }
{
    columns.contains(&c)
}

/// The columns of a long file in which the ids have that name and the texts under those names are kept.
pub(crate) fn find_columns(
    alloc: Global,
    records: &Records,
    id: &[u8],
    kept: &[&[u8]],
) -> Result<LongColumns, LongFault>
    requires { 0 < length records.now }
    ensures read { IfOk result (λ columns. columns
        ≡ uses_of id.now (map (λ name. name.now) kept.now) (headers_of records.now)) }
    ensures faultless { IfOk result (λ _. columns_fault id.now (map (λ name. name.now) kept.now)
        (headers_of records.now) ≡ None) }
    ensures refused { RefusedFor result (columns_fault id.now (map (λ name. name.now) kept.now)
        (headers_of records.now)) }
{
    let headers = read_headers(alloc, records)?;
    let Some(id) = find_column(&headers, id) else {
        return Err(LongFault::NoIdColumn);
    };
    let kept = kept_columns(alloc, &headers, kept)?;
    let table = table_columns(alloc, headers.as_slice(), id)?;
    Ok(LongColumns { id, table, kept })
}

/// The columns with these names.
fn kept_columns(
    alloc: Global,
    headers: &IndexSet<&[u8]>,
    kept: &[&[u8]],
) -> Result<Vec<usize>, LongFault>
    ensures read { IfOk result (λ columns. columns.items
        ≡ map (λ name. column_named name (map (λ key. key.now) (keys headers.now)))
        (map (λ name. name.now) kept.now)) }
    ensures faultless { IfOk result (λ _. first_of (length kept.now)
        (kept_fault (map (λ name. name.now) kept.now) (map (λ key. key.now) (keys headers.now)))
        ≡ None) }
    ensures refused { RefusedFor result (first_of (length kept.now)
        (kept_fault (map (λ name. name.now) kept.now) (map (λ key. key.now) (keys headers.now)))) }
{
    let mut columns = Vec::new(alloc);
    for k in 0..kept.len() {
        let Some(column) = find_column(headers, kept[k]) else {
            return Err(LongFault::NoKeptColumn {
                number: number_of(k),
            });
        };
        columns.push(column)?;
    }
    Ok(columns)
}

/// The column with that name.
fn find_column(headers: &IndexSet<&[u8]>, name: &[u8]) -> Option<usize>
    ensures { result ≡ place_of (map (λ key. key.now) (keys headers.now)) name.now }
{
    headers.get_index_of(name)
}

/// The columns of a table, beside that of the ids.
fn table_columns(alloc: Global, headers: &[&[u8]], id: usize) -> Result<Vec<usize>, NoMemory>
    ensures { IfOk result (λ columns. columns.items
        ≡ Columns.table_columns (map (λ header. header.now) headers.now) id) }
{
    let mut columns = Vec::new(alloc);
    for c in 0..headers.len() {
        if is_table_column(headers, id, c) {
            columns.push(c)?;
        }
    }
    Ok(columns)
}

/// Whether a column is one of a table, and not that of the ids.
fn is_table_column(headers: &[&[u8]], id: usize, c: usize) -> bool
    requires { c < length headers.now }
    ensures { result ≡ (not (c == id)
        && is_of_table (text_at (map (λ header. header.now) headers.now) c)) }
{
    c != id && is_of_table(headers[c])
}

/// Whether a table may have a column with that header.
#[tactic(auto, unfolding(crate::specs::LongColumns::is_of_table))]
fn is_of_table(header: &[u8]) -> bool
    ensures { result ≡ is_of_table header.now }
{
    match role_of(Marks::Goods, header) {
        Some(role) => Form::table().takes(role),
        None => false,
    }
}
