//! The goods of a long file, and its records as a whole.
ghost use Rattle.std.specs.Prelude.{◌≡◌, ◌<◌, None, OnOk, length};
ghost use Rattle.std.specs.Result.{result_err};
ghost use Rattle.rp_num.specs.Below.{first_of};
ghost use Rattle.rp_sheet.specs.Fields.{rows_in};
ghost use Rattle.rp_sheet.specs.Headers.{headers_of};
ghost use Rattle.rp_sheet.specs.Refusals.{RefusedAt};
ghost use Rattle.rp_long.specs.LongFaults.{RefusedFor, count_fault, goods_fault, goods_fault_in};
ghost use Rattle.rp_long.specs.LongFaults.{ragged_fault};

use crate::LongFault;
use crate::in_long_file::in_long_file;
use rp_forms::{Form, number_of};
use rp_limits::long::RECORDS;
use rp_sheet::{Records, TableFault, check_goods, read_columns};
use std::alloc::Global;

/// Looks at the columns of a table for their first fault.
pub(crate) fn check_table_columns(
    alloc: Global,
    records: &Records,
    columns: &[usize],
) -> Result<(), LongFault>
    requires { 0 < length records.now }
    ensures fine { OnOk result (goods_fault columns.now records.now ≡ None) }
    ensures refused { RefusedFor result (goods_fault columns.now records.now) }
{
    let headers = records.selected(alloc, &[], columns)?;
    match check_headers(alloc, &headers) {
        Ok(()) => Ok(()),
        Err(fault) => Err(LongFault::Table(in_long_file(&[], columns, fault))),
    }
}

/// Looks at the headers of a table for their first fault.
fn check_headers(alloc: Global, headers: &Records) -> Result<(), TableFault>
    requires { 0 < length headers.now }
    ensures fine { OnOk result (goods_fault_in (headers_of headers.now) ≡ None) }
    ensures refused { RefusedAt result (goods_fault_in (headers_of headers.now)) }
{
    let columns = read_columns(alloc, &Form::table(), headers)?;
    check_goods(alloc, &[], &columns)
}

/// Looks for the first record of another length than the headers.
pub(crate) fn check_lengths(records: &Records) -> Result<(), LongFault>
    requires { 0 < length records.now }
    ensures { result_err result ≡ first_of (rows_in records.now)
        (ragged_fault (headers_of records.now) records.now) }
{
    for t in 0..records.len() - 1 {
        if records.row_width(t) != records.headers() {
            return Err(LongFault::Table(TableFault::Ragged { row: number_of(t) }));
        }
    }
    Ok(())
}

/// Whether there are records after the headers, and no more than the limit.
#[tactic(auto, unfolding(crate::specs::LongFaults::count_fault))]
pub(crate) fn check_count(records: &Records) -> Result<(), LongFault>
    requires { 0 < length records.now }
    ensures { result_err result ≡ count_fault records.now }
{
    let rows = records.len() - 1;
    if rows == 0 {
        return Err(LongFault::Table(TableFault::NoRecords));
    }
    if rows > RECORDS as usize {
        return Err(LongFault::Table(TableFault::TooManyRecords));
    }
    Ok(())
}
