//! The sheet of a file, stage by stage.
ghost use Rattle.std.specs.Prelude.{◌≡◌, ◌+◌, ◌<◌, ◌==◌, ◌&&◌, Some, None, OnOk, IfOk};
ghost use Rattle.std.specs.Prelude.{IfErr, length, slice_index_or};
ghost use Rattle.rp_sheet.specs.Headers.{headers_of};
ghost use Rattle.rp_sheet.specs.Fields.{nothing, count_stage};
ghost use Rattle.rp_sheet.specs.Sizes.{sheet_figures, sheet_sizes};
ghost use Rattle.rp_sheet.specs.ChoiceCounts.{choices_stage, is_chosen};
ghost use Rattle.rp_sheet.specs.Sheets.{first_fault};
ghost use Rattle.rp_sheet.specs.Refusals.{RefusedAt};

use crate::TableFault;
use crate::columns::Columns;
use crate::fields::NumberRecord;
use crate::fixed_goods::check_goods;
use crate::headers::read_columns;
use crate::record_kind::read_records;
use crate::records::Records;
use crate::sizes::read_sizes;
use rp_forms::{Form, number_of};
use rp_num::{Decimal, Seq};
use rp_table::Name;
use std::alloc::Global;

/// What a file holds that no stage refuses: its columns, its numbers and its scaled numbers.
#[derive(Drop)]
pub struct Sheet<'a> {
    pub columns: Columns<'a>,
    pub figures: Vec<Seq<Decimal>>,
    pub sizes: Vec<Seq<u64>>,
}

/// Takes a file of that kind through all stages.
pub fn read_sheet<'a>(
    alloc: Global,
    form: &Form,
    goods: &[Name],
    records: &'a Records,
) -> Result<Sheet<'a>, TableFault>
    ensures columns { IfOk result (λ sheet. sheet.columns.headers ≡ headers_of records.now) }
    ensures kind { IfOk result (λ sheet. sheet.columns.form ≡ form.now) }
    ensures figures { IfOk result
        (λ sheet. sheet.figures.items ≡ sheet_figures form.now records.now) }
    ensures sizes { IfOk result (λ sheet. sheet.sizes.items ≡ sheet_sizes form.now records.now) }
    ensures faultless { IfOk result (λ _. first_fault form.now goods.now records.now ≡ None) }
    ensures refused { RefusedAt result (first_fault form.now goods.now records.now) }
{
    if records.len() == 0 {
        return Err(TableFault::Empty);
    }
    let columns = read_columns(alloc, form, records)?;
    check_goods(alloc, goods, &columns)?;
    check_count(form, records)?;
    let figures = read_records::<NumberRecord>(alloc, &columns, records)?;
    let sizes = read_sizes(alloc, &columns, figures.as_slice())?;
    check_choices(&columns, figures.as_slice())?;
    Ok(Sheet {
        columns,
        figures,
        sizes,
    })
}

/// Whether there are records after the headers, and no more than the limit.
pub fn check_count(form: &Form, records: &Records) -> Result<(), TableFault>
    requires { 0 < length records.now }
    ensures fine { OnOk result (count_stage form.now records.now ≡ None) }
    ensures refused { IfErr result (λ fault. count_stage form.now records.now ≡ Some fault) }
{
    if records.len() == 1 {
        return Err(TableFault::NoRecords);
    }
    if records.len() - 1 > form.most as usize {
        return Err(TableFault::TooManyRecords);
    }
    Ok(())
}

/// Looks for the first budget on which nothing was chosen, in files of choices.
fn check_choices(columns: &Columns<'_>, figures: &[Seq<Decimal>]) -> Result<(), TableFault>
    ensures fine { OnOk result (choices_stage columns.now.form columns.now.headers figures.now
        ≡ None) }
    ensures refused { IfErr result
        (λ fault. choices_stage columns.now.form columns.now.headers figures.now ≡ Some fault) }
{
    for j in 0..columns.form().budgets {
        if !is_chosen(columns, figures, j) {
            return Err(TableFault::NoChoices {
                budget: number_of(j as usize),
            });
        }
    }
    Ok(())
}

/// Whether something was chosen on budget `j`, from 0.
fn is_chosen(columns: &Columns<'_>, figures: &[Seq<Decimal>], j: u32) -> bool
    ensures { result ≡ is_chosen columns.now.headers figures.now j }
{
    let budget = columns.find(b"budget").unwrap_or(0);
    let times = columns.find(b"n").unwrap_or(0);
    for row in figures {
        if units_at(row.as_slice(), budget) == u64::from(j) + 1
            && units_at(row.as_slice(), times) > 0
        {
            return true;
        }
    }
    false
}

/// The units of the number at place `c`, or 0 where there is none.
fn units_at(row: &[Decimal], c: usize) -> u64
    ensures { result ≡ (slice_index_or row.now c nothing).units }
{
    match row.get(c) {
        Some(figure) => figure.units,
        None => 0,
    }
}
