//! The stage that looks for the goods of a table beside a file.
ghost use Rattle.std.specs.Prelude.{◌≡◌, ◌<◌, ◌||◌, ◌&&◌, ◌==◌, ℕ, List, None, not, if◌then◌else◌};
ghost use Rattle.std.specs.Prelude.{OnOk};
ghost use Rattle.std.specs.Prelude.{IfOk, length};
ghost use Rattle.std.specs.Str.{bytes_eq};
ghost use Rattle.indexmap.specs.IndexSet.{contains_by};
ghost use Rattle.rp_num.specs.Below.{first_of};
ghost use Rattle.rp_forms.specs.Texts.{text_at};
ghost use Rattle.rp_forms.specs.Columns.{role_at, name_in, is_price, is_quantity};
ghost use Rattle.rp_sheet.specs.Headers as Headers;
ghost use Rattle.rp_sheet.specs.Headers.{has, names_of, other_goods_fault, present_fault};
ghost use Rattle.rp_sheet.specs.Headers.{missing_fault};
ghost use Rattle.rp_sheet.specs.Headers.{goods_stage, is_missing};
ghost use Rattle.rp_forms.specs.Columns.{has_goods};
ghost use Rattle.rp_sheet.specs.Refusals.{RefusedAt};

use crate::TableFault;
use crate::columns::Columns;
use crate::goods::{check_pairs, lacks};
use indexmap::IndexSet;
use rp_forms::{Column, Form, Role, name_in, number_of};
use rp_limits::table::GOODS;
use rp_num::NoMemory;
use rp_table::Name;
use std::alloc::Global;

/// Looks at the columns of the goods: those that are there, those that are missing, and their number.
pub fn check_goods(alloc: Global, goods: &[Name], columns: &Columns<'_>) -> Result<(), TableFault>
    ensures fine { OnOk result (goods_stage columns.now.form goods.now columns.now.headers ≡ None) }
    ensures refused { RefusedAt result (goods_stage columns.now.form goods.now
        columns.now.headers) }
{
    check_present(alloc, goods, columns)?;
    check_missing(alloc, goods, columns)?;
    if count_goods(columns) > GOODS as usize {
        return Err(TableFault::TooManyGoods);
    }
    Ok(())
}

/// Looks at the columns of goods that are there.
#[tactic(auto, unfolding(crate::specs::Headers::present_fault))]
fn check_present(alloc: Global, goods: &[Name], columns: &Columns<'_>) -> Result<(), TableFault>
    ensures fine { OnOk result (present_fault columns.now.form goods.now columns.now.headers
        ≡ None) }
    ensures refused { RefusedAt result (present_fault columns.now.form goods.now
        columns.now.headers) }
{
    if columns.form().fixed_goods {
        return check_other_goods(alloc, goods, columns);
    }
    if !columns.form().prices {
        return Ok(());
    }
    if !columns.form().quantities {
        return Ok(());
    }
    check_pairs(alloc, columns)
}

/// Looks for the first column of a good that is not one of the fixed goods.
fn check_other_goods(alloc: Global, goods: &[Name], columns: &Columns<'_>) -> Result<(), TableFault>
    ensures fine { OnOk result
        (first_of (length columns.now.headers) (other_goods_fault columns.now.form.marks goods.now
        columns.now.headers) ≡ None) }
    ensures refused { RefusedAt result
        (first_of (length columns.now.headers) (other_goods_fault columns.now.form.marks goods.now
        columns.now.headers)) }
{
    let fixed = names_found(alloc, goods)?;
    for c in 0..columns.len() {
        if is_other_good(&fixed, columns, c) {
            return Err(TableFault::OtherGoods {
                column: number_of(c),
            });
        }
    }
    Ok(())
}

/// The names of goods, to be found by name.
fn names_found<'a>(alloc: Global, names: &'a [Name]) -> Result<IndexSet<&'a [u8]>, NoMemory>
    ensures { IfOk result (λ found. (name : List ℕ)
        → contains_by (λ key. bytes_eq name key.now) found ≡ has names.now name) }
{
    let mut found = IndexSet::new(alloc);
    for name in names {
        found.insert(name.as_bytes())?;
    }
    Ok(found)
}

/// Whether column `c` is that of a good that is not one of the fixed goods.
fn is_other_good(fixed: &IndexSet<&[u8]>, columns: &Columns<'_>, c: usize) -> bool
    requires { c < length columns.now.headers }
    ensures { result ≡ ((is_price (role_at columns.now.form.marks columns.now.headers c)
        || is_quantity (role_at columns.now.form.marks columns.now.headers c))
        && not (contains_by (λ key. bytes_eq (name_in (text_at columns.now.headers c)) key.now)
        fixed.now)) }
{
    let listed = fixed.contains(name_in(columns.header(c)));
    match columns.role(c) {
        Role::Price | Role::Quantity => !listed,
        _ => false,
    }
}

/// Looks for a column that is missing.
fn check_missing(alloc: Global, goods: &[Name], columns: &Columns<'_>) -> Result<(), TableFault>
    ensures fine { OnOk result (missing_fault columns.now.form goods.now columns.now.headers
        ≡ None) }
    ensures refused { RefusedAt result (missing_fault columns.now.form goods.now
        columns.now.headers) }
{
    if lacks_all_goods(columns) {
        return Err(TableFault::Unpaired { column: 0 });
    }
    if lacks_column(columns) {
        return Err(TableFault::Unpaired { column: 0 });
    }
    if !columns.form().fixed_goods {
        return Ok(());
    }
    if lacks_good(alloc, goods, columns)? {
        return Err(TableFault::OtherGoods { column: 0 });
    }
    Ok(())
}

/// Whether there are to be goods, and there is none.
fn lacks_all_goods(columns: &Columns<'_>) -> bool
    ensures { result ≡ (has_goods columns.now.form
        && (length (names_of columns.now.form columns.now.headers) == 0)) }
{
    if columns.form().has_goods() {
        count_goods(columns) == 0
    } else {
        false
    }
}

/// Whether a column is missing that is no good's.
fn lacks_column(columns: &Columns<'_>) -> bool
    ensures { result ≡ Headers.lacks_column columns.now.form columns.now.headers }
{
    columns
        .form()
        .named
        .iter()
        .any(|column| is_missing(columns, *column))
}

/// Whether a column is required and missing.
fn is_missing(columns: &Columns<'_>, column: Option<Column>) -> bool
    ensures { result ≡ is_missing columns.now.headers column }
{
    match column {
        Some(column) if column.required => columns.find(column.role.header()).is_none(),
        _ => false,
    }
}

/// Whether one of the fixed goods has no column.
fn lacks_good(alloc: Global, goods: &[Name], columns: &Columns<'_>) -> Result<bool, NoMemory>
    ensures { IfOk result (λ missing. missing ≡ Headers.lacks_good columns.now.form goods.now
        columns.now.headers) }
{
    for good in goods {
        if lacks(alloc, columns, good_mark(columns.form()), good.as_bytes())? {
            return Ok(true);
        }
    }
    Ok(false)
}

/// What the column of a good is headed by, before its name.
fn good_mark(form: &Form) -> &'static [u8]
    ensures { result.now ≡ Headers.good_mark form.now }
{
    if form.prices {
        form.marks.prices()
    } else {
        form.marks.quantities()
    }
}

/// How many goods have columns.
fn count_goods(columns: &Columns<'_>) -> usize
    ensures { result ≡ length (names_of columns.now.form columns.now.headers) }
{
    let mut count = 0;
    for c in 0..columns.len() {
        if is_named(columns.form(), columns.role(c)) {
            count += 1;
        }
    }
    count
}

/// Whether a column of that role names a good.
fn is_named(form: &Form, role: Role) -> bool
    ensures { result ≡ (if form.now.prices then is_price else is_quantity) role }
{
    if form.prices {
        role.is_price()
    } else {
        role.is_quantity()
    }
}
