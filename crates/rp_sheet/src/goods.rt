//! The stage that pairs the columns of goods.
ghost use Rattle.std.specs.Prelude.{◌≡◌, ◌<◌, ◌||◌, ◌&&◌, ◌++◌, None, not, OnOk, IfOk, length};
ghost use Rattle.rp_num.specs.Below.{first_of, listed};
ghost use Rattle.rp_forms.specs.Texts.{text_at, place_of};
ghost use Rattle.rp_forms.specs.Columns.{role_at, is_price, is_quantity, names_with};
ghost use Rattle.rp_sheet.specs.Headers.{has, partner_of, pair_fault};
ghost use Rattle.rp_sheet.specs.Sheets.{column_of};
ghost use Rattle.rp_sheet.specs.Refusals.{RefusedAt};

use crate::TableFault;
use crate::columns::Columns;
use rp_forms::{Role, name_in, number_of};
use rp_num::NoMemory;
use rp_table::Name;
use std::alloc::Global;

/// Looks for the first column of a good that has no partner.
pub fn check_pairs(alloc: Global, columns: &Columns<'_>) -> Result<(), TableFault>
    ensures paired { OnOk result (first_of (length columns.now.headers)
        (pair_fault columns.now.form.marks columns.now.headers) ≡ None) }
    ensures refused { RefusedAt result (first_of (length columns.now.headers)
        (pair_fault columns.now.form.marks columns.now.headers)) }
{
    for c in 0..columns.len() {
        if lacks_partner(alloc, columns, c)? {
            return Err(TableFault::Unpaired {
                column: number_of(c),
            });
        }
    }
    Ok(())
}

/// Whether column `c` is a good's and the other column of that good is missing.
fn lacks_partner(alloc: Global, columns: &Columns<'_>, c: usize) -> Result<bool, NoMemory>
    requires { c < length columns.now.headers }
    ensures { let marks = columns.now.form.marks in
        let headers = columns.now.headers in
        IfOk result (λ lacks. lacks
        ≡ ((is_price (role_at marks headers c) || is_quantity (role_at marks headers c))
        && not (has headers (partner_of marks (role_at marks headers c) (text_at headers c))))) }
{
    let name = name_in(columns.header(c));
    let marks = columns.form().marks;
    match columns.role(c) {
        Role::Price => lacks(alloc, columns, marks.quantities(), name),
        Role::Quantity => lacks(alloc, columns, marks.prices(), name),
        _ => Ok(false),
    }
}

/// Whether no column is headed by that mark and name.
pub fn lacks(
    alloc: Global,
    columns: &Columns<'_>,
    mark: &[u8],
    name: &[u8],
) -> Result<bool, NoMemory>
    ensures { IfOk result (λ lacks. lacks ≡ not (has columns.now.headers (mark.now ++ name.now))) }
{
    Ok(find_good(alloc, columns, mark, name)?.is_none())
}

/// The column that is headed by that mark and name.
fn find_good(
    alloc: Global,
    columns: &Columns<'_>,
    mark: &[u8],
    name: &[u8],
) -> Result<Option<usize>, NoMemory>
    ensures { IfOk result (λ found. found ≡ place_of columns.now.headers (mark.now ++ name.now)) }
{
    let mut header = Vec::from_slice(alloc, mark)?;
    header.extend_from_slice(name)?;
    Ok(columns.find(header.as_slice()))
}

/// The names of the goods, in the order of their prices.
pub fn read_names(alloc: Global, columns: &Columns<'_>) -> Result<Vec<Name>, NoMemory>
    ensures { IfOk result (λ names. names.items ≡ names_with columns.now.form.marks is_price
        columns.now.headers) }
{
    let mut names = Vec::new(alloc);
    for c in 0..columns.len() {
        if columns.role(c).is_price() {
            names.push(Name::new(Vec::from_slice(alloc, name_in(columns.header(c)))?))?;
        }
    }
    Ok(names)
}

/// The columns of the goods under that mark, in the order of the goods.
pub fn columns_of(
    alloc: Global,
    columns: &Columns<'_>,
    mark: &[u8],
    names: &[Name],
) -> Result<Vec<usize>, NoMemory>
    ensures { IfOk result (λ found. found.items
        ≡ listed (length names.now) (column_of mark.now columns.now.headers names.now)) }
{
    let mut found = Vec::new(alloc);
    for name in names {
        found.push(find_good(alloc, columns, mark, name.as_bytes())?.unwrap_or(0))?;
    }
    Ok(found)
}
