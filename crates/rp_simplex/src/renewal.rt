//! The multipliers after a pivot.
ghost use Rattle.std.specs.Prelude.{◌≡◌, suc, ◌^◌, ◌<◌, ◌≤◌, ◌*ℤ◌, length};
ghost use Rattle.std.specs.Int.RustNames.{unsigned_abs};
ghost use Rattle.rp_farkas.specs.Limits.{FitsEvidence, largest_entry, most_rows};
ghost use Rattle.rp_grid.specs.Rows.{row_of};
ghost use Rattle.rp_simplex.specs.Cells.{cell};
ghost use Rattle.rp_simplex.specs.InnerCombined.{AreSmall, dot};
ghost use Rattle.rp_simplex.specs.InnerRows.{AllFitEvidence, CanClear, CanPivot, DividesAllOf};
ghost use Rattle.rp_simplex.specs.InnerRows.{DividesEach, DividesOthers, DividesRow, DividesRows};
ghost use Rattle.rp_simplex.specs.InnerRows.{FitEvidence, RenewsRows, less_multiple, factor, moved};

use crate::division::quotient;
use crate::divisor::difference_of_products;
use crate::dot::dot_product;
use crate::stage::product;
use rp_grid::Grid;

/// Takes from row i, times the pivot's entry, the multiple of row r that clears the pivot's column, and divides. Row r
/// is read while row i is written. It stops at a number that passes the width.
fn clear_row(grid: &mut Grid<i64>, r: u32, pivot: i64, i: u32, factor: i64, divisor: u128) -> bool
    requires ready { CanClear grid.old r i pivot factor divisor }
    requires divides { DividesEach grid.old.cols divisor
        (less_multiple grid.old r i pivot factor) }
    ensures { DividesRow result grid.old grid.new i (less_multiple grid.old r i pivot factor)
        divisor }
{
    let cols = grid.cols();
    let mut rows = grid.two(i, r);
    for s in 0..cols {
        let number = difference_of_products(rows.into_at(s), pivot, factor, rows.from_at(s));
        match quotient(number, divisor) {
            Some(value) => rows.set(s, value),
            None => return false,
        }
    }
    true
}

/// Multiplies row i by a number, and divides. It stops at a number that passes the width.
fn scale_row(grid: &mut Grid<i64>, i: u32, by: i64, divisor: u128) -> bool
    requires row { i < length grid.old.rows }
    requires fit { FitEvidence grid.old i }
    requires by { FitsEvidence (unsigned_abs by) }
    requires positive { 0 < divisor }
    requires small { divisor < 2 ^ 127 }
    requires divides { DividesEach grid.old.cols divisor (λ j. cell grid.old i j *ℤ by) }
    ensures { DividesRow result grid.old grid.new i (λ j. cell grid.old i j *ℤ by) divisor }
{
    for j in 0..grid.cols() as usize {
        let entry = product(grid.row(i)[j], by);
        match quotient(entry, divisor) {
            Some(value) => grid.row_mut(i)[j] = value,
            None => return false,
        }
    }
    true
}

/// Clears the pivot's column in row i, and divides. A row with 0 there changes its scale alone.
fn renew_row(grid: &mut Grid<i64>, r: u32, pivot: i64, i: u32, factor: i64, divisor: u128) -> bool
    requires ready { CanClear grid.old r i pivot factor divisor }
    requires divides { DividesEach grid.old.cols divisor
        (less_multiple grid.old r i pivot factor) }
    ensures { DividesRow result grid.old grid.new i (less_multiple grid.old r i pivot factor)
        divisor }
{
    if factor != 0 {
        return clear_row(grid, r, pivot, i, factor, divisor);
    }
    scale_row(grid, i, pivot, divisor)
}

/// The entry of row i in the column of tableau 0 that enters.
fn factor_of(grid: &Grid<i64>, column: &[i64], i: u32) -> i64
    requires row { i < length grid.now.rows }
    requires same { length column.now ≡ grid.now.cols }
    requires few { grid.now.cols ≤ suc most_rows }
    requires fit { FitEvidence grid.now i }
    requires small { AreSmall largest_entry column.now }
    requires factor_fits { FitsEvidence
        (unsigned_abs (dot grid.now.cols (row_of grid.now i) column.now)) }
    ensures { result ≡ dot grid.now.cols (row_of grid.now i) column.now }
{
    dot_product(grid.row(i), column) as i64
}

/// Writes the new multipliers of every row but row r.
fn renew_others(grid: &mut Grid<i64>, column: &[i64], r: u32, pivot: i64, divisor: u128) -> bool
    requires ready { CanPivot grid.old column.now r pivot divisor }
    requires fit { AllFitEvidence grid.old }
    requires small { divisor < 2 ^ 127 }
    requires divides { DividesOthers grid.old r pivot (factor grid.old column.now) divisor }
    ensures { RenewsRows result grid.old grid.new r pivot (factor grid.old column.now) divisor }
{
    for i in 0..grid.rows() {
        if i != r {
            let factor = factor_of(grid, column, i);
            if !renew_row(grid, r, pivot, i, factor, divisor) {
                return false;
            }
        }
    }
    true
}

/// Writes the new multipliers of all rows, those of row r last.
pub fn renew(
    grid: &mut Grid<i64>,
    column: &[i64],
    den: u64,
    r: u32,
    pivot: i64,
    divisor: u128,
) -> bool
    requires ready { CanPivot grid.old column.now r pivot divisor }
    requires fit { AllFitEvidence grid.old }
    requires den { FitsEvidence den }
    requires small { divisor < 2 ^ 127 }
    requires divides { DividesAllOf grid.old
        (λ i. moved grid.old den r pivot i (factor grid.old column.now i)) divisor }
    ensures { DividesRows result grid.old grid.new
        (λ i. moved grid.old den r pivot i (factor grid.old column.now i)) divisor }
{
    renew_others(grid, column, r, pivot, divisor) && scale_row(grid, r, den as i64, divisor)
}
