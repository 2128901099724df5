//! Whether a tableau is within its width.
ghost use Rattle.std.specs.Prelude.{◌≡◌, ℕ, suc, ◌^◌, ◌<◌, ◌≤◌, ℤ, List, MatchBool, length};
ghost use Rattle.std.specs.Int.RustNames.{unsigned_abs};
ghost use Rattle.rp_farkas.specs.Limits.{FitsEvidence, largest_entry, most_rows};
ghost use Rattle.rp_grid.specs.Rows.{row_of};
ghost use Rattle.rp_simplex.specs.InnerCombined.{AreSmall, ElementsFit, dot};
ghost use Rattle.rp_simplex.specs.InnerRows.{FitEvidence};

use crate::division::WIDTH;
use crate::dot::dot_product;
use rp_grid::Grid;

/// Whether the multipliers are so small that their row is within the width whatever the columns are.
fn surely_fits(multipliers: &[i64], largest: u64) -> bool
    requires few { length multipliers.now ≤ suc most_rows }
    requires fit { ElementsFit multipliers.now }
    requires small { largest ≤ largest_entry }
    ensures { MatchBool result ((column : List ℤ) → AreSmall largest column
        → FitsEvidence (unsigned_abs (dot (length multipliers.now) multipliers.now column))) Unit }
{
    let mut sum: u128 = 0;
    for s in 0..multipliers.len() {
        sum += u128::from(multipliers[s].unsigned_abs());
    }
    sum * u128::from(largest) <= WIDTH
}

/// Whether each entry of the row is within the width.
fn row_fits(multipliers: &[i64], columns: &Grid<i64>) -> bool
    requires same { columns.now.cols ≡ length multipliers.now }
    requires few { length multipliers.now ≤ suc most_rows }
    requires fit { ElementsFit multipliers.now }
    requires small { (j : ℕ) → j < length columns.now.rows
        → AreSmall largest_entry (row_of columns.now j) }
    ensures { MatchBool result ((j : ℕ) → j < length columns.now.rows → FitsEvidence
        (unsigned_abs (dot (length multipliers.now) multipliers.now (row_of columns.now j))))
        ((j : ℕ) × (j < length columns.now.rows) × (2 ^ 63
        ≤ unsigned_abs (dot (length multipliers.now) multipliers.now (row_of columns.now j)))) }
{
    for j in 0..columns.rows() {
        if dot_product(multipliers, columns.row(j)).unsigned_abs() > WIDTH {
            return false;
        }
    }
    true
}

/// Whether each entry of the tableau is within the width. Rows with large multipliers alone are looked at in full.
pub fn all_fit(multipliers: &Grid<i64>, columns: &Grid<i64>, largest: u64) -> bool
    requires same { columns.now.cols ≡ multipliers.now.cols }
    requires few { multipliers.now.cols ≤ suc most_rows }
    requires fit { (i : ℕ) → i < length multipliers.now.rows → FitEvidence multipliers.now i }
    requires largest_small { largest ≤ largest_entry }
    requires small { (j : ℕ) → j < length columns.now.rows
        → AreSmall largest (row_of columns.now j) }
    ensures { MatchBool result ((i j : ℕ) → i < length multipliers.now.rows
        → j < length columns.now.rows → FitsEvidence (unsigned_abs
        (dot multipliers.now.cols (row_of multipliers.now i) (row_of columns.now j))))
        ((i j : ℕ) × (i < length multipliers.now.rows) × (j < length columns.now.rows)
        × (2 ^ 63 ≤ unsigned_abs
        (dot multipliers.now.cols (row_of multipliers.now i) (row_of columns.now j)))) }
{
    for i in 0..multipliers.rows() {
        let row = multipliers.row(i);
        if !surely_fits(row, largest) && !row_fits(row, columns) {
            return false;
        }
    }
    true
}
