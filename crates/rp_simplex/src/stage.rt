//! A tableau of the run, by tableau 0 and multipliers.
ghost use Rattle.std.specs.Prelude.{◌≡◌, ℕ, suc, ◌+◌, ◌^◌, ◌<◌, ◌≤◌, pos, ◌*ℤ◌, length, vec_len};
ghost use Rattle.std.specs.Int.RustNames.{unsigned_abs};
ghost use Rattle.rp_farkas.specs.Limits.{FitsEvidence, largest_entry, most_columns, most_rows};
ghost use Rattle.rp_grid.specs.Rows.{AreEqual, row_of};
ghost use Rattle.rp_simplex.specs.Cells.{cell};
ghost use Rattle.rp_simplex.specs.InnerCombined.{AreSmall, combination, delta};

use crate::dot::dot_product;
use rp_grid::Grid;

/// A tableau of the run: tableau 0 by columns (right sides, slacks, the program's own), and the multipliers that make
/// each row, the objective last, out of the rows of tableau 0. No entry of tableau 0 passes `largest`.
#[derive(Drop)]
pub struct Stage {
    pub rows: usize,
    pub width: usize,
    pub den: u64,
    pub largest: u64,
    pub columns: Grid<i64>,
    pub multipliers: Grid<i64>,
    pub basis: Vec<usize>,
    ghost few_rows: { rows ≤ most_rows },
    ghost few_columns: { width ≤ 1 + most_rows + most_columns },
    ghost width_past_rows: { rows < width },
    ghost columns_count: { length columns.rows ≡ width },
    ghost columns_height: { columns.cols ≡ suc rows },
    ghost columns_equal: { AreEqual columns },
    ghost multipliers_count: { length multipliers.rows ≡ suc rows },
    ghost multipliers_width: { multipliers.cols ≡ suc rows },
    ghost multipliers_equal: { AreEqual multipliers },
    ghost basis_length: { vec_len basis ≡ rows },
    ghost den_positive: { 0 < den },
    ghost den_fits: { FitsEvidence den },
    ghost largest_small: { largest ≤ largest_entry },
    ghost small: { (j : ℕ) → j < width → AreSmall largest (row_of columns j) },
    ghost slacks: { (k s : ℕ) → k < rows → s ≤ rows → cell columns (suc k) s ≡ delta s k },
    ghost objective: { (i : ℕ) → i ≤ rows
        → cell multipliers i rows ≡ delta i rows *ℤ pos den },
    ghost entries_fit: { (i j : ℕ) → i ≤ rows → j < width
        → FitsEvidence (unsigned_abs (combination rows multipliers columns i j)) },
}

/// The product of two numbers below 2^63 in absolute value, which is below 2^126.
pub fn product(a: i64, b: i64) -> i128
    requires first { FitsEvidence (unsigned_abs a) }
    requires second { FitsEvidence (unsigned_abs b) }
    ensures value { result ≡ a *ℤ b }
    ensures fits { unsigned_abs result < 2 ^ 126 }
{
    i128::from(a) * i128::from(b)
}

impl Stage {
    ghost use Rattle.rp_simplex.specs.InnerStage.{exact};

    /// The numerator in row i and column j.
    pub fn entry(&self, i: usize, j: usize) -> i64
        requires row { i ≤ self.now.rows }
        requires column { j < self.now.width }
        ensures value { result ≡ (exact self.now).at i j }
        ensures fits { FitsEvidence (unsigned_abs result) }
    {
        dot_product(self.multipliers.row(i as u32), self.columns.row(j as u32)) as i64
    }

    /// The multiplier of row s of tableau 0 in row i.
    pub fn multiplier(&self, i: usize, s: usize) -> i64
        requires row { i ≤ self.now.rows }
        requires place { s ≤ self.now.rows }
        ensures value { result ≡ cell self.now.multipliers i s }
        ensures fits { FitsEvidence (unsigned_abs result) }
    {
        self.multipliers.row(i as u32)[s]
    }

    /// The product of the numerators in row i, column c and in row k, column j.
    pub fn cross(&self, i: usize, c: usize, k: usize, j: usize) -> i128
        requires first_row { i ≤ self.now.rows }
        requires first_column { c < self.now.width }
        requires second_row { k ≤ self.now.rows }
        requires second_column { j < self.now.width }
        ensures value { result ≡ (exact self.now).at i c *ℤ (exact self.now).at k j }
        ensures fits { unsigned_abs result < 2 ^ 126 }
    {
        product(self.entry(i, c), self.entry(k, j))
    }
}
