//! The entries of tableau 0.
ghost use Rattle.std.specs.Prelude.{◌≡◌, ℕ, suc, ◌+◌, ◌<◌, ◌≤◌, IfOk, length, vec_len, slice_index};
ghost use Rattle.std.specs.Int.RustNames.{unsigned_abs};
ghost use Rattle.rp_farkas.specs.Limits.{largest_entry, most_rows};
ghost use Rattle.rp_grid.specs.Rows.{AreEqual, row_of};
ghost use Rattle.rp_simplex.specs.InnerCombined.{AreSmall, delta};
ghost use Rattle.rp_simplex.specs.ExactTableau.{width_of};
ghost use Rattle.rp_simplex.specs.FirstTableau.{IsFirstTableau, first_entry};
ghost use Rattle.rp_simplex.specs.Cells.{cell};
ghost use Rattle.rp_simplex.specs.InnerRows.{HasFirstEntries, IsFirstEntry, IsRowWritten};
ghost use Rattle.rp_simplex.specs.InnerStage.{exact, IsShapedFor};

use crate::stage::Stage;
use rp_farkas::Lp;
use rp_grid::Grid;
use rp_num::NoMemory;
use std::alloc::Global;

/// The entry of the program's own column j in row i of the first tableau: that of A, or the negated objective.
fn program_entry<P: Lp>(p: &P, i: usize, j: usize) -> i64
    requires row { i ≤ (P.program p.now).rows }
    requires column { j < (P.program p.now).cols }
    ensures value { result ≡ first_entry (P.program p.now) i (suc ((P.program p.now).rows + j)) }
    ensures fits { unsigned_abs result ≤ largest_entry }
{
    if i < p.rows() as usize {
        p.a(i as u32, j as u32)
    } else {
        -p.c(j as u32)
    }
}

/// The entry of the first tableau in row i and column j.
fn starting_entry<P: Lp>(p: &P, i: usize, j: usize) -> i64
    requires row { i ≤ (P.program p.now).rows }
    requires column { j < width_of (P.program p.now) }
    ensures value { result ≡ first_entry (P.program p.now) i j }
    ensures fits { unsigned_abs result ≤ largest_entry }
{
    let rows = p.rows() as usize;
    if j == 0 {
        return if i < rows { p.b(i as u32) } else { 0 };
    }
    if j <= rows {
        return if i + 1 == j { 1 } else { 0 };
    }
    program_entry(p, i, j - 1 - rows)
}

/// Writes column j of the first tableau.
fn fill_column<P: Lp>(columns: &mut Grid<i64>, p: &P, j: usize)
    requires column { j < width_of (P.program p.now) }
    requires count { length columns.old.rows ≡ width_of (P.program p.now) }
    requires height { columns.old.cols ≡ suc (P.program p.now).rows }
    ensures { IsRowWritten columns.old columns.new j columns.old.cols
        (λ i value. IsFirstEntry (P.program p.now) i j value) }
{
    for i in 0..columns.cols() as usize {
        columns.row_mut(j as u32)[i] = starting_entry(p, i, j);
    }
}

/// All columns of the first tableau in one grid.
fn starting_columns<P: Lp>(alloc: Global, p: &P) -> Result<Grid<i64>, NoMemory>
    ensures count { IfOk result (λ g. length g.rows ≡ width_of (P.program p.now)) }
    ensures height { IfOk result (λ g. g.cols ≡ suc (P.program p.now).rows) }
    ensures equal { IfOk result (λ g. AreEqual g) }
    ensures entries { IfOk result (λ g. HasFirstEntries (P.program p.now) g) }
{
    let rows = p.rows();
    let width = 1 + rows + p.cols();
    let mut columns = Grid::new(alloc, width, rows + 1, 0)?;
    for j in 0..width as usize {
        fill_column(&mut columns, p, j);
    }
    Ok(columns)
}

/// The multipliers of the first tableau, whose rows are made of themselves.
fn starting_multipliers(alloc: Global, count: u32) -> Result<Grid<i64>, NoMemory>
    requires { count ≤ suc most_rows }
    ensures count { IfOk result (λ g. length g.rows ≡ count) }
    ensures width { IfOk result (λ g. g.cols ≡ count) }
    ensures equal { IfOk result (λ g. AreEqual g) }
    ensures units { IfOk result (λ g. (i s : ℕ) → i < count → s < count → cell g i s ≡ delta i s) }
{
    let mut multipliers = Grid::new(alloc, count, count, 0)?;
    for i in 0..count {
        multipliers.row_mut(i)[i as usize] = 1;
    }
    Ok(multipliers)
}

/// The largest of an element in absolute value and those before it.
fn largest_in(column: &[i64], so_far: u64) -> u64
    requires small { AreSmall largest_entry column.now }
    requires so_far { so_far ≤ largest_entry }
    ensures small { result ≤ largest_entry }
    ensures grows { so_far ≤ result }
    ensures bounds { AreSmall result column.now }
{
    let mut largest = so_far;
    for s in 0..column.len() {
        largest = largest.max(column[s].unsigned_abs());
    }
    largest
}

/// The largest element in absolute value.
fn largest_of(columns: &Grid<i64>) -> u64
    requires small { (j : ℕ) → j < length columns.now.rows
        → AreSmall largest_entry (row_of columns.now j) }
    ensures small { result ≤ largest_entry }
    ensures bounds { (j : ℕ) → j < length columns.now.rows
        → AreSmall result (row_of columns.now j) }
{
    let mut largest = 0;
    for j in 0..columns.rows() {
        largest = largest_in(columns.row(j), largest);
    }
    largest
}

/// The slack columns, one for each row.
fn slack_columns(alloc: Global, rows: usize) -> Result<Vec<usize>, NoMemory>
    requires { rows ≤ most_rows }
    ensures length { IfOk result (λ v. vec_len v ≡ rows) }
    ensures slacks { IfOk result (λ v. (i : ℕ) → i < rows → slice_index v.items i ≡ suc i) }
{
    let mut columns = Vec::new(alloc);
    for row in 0..rows {
        columns.push(row + 1)?;
    }
    Ok(columns)
}

/// The first tableau of the program.
pub fn first_stage<P: Lp>(alloc: Global, p: &P) -> Result<Stage, NoMemory>
    ensures first { IfOk result (λ t. IsFirstTableau (P.program p.now) (exact t)) }
    ensures shape { IfOk result (λ t. IsShapedFor (P.program p.now) t) }
    ensures columns { IfOk result (λ t. HasFirstEntries (P.program p.now) t.columns) }
{
    let rows = p.rows() as usize;
    let width = 1 + rows + p.cols() as usize;
    let columns = starting_columns(alloc, p)?;
    let multipliers = starting_multipliers(alloc, rows as u32 + 1)?;
    let basis = slack_columns(alloc, rows)?;
    let largest = largest_of(&columns);
    Ok(Stage {
        rows,
        width,
        den: 1,
        largest,
        columns,
        multipliers,
        basis,
    })
}
