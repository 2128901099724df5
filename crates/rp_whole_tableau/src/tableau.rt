//! The tableau on whole numbers over one denominator.
ghost use Rattle.std.specs.Prelude.{◌≡◌, ◌<◌, ◌≤◌, ◌^◌, IfOk, length, slice_set};
ghost use Rattle.rp_whole_tableau.specs.Pivots.{IsColumnAt, entry_in, number_at, row_of};

use rp_farkas::Lp;
use rp_num::NoMemory;
use std::alloc::Global;

/// A tableau on whole numbers over one denominator: a row for each row of the program and the objective's last; in each
/// the right side, a slack for each row, and the program's own columns. `basis` has the basic column of each row.
#[derive(Drop)]
pub struct Tableau {
    pub den: u128,
    pub rows: Vec<Vec<i128>>,
    pub basis: Vec<usize>,
    ghost positive: { 1 ≤ den },
    ghost small: { den < 2 ^ 127 },
}

/// The entry at a place, or 0 past the end.
pub fn entry_at(row: &[i128], place: usize) -> i128
    ensures { result ≡ number_at row.now place }
{
    match row.get(place) {
        Some(entry) => *entry,
        None => 0,
    }
}

/// Row i of the first tableau: the right side, the unit of its slack, and the row of A.
fn first_row<P: Lp>(alloc: Global, p: &P, i: u32) -> Result<Vec<i128>, NoMemory>
    requires { i < (P.program p.now).rows }
{
    let mut row = Vec::new(alloc);
    row.push(i128::from(p.b(i)))?;
    for s in 0..p.rows() {
        row.push(if s == i { 1 } else { 0 })?;
    }
    for j in 0..p.cols() {
        row.push(i128::from(p.a(i, j)))?;
    }
    Ok(row)
}

/// The objective row of the first tableau: no value, no slacks, and the objective with its sign turned.
fn objective_row<P: Lp>(alloc: Global, p: &P) -> Result<Vec<i128>, NoMemory> {
    let mut row = Vec::new(alloc);
    for _ in 0..p.rows() + 1 {
        row.push(0)?;
    }
    for j in 0..p.cols() {
        row.push(-i128::from(p.c(j)))?;
    }
    Ok(row)
}

impl Tableau {
    /// The first tableau of a program, over the denominator 1. The slacks are basic.
    pub fn first<P: Lp>(alloc: Global, p: &P) -> Result<Tableau, NoMemory> {
        let mut rows = Vec::new(alloc);
        let mut basis = Vec::new(alloc);
        for i in 0..p.rows() {
            rows.push(first_row(alloc, p, i)?)?;
            basis.push(1 + i as usize)?;
        }
        rows.push(objective_row(alloc, p)?)?;
        Ok(Tableau {
            den: 1,
            rows,
            basis,
        })
    }

    /// The entry in a row and a column, or 0 outside of the tableau.
    pub fn entry(&self, i: usize, j: usize) -> i128
        ensures { result ≡ entry_in self.now.rows.items i j }
    {
        match self.rows.get(i) {
            Some(row) => entry_at(row.as_slice(), j),
            None => 0,
        }
    }

    /// A column, with its entry in each row.
    #[tactic(auto, using(crate::proofs::Entries::column_more))]
    pub fn column(&self, alloc: Global, j: usize) -> Result<Vec<i128>, NoMemory>
        ensures { IfOk result (λ column. IsColumnAt self.now.rows.items j column.items) }
    {
        let mut column = Vec::with_capacity(alloc, self.rows.len())?;
        for i in 0..self.rows.len() {
            column.push(self.entry(i, j))?;
        }
        Ok(column)
    }

    /// Makes a column the basic one of a row.
    pub fn enter(&mut self, row: usize, column: usize)
        requires { row < length self.old.basis.items }
        ensures den { self.new.den ≡ self.old.den }
        ensures rows { self.new.rows ≡ self.old.rows }
        ensures basis { self.new.basis.items ≡ slice_set self.old.basis.items row column }
    {
        self.basis[row] = column;
    }

    /// How many entries a row has.
    pub fn width(&self) -> usize
        ensures entries { result ≡ length (row_of self.now.rows.items 0) }
        ensures small { result < 2 ^ 63 }
    {
        match self.rows.first() {
            Some(row) => row.len(),
            None => 0,
        }
    }
}
