//! A tableau that takes columns.
ghost use Rattle.rp_whole_tableau.specs.Pivots.{number_at};
ghost use Rattle.std.specs.Prelude.{◌≡◌, ◌<◌, ◌≤◌, ◌^◌, ℕ, pos, ◌+◌, ◌<ℤ◌, IfOk, MatchBool, MatchOption, length, true};
ghost use Rattle.rp_whole_tableau.specs.InnerPivots.{IsLowerOf, IsLowestBelow};
ghost use Rattle.rp_whole_tableau.specs.Programs.{AddsColumn, AreEntriesOf, ColumnPasses, HasSoMuch, IsEntering, IsFirst, IsFirstRow};
ghost use Rattle.rp_whole_tableau.specs.Programs.{IsLeft, IsSolvedBy, Stops, Turns, price_of, rows_of, width_of};

use crate::choice::leaving_row;
use crate::run::MOST_PIVOTS;
use crate::tableau::Tableau;
use rp_num::NoMemory;
use std::alloc::Global;

/// A program that takes columns: as much as it can of columns of which each is worth 1 and has 1 in some of the rows,
/// where no row may have more than its side. The tableau has the slacks alone; over the last pivot the entries of a
/// column are sums of those of the slacks of its rows, so a column is written out where it enters and not before.
#[derive(Drop)]
pub struct Grown {
    pub(crate) tableau: Tableau,
    pub(crate) columns: Vec<Vec<u32>>,
}

/// The column with the lowest entry in the objective row so far, where one is below 0, and that entry, or else 0.
#[derive(Clone, Copy)]
struct Lowest {
    column: Option<usize>,
    price: i128,
}

impl Lowest {
    /// It, or this column where its entry is lower.
    fn or(self, column: usize, price: i128) -> Lowest
        ensures { IsLowerOf self column price result }
    {
        if price < self.price {
            Lowest {
                column: Some(column),
                price,
            }
        } else {
            self
        }
    }
}

/// Row i of the first tableau: its side, and the unit of its slack among so many.
#[tactic(auto, using(crate::proofs::FirstPrograms::slack_more, crate::proofs::FirstPrograms::side_stays))]
fn first_row(alloc: Global, side: u64, i: usize, rows: usize) -> Result<Vec<i128>, NoMemory>
    requires { rows < 2 ^ 63 }
    ensures { IfOk result (λ row. IsFirstRow side i rows row.items) }
{
    let mut row = Vec::new(alloc);
    row.push(i128::from(side))?;
    for s in 0..rows {
        row.push(if s == i { 1 } else { 0 })?;
    }
    Ok(row)
}

/// The objective row of the first tableau: no value, and no prices.
#[tactic(auto, using(crate::proofs::FirstPrograms::zero_more))]
fn objective_row(alloc: Global, rows: usize) -> Result<Vec<i128>, NoMemory>
    ensures { IfOk result (λ row. (j : ℕ) → number_at row.items j ≡ pos 0) }
{
    let mut row = Vec::new(alloc);
    row.push(0)?;
    for _ in 0..rows {
        row.push(0)?;
    }
    Ok(row)
}

impl Grown {
    /// The program of rows with these sides, and no columns yet.
    #[tactic(auto, using(crate::proofs::FirstPrograms::basis_more, crate::proofs::FirstPrograms::rows_more, crate::proofs::FirstPrograms::rows_before, crate::proofs::FirstPrograms::row_last))]
    pub fn of_sides(alloc: Global, sides: &[u64]) -> Result<Grown, NoMemory>
        ensures { IfOk result (IsFirst sides.now) }
    {
        let mut rows = Vec::new(alloc);
        let mut basis = Vec::new(alloc);
        for i in 0..sides.len() {
            rows.push(first_row(alloc, sides[i], i, sides.len())?)?;
            basis.push(1 + i)?;
        }
        rows.push(objective_row(alloc, sides.len())?)?;
        Ok(Grown {
            tableau: Tableau {
                den: 1,
                rows,
                basis,
            },
            columns: Vec::new(alloc),
        })
    }

    /// Adds the column of these rows, its number how many were added before. It enters nowhere yet.
    pub fn add(&mut self, alloc: Global, rows: &[u32]) -> Result<(), NoMemory>
        ensures tableau { self.new.tableau ≡ self.old.tableau }
        ensures columns { IfOk result (λ _. AddsColumn rows.now self.old self.new) }
    {
        self.columns.push(Vec::from_slice(alloc, rows)?)?;
        Ok(())
    }

    /// The rows of a column that was added, by its number; none past the last.
    pub fn column(&self, n: u32) -> &[u32]
        ensures { result.now ≡ rows_of self.now n }
    {
        match self.columns.get(n as usize) {
            Some(rows) => rows.as_slice(),
            None => &[],
        }
    }

    /// The last pivot, over which all numbers are.
    pub fn den(&self) -> u128
        ensures exact { result ≡ self.now.tableau.den }
        ensures some { 1 ≤ result }
    {
        self.tableau.den
    }

    /// Whether there is so much of all columns.
    pub fn has(&self, much: u64) -> bool
        ensures { result ≡ true → HasSoMuch self.now much }
    {
        let value = self.tableau.entry(self.tableau.basis.len(), 0);
        value > 0 && value.unsigned_abs() / u128::from(much.max(1)) >= self.tableau.den
    }

    /// The price of a row.
    pub fn price(&self, row: usize) -> i128
        requires { row < 2 ^ 63 }
        ensures { result ≡ price_of self.now row }
    {
        self.tableau.entry(self.tableau.basis.len(), row + 1)
    }

    /// The slack with the lowest entry in the objective row, where one is below 0.
    fn lowest_slack(&self) -> Lowest
        ensures { IsLowestBelow self.now (width_of self.now.tableau) 0 result }
    {
        let objective = self.tableau.basis.len();
        let mut column = None;
        let mut price = 0;
        for j in 1..self.tableau.width() {
            let entry = self.tableau.entry(objective, j);
            if entry < price {
                column = Some(j);
                price = entry;
            }
        }
        Lowest { column, price }
    }

    /// The column that enters: the one with the lowest entry in the objective row, where that is below 0. None where an
    /// entry of a column that was added passes its width.
    fn entering(&self) -> Option<Lowest>
        ensures { MatchOption result (ColumnPasses self.now)
            (IsLowestBelow self.now (width_of self.now.tableau) (length self.now.columns.items)) }
    {
        let objective = self.tableau.basis.len();
        let width = self.tableau.width();
        let mut lowest = self.lowest_slack();
        for n in 0..self.columns.len() {
            match self.tableau.entry_of(objective, self.columns[n].as_slice()) {
                Some(entry) => lowest = lowest.or(width + n, entry),
                None => return None,
            }
        }
        Some(lowest)
    }

    /// The entries of a column, a slack or one that was added; none where one passes its width.
    fn entries_of(&self, alloc: Global, column: usize) -> Result<Option<Vec<i128>>, NoMemory>
        requires { column < width_of self.now.tableau + length self.now.columns.items }
        ensures { IfOk result (λ found. MatchOption found (ColumnPasses self.now)
            (λ entries. AreEntriesOf self.now column entries.items)) }
    {
        let width = self.tableau.width();
        if column < width {
            return Ok(Some(self.tableau.column(alloc, column)?));
        }
        let rows = self.columns[column - width].as_slice();
        self.tableau.written_out(alloc, rows)
    }

    /// Pivots in a column, a slack or one that was added. Whether some row leaves and each entry fits.
    fn enter(&mut self, alloc: Global, column: usize) -> Result<bool, NoMemory>
        requires { IsEntering self.old column }
        ensures { IfOk result (λ made. MatchBool made (Turns self.old self.new) (Stops self.old)) }
    {
        let Some(entries) = self.entries_of(alloc, column)? else {
            return Ok(false);
        };
        let Some(row) = leaving_row(&self.tableau, entries.as_slice()) else {
            return Ok(false);
        };
        if !self.tableau.pivot(alloc, row, entries.as_slice())? {
            return Ok(false);
        }
        self.tableau.enter(row, column);
        Ok(true)
    }

    /// Pivots until there is so much of all columns or none enters; false where a number passes its width, where the
    /// program has no bound, and after the most pivots.
    pub fn solve(&mut self, alloc: Global, enough: u64) -> Result<bool, NoMemory>
        ensures { IfOk result (λ solved. MatchBool solved (IsSolvedBy enough self.old self.new)
            (IsLeft self.old)) }
    {
        for _pivot in 0..MOST_PIVOTS {
            if self.has(enough) {
                return Ok(true);
            }
            let Some(lowest) = self.entering() else {
                return Ok(false);
            };
            let Some(column) = lowest.column else {
                return Ok(true);
            };
            if !self.enter(alloc, column)? {
                return Ok(false);
            }
        }
        Ok(false)
    }
}
