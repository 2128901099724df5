//! One pivot on whole numbers.
ghost use Rattle.std.specs.Prelude.{◌≡◌, ◌≢◌, ◌<◌, ◌≤◌, ◌^◌, pos, ◌*ℤ◌, ◌<ℤ◌};
ghost use Rattle.std.specs.Prelude.{IfOk, IfSome, MatchBool, MatchOption, length};
ghost use Rattle.rp_whole_tableau.specs.InnerPivots.{AreRenewedBelow, PassesSome};
ghost use Rattle.rp_whole_tableau.specs.Pivots.{HasNoQuotientBy, IsPivotIn, IsRowRenewed};
ghost use Rattle.rp_whole_tableau.specs.Pivots.{PassesWidth, PivotPasses, crossed, number_at, row_of};

use crate::divisor::{Divisor, product_of_words};
use crate::signed::{difference, entry_of, product};
use crate::tableau::{Tableau, entry_at};
use rp_num::NoMemory;
use std::alloc::Global;

/// What every entry is renewed by: the pivot, and the last pivot, which divides.
#[derive(Drop)]
struct Renewal {
    pivot: i128,
    by: Divisor,
    ghost positive: { pos 0 <ℤ pivot },
}

/// What an entry is renewed to before it is divided, where all numbers are of one word.
fn crossed_in_words(pivot: i128, entry: i128, factor: i128, across: i128) -> Option<i128>
    ensures { IfSome result (λ number. number ≡ crossed pivot entry factor across) }
{
    let kept = product_of_words(entry, pivot)?;
    let taken = product_of_words(factor, across)?;
    kept.checked_sub(taken)
}

impl Renewal {
    /// The entry after a pivot as below, where all numbers are of one word.
    fn in_words(&self, entry: i128, factor: i128, across: i128) -> Option<i128>
        ensures { IfSome result (λ renewed. renewed *ℤ pos self.now.by.number
            ≡ crossed self.now.pivot entry factor across) }
    {
        self.by
            .word_quotient(crossed_in_words(self.pivot, entry, factor, across)?)
    }

    /// The entry after a pivot: times the pivot, less what its row has in the pivot's column times what the pivot's row
    /// has in its own, divided by the last pivot. None where that is no whole number below 2^127.
    fn renewed(&self, entry: i128, factor: i128, across: i128) -> Option<i128>
        ensures { MatchOption result
            (HasNoQuotientBy self.now.by.number (crossed self.now.pivot entry factor across))
            (λ renewed. renewed *ℤ pos self.now.by.number
            ≡ crossed self.now.pivot entry factor across) }
    {
        if entry == 0 && (factor == 0 || across == 0) {
            return Some(0);
        }
        if let Some(found) = self.in_words(entry, factor, across) {
            return Some(found);
        }
        let found = difference(product(entry, self.pivot), product(factor, across));
        entry_of(found, self.by.number)
    }

    /// Writes a row anew, which has this in the pivot's column. Whether each entry fits.
    #[tactic(auto, using(crate::proofs::Entries::row_more, crate::proofs::Entries::row_begun, crate::proofs::Entries::row_done, crate::proofs::Entries::row_stays_by))]
    fn renew_row(&self, row: &mut Vec<i128>, factor: i128, pivot_row: &[i128]) -> bool
        ensures { MatchBool result
            (IsRowRenewed self.now.by.number self.now.pivot factor pivot_row.now row.old.items
            row.new.items)
            (PassesWidth self.now.by.number self.now.pivot factor pivot_row.now row.old.items) }
    {
        if factor == 0 && self.pivot.unsigned_abs() == self.by.number {
            return true;
        }
        for j in 0..row.len() {
            match self.renewed(row[j], factor, entry_at(pivot_row, j)) {
                Some(entry) => row[j] = entry,
                None => return false,
            }
        }
        true
    }

    /// Writes every row but row r anew. Whether each entry fits.
    #[tactic(auto, using(crate::proofs::Entries::rows_more, crate::proofs::Entries::rows_left_out, crate::proofs::Entries::rows_begun, crate::proofs::Entries::row_read))]
    fn renew_rows(
        &self,
        rows: &mut Vec<Vec<i128>>,
        column: &[i128],
        pivot_row: &[i128],
        r: usize,
    ) -> bool
        requires { self.now.pivot ≡ number_at column.now r }
        ensures { MatchBool result
            (AreRenewedBelow self.now.by.number pivot_row.now column.now r rows.old.items
            rows.new.items (length rows.old.items))
            (PassesSome self.now.by.number pivot_row.now column.now r rows.old.items) }
    {
        for i in 0..rows.len() {
            if i != r && !self.renew_row(&mut rows[i], entry_at(column, i), pivot_row) {
                return false;
            }
        }
        true
    }
}

impl Tableau {
    /// The pivot in row r and a column, which has its entry in each row. Whether each entry fits; the tableau is of no
    /// use where one does not.
    #[tactic(auto, using(crate::proofs::Entries::pivot_made, crate::proofs::Entries::pivot_passes, crate::proofs::Entries::abs_is, crate::proofs::Entries::row_read))]
    pub fn pivot(&mut self, alloc: Global, r: usize, column: &[i128]) -> Result<bool, NoMemory>
        requires row { r < length self.old.rows.items }
        requires positive { pos 0 <ℤ number_at column.now r }
        ensures pivot { IfOk result (λ fits. MatchBool fits
            (IsPivotIn self.old.den self.old.rows.items column.now r self.new.den
            self.new.rows.items)
            (PivotPasses self.old.den self.old.rows.items column.now r)) }
        ensures basis { self.new.basis ≡ self.old.basis }
    {
        let pivot_row = Vec::from_slice(alloc, self.rows[r].as_slice())?;
        let pivot = entry_at(column, r);
        let renewal = Renewal {
            pivot,
            by: Divisor::new(self.den),
        };
        if !renewal.renew_rows(&mut self.rows, column, pivot_row.as_slice(), r) {
            return Ok(false);
        }
        self.den = pivot.unsigned_abs();
        Ok(true)
    }
}
