//! The choice of column and row.
ghost use Rattle.std.specs.Prelude.{ℕ, ◌<◌, pos, ◌<ℤ◌, IfNone, IfSome, length};
ghost use Rattle.rp_whole_tableau.specs.Pivots.{number_at};

use crate::signed::{is_less, product};
use crate::tableau::{Tableau, entry_at};

/// The column that enters: the first with a negative entry in the objective row, the slacks before the others.
pub fn entering_column(t: &Tableau) -> Option<usize> {
    let objective = t.basis.len();
    for j in 1..t.width() {
        if t.entry(objective, j) < 0 {
            return Some(j);
        }
    }
    None
}

/// Whether row `first`, divided by its entry in a column, is lexicographically less than row `second`, divided by its
/// own. The entries are multiplied crosswise.
fn is_lesser_row(t: &Tableau, column: &[i128], first: usize, second: usize) -> bool {
    let own = entry_at(column, first);
    let other = entry_at(column, second);
    for j in 0..t.width() {
        let left = product(other, t.entry(first, j));
        let right = product(own, t.entry(second, j));
        if is_less(left, right) {
            return true;
        }
        if is_less(right, left) {
            return false;
        }
    }
    false
}

/// The row that leaves where a column enters, which has its entry in each row: of the rows with a positive entry the
/// lexicographically least, each divided by that entry. None where no row has one.
pub fn leaving_row(t: &Tableau, column: &[i128]) -> Option<usize>
    ensures inside { IfSome result (λ r. r < length column.now) }
    ensures row { IfSome result (λ r. r < length t.now.basis.items) }
    ensures positive { IfSome result (λ r. pos 0 <ℤ number_at column.now r) }
    ensures none { IfNone result ((i : ℕ) → i < length t.now.basis.items → i < length column.now
        → ¬ (pos 0 <ℤ number_at column.now i)) }
{
    let mut best = None;
    for i in 0..t.basis.len().min(column.len()) {
        if column[i] > 0 {
            best = match best {
                Some(row) if !is_lesser_row(t, column, i, row) => Some(row),
                _ => Some(i),
            };
        }
    }
    best
}
