//! A column that was added, written out.
ghost use Rattle.std.specs.Prelude.{◌≡◌, ◌<◌, ℕ, ◌+ℤ◌, ◌-ℤ◌, IfOk, MatchOption, length};
ghost use Rattle.rp_whole_tableau.specs.Programs.{EntryPasses, IsPast, IsWrittenOut};
ghost use Rattle.rp_whole_tableau.specs.Programs.{PassesSomewhere, SumPasses, entry_of, slacks_in};

use crate::tableau::Tableau;
use rp_num::NoMemory;
use std::alloc::Global;

/// The sum of two entries; none where no entry can be it.
fn added(a: i128, b: i128) -> Option<i128>
    ensures { MatchOption result (IsPast (a +ℤ b)) (λ sum. sum ≡ a +ℤ b) }
{
    a.checked_add(b)
}

/// An entry less another; none where no entry can be it.
fn less(a: i128, b: i128) -> Option<i128>
    ensures { MatchOption result (IsPast (a -ℤ b)) (λ rest. rest ≡ a -ℤ b) }
{
    a.checked_sub(b)
}

impl Tableau {
    /// What the slacks of these rows have in row i together; none where a sum on the way passes its width.
    #[tactic(auto, using(crate::proofs::WrittenOut::sum_begun, crate::proofs::WrittenOut::sum_more, crate::proofs::WrittenOut::sum_passes))]
    fn sum_of(&self, i: usize, rows: &[u32]) -> Option<i128>
        ensures { MatchOption result (SumPasses self.now i rows.now)
            (λ sum. sum ≡ slacks_in self.now i rows.now (length rows.now)) }
    {
        let mut sum: i128 = 0;
        for k in 0..rows.len() {
            match added(sum, self.entry(i, 1 + rows[k] as usize)) {
                Some(more) => sum = more,
                None => return None,
            }
        }
        Some(sum)
    }

    /// The entry in row i of a column that has 1 in these rows: the sum of the entries of their slacks, and in the
    /// objective row less the denominator. None where a number on the way passes its width.
    pub(crate) fn entry_of(&self, i: usize, rows: &[u32]) -> Option<i128>
        ensures { MatchOption result (EntryPasses self.now i rows.now)
            (λ entry. entry ≡ entry_of self.now i rows.now) }
    {
        let sum = self.sum_of(i, rows)?;
        if i == self.basis.len() {
            less(sum, self.den as i128)
        } else {
            less(sum, 0)
        }
    }

    /// A column that has 1 in these rows, written out; none where a number passes its width.
    pub(crate) fn written_out(
        &self,
        alloc: Global,
        rows: &[u32],
    ) -> Result<Option<Vec<i128>>, NoMemory>
        ensures { IfOk result (λ found. MatchOption found (PassesSomewhere self.now rows.now)
            (λ column. IsWrittenOut self.now rows.now column.items)) }
    {
        let mut column = Vec::with_capacity(alloc, self.rows.len())?;
        for i in 0..self.rows.len() {
            match self.entry_of(i, rows) {
                Some(entry) => column.push(entry)?,
                None => return Ok(None),
            }
        }
        Ok(Some(column))
    }
}
