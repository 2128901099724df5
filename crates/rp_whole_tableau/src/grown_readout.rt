//! What is read off a tableau that took columns.
ghost use Prim.Native.Nat.{◌∣◌};
ghost use Rattle.std.specs.Prelude.{◌≡◌, ◌<◌, ◌≤◌, ◌+◌, ◌*◌, IfNone, IfOk, IfSome, MatchOption, slice_index};
ghost use Rattle.std.specs.Int.RustNames.{unsigned_abs};
ghost use Rattle.rp_farkas.specs.declared.listing.TheConstants.{EVIDENCE_WIDTH};
ghost use Rattle.rp_whole_tableau.specs.InnerReadOff.{DividesPoint, DividesWith};
ghost use Rattle.rp_whole_tableau.specs.Pivots.{entry_in};
ghost use Rattle.rp_whole_tableau.specs.Programs.{NumberPasses, SidePasses, SomeSidePasses, objective_of, width_of};
ghost use Rattle.rp_whole_tableau.specs.ReadOff.{AreAmounts, HasNoAmount, IsAmount, IsPairOf, IsPointBy, IsPointOf};

use crate::grown::Grown;
use crate::readout::{prices, reduced};
use rp_farkas::{EVIDENCE_WIDTH, Entry, Pair};
use rp_num::{NoMemory, Seq, gcd};
use std::alloc::Global;

impl Grown {
    /// The place of the column of row i among those that were added; none for a slack.
    fn added(&self, i: usize) -> Option<usize>
        requires { i < objective_of self.now.tableau }
        ensures added { IfSome result (λ n.
            slice_index self.now.tableau.basis.items i ≡ width_of self.now.tableau + n) }
        ensures slack { IfNone result
            (slice_index self.now.tableau.basis.items i < width_of self.now.tableau) }
    {
        self.tableau.basis[i].checked_sub(self.tableau.width())
    }

    /// The greatest common divisor of a number and an entry.
    fn divisor_with(&self, common: u128, i: usize, j: usize) -> u128
        requires { 1 ≤ common }
        ensures some { 1 ≤ result }
        ensures divides { result ∣ common }
        ensures entry { result ∣ unsigned_abs (entry_in self.now.tableau.rows.items i j) }
    {
        gcd(common, self.tableau.entry(i, j).unsigned_abs())
    }

    /// The greatest common divisor of a number and of how much there is of the column of row i.
    fn divisor_with_amount(&self, common: u128, i: usize) -> u128
        requires some { 1 ≤ common }
        requires row { i < objective_of self.now.tableau }
        ensures some { 1 ≤ result }
        ensures divides { result ∣ common }
        ensures amount { width_of self.now.tableau ≤ slice_index self.now.tableau.basis.items i
            → result ∣ unsigned_abs (entry_in self.now.tableau.rows.items i 0) }
    {
        match self.added(i) {
            Some(_) => self.divisor_with(common, i, 0),
            None => common,
        }
    }

    /// The greatest common divisor of the denominator and of how much there is of each column.
    fn divisor_of_point(&self) -> u128
        ensures { DividesPoint self.now.tableau result }
    {
        let mut common = self.tableau.den;
        for i in 0..self.tableau.basis.len() {
            common = self.divisor_with_amount(common, i);
        }
        common
    }

    /// The greatest common divisor of a number and the prices.
    fn divisor_with_prices(&self, common: u128) -> u128
        requires { 1 ≤ common }
        ensures { DividesWith self.now.tableau common (objective_of self.now.tableau) result }
    {
        let objective = self.tableau.basis.len();
        let mut divisor = common;
        for row in 0..objective {
            divisor = self.divisor_with(divisor, objective, row + 1);
        }
        divisor
    }

    /// The denominator by a common divisor; none where that passes the width of evidence.
    fn den_by(&self, common: u128) -> Option<u64>
        ensures wide { 1 ≤ common → IfNone result (EVIDENCE_WIDTH < self.now.tableau.den) }
        ensures exact { IfSome result (λ den.
            common ∣ self.now.tableau.den → den * common ≡ self.now.tableau.den) }
    {
        if common == 0 || self.tableau.den / common > u128::from(EVIDENCE_WIDTH) {
            return None;
        }
        Some((self.tableau.den / common) as u64)
    }

    /// How much there is of the column of row i, by a common divisor: `Some(None)` for a slack, and where there is nothing
    /// of it; none where a number passes the width of evidence.
    fn amount(&self, i: usize, common: u128) -> Option<Option<Entry>>
        requires divides { DividesPoint self.now.tableau common }
        requires row { i < objective_of self.now.tableau }
        ensures { MatchOption result (SidePasses self.now.tableau i) (λ found.
            MatchOption found (HasNoAmount self.now.tableau i)
            (IsAmount self.now.tableau common i)) }
    {
        let Some(added) = self.added(i) else {
            return Some(None);
        };
        let Ok(at) = u32::try_from(added) else {
            return None;
        };
        let Some(value) = reduced(self.tableau.entry(i, 0), common) else {
            return None;
        };
        if value == 0 {
            return Some(None);
        }
        Some(Some(Entry { at, value }))
    }

    /// How much there is of each column of which there is some, by a common divisor.
    fn entries_by(&self, alloc: Global, common: u128) -> Result<Option<Vec<Entry>>, NoMemory>
        requires { DividesPoint self.now.tableau common }
        ensures { IfOk result (λ found. MatchOption found (SomeSidePasses self.now.tableau) (λ entries.
            AreAmounts self.now.tableau common (objective_of self.now.tableau) entries.items)) }
    {
        let mut entries = Vec::new(alloc);
        for i in 0..self.tableau.basis.len() {
            let Some(found) = self.amount(i, common) else {
                return Ok(None);
            };
            if let Some(entry) = found {
                entries.push(entry)?;
            }
        }
        Ok(Some(entries))
    }

    /// The point over a denominator by a common divisor, with these prices.
    fn pair_by(
        &self,
        alloc: Global,
        common: u128,
        prices: Vec<u64>,
    ) -> Result<Option<Pair>, NoMemory>
        requires { DividesPoint self.now.tableau common }
        ensures { IfOk result (λ found. MatchOption found (NumberPasses self.now) (λ pair.
            IsPointBy self.now common pair.den pair.y × (pair.x ≡ prices.items))) }
    {
        let Some(den) = self.den_by(common) else {
            return Ok(None);
        };
        let Some(entries) = self.entries_by(alloc, common)? else {
            return Ok(None);
        };
        Ok(Some(Pair {
            den,
            y: Seq::from_vec(entries),
            x: Seq::from_vec(prices),
        }))
    }

    /// The point in lowest terms and no prices; none where a number passes the width of evidence.
    pub fn point(&self, alloc: Global) -> Result<Option<Pair>, NoMemory>
        ensures { IfOk result (λ found. MatchOption found (NumberPasses self.now) (IsPointOf self.now)) }
    {
        self.pair_by(alloc, self.divisor_of_point(), Vec::new(alloc))
    }

    /// The point and the prices of the rows in lowest terms; none where a number passes the width of evidence.
    pub fn pair(&self, alloc: Global) -> Result<Option<Pair>, NoMemory>
        ensures { IfOk result (λ found. MatchOption found (NumberPasses self.now) (IsPairOf self.now)) }
    {
        let common = self.divisor_with_prices(self.divisor_of_point());
        match prices(alloc, &self.tableau, common)? {
            Some(prices) => self.pair_by(alloc, common, prices),
            None => Ok(None),
        }
    }
}
