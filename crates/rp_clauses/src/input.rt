//! What items are checked against.
ghost use Rattle.std.specs.Prelude.{◌≡◌, ◌<◌, ◌≤◌, ◌*◌, ◌^◌, ◌↔◌, ℕ, IsTrue};
ghost use Rattle.std.specs.Int.RustNames.{unsigned_abs};
ghost use Rattle.rp_clauses.specs.AfriatFailure.{own_gap};
ghost use Rattle.rp_clauses.specs.Standards.{IsNarrow, StrictUnder, WeakUnder};
ghost use Rattle.rp_evidence.specs.Quasilinear.{step_sum};
ghost use Rattle.rp_table.specs.Cost.{IsCostsOf, cost_of};
ghost use Rattle.rp_table.specs.Tables.{records_of};
ghost use Rattle.rp_limits.specs.declared.table.TheConstants.{RECORDS};

use crate::standard::Standard;
use rp_table::{Costs, Table};

/// What items are checked against: a table with its costs.
#[derive(Clone, Copy)]
pub struct Input<'a> {
    pub table: &'a Table,
    pub costs: &'a Costs,
    ghost same: { IsCostsOf costs.now table.now },
}

impl<'a> Input<'a> {
    /// What items over this table are checked against; the costs have to be its own.
    pub fn new(table: &'a Table, costs: &'a Costs) -> Input<'a>
        requires { IsCostsOf costs.now table.now }
        ensures of { result.table.now ≡ table.now }
        ensures positive { (s : ℕ) → s < records_of table.now → 1 ≤ cost_of table.now s s }
    {
        prove!(costs.n() > 0);
        Input { table, costs }
    }

    /// How many observations there are.
    pub fn n(&self) -> u32
        ensures count { result ≡ records_of self.now.table.now }
        ensures some { 1 ≤ result }
        ensures few { result ≤ RECORDS }
    {
        self.costs.n()
    }

    /// What the bundle of observation `t` costs at the prices of observation `s`, scaled by both scales.
    pub fn cost(&self, s: u32, t: u32) -> u64
        requires prices { s < records_of self.now.table.now }
        requires bundle { t < records_of self.now.table.now }
        ensures exact { result ≡ cost_of self.now.table.now s t }
        ensures positive { 1 ≤ result }
        ensures below { result < 2 ^ 51 }
    {
        self.costs.cost(s, t)
    }

    /// The term of the step from `t` to `s` in a sum: c(t,s) - c(t,t).
    pub fn added(&self, t: u32, s: u32) -> i128
        requires from { t < records_of self.now.table.now }
        requires to { s < records_of self.now.table.now }
        ensures value { result ≡ step_sum (cost_of self.now.table.now) t s }
        ensures small { unsigned_abs result ≤ 2 ^ 51 }
    {
        i128::from(self.cost(t, s)) - i128::from(self.cost(t, t))
    }

    /// What the bundle of `t` costs at the prices of `s` above what `s` is held to, in the scale of the levels.
    pub fn gap(&self, s: u32, t: u32) -> i64
        requires from { s < records_of self.now.table.now }
        requires to { t < records_of self.now.table.now }
        ensures exact { result
            ≡ own_gap self.now.table.now.levels (cost_of self.now.table.now) s t }
        ensures small { unsigned_abs result ≤ 2 ^ 61 }
    {
        self.costs.gap(s, t)
    }

    /// Whether `s` is weakly preferred to `t`.
    pub fn is_weak(&self, standard: Standard, s: u32, t: u32) -> bool
        requires narrow { IsNarrow standard }
        requires from { s < records_of self.now.table.now }
        requires to { t < records_of self.now.table.now }
        ensures { IsTrue result
            ↔ WeakUnder standard self.now.table.now.levels (cost_of self.now.table.now) s t }
    {
        match standard {
            Standard::At(level) => self.scaled(level.den, s, t) <= self.scaled(level.num, s, s),
            Standard::Own => self.gap(s, t) <= 0,
        }
    }

    /// Whether `s` is strictly preferred to `t`.
    pub fn is_strict(&self, standard: Standard, s: u32, t: u32) -> bool
        requires narrow { IsNarrow standard }
        requires from { s < records_of self.now.table.now }
        requires to { t < records_of self.now.table.now }
        ensures { IsTrue result
            ↔ StrictUnder standard self.now.table.now.levels (cost_of self.now.table.now) s t }
    {
        match standard {
            Standard::At(level) => self.scaled(level.den, s, t) < self.scaled(level.num, s, s),
            Standard::Own => self.gap(s, t) < 0,
        }
    }

    /// A cost times a part of a level.
    fn scaled(&self, by: u64, s: u32, t: u32) -> u128
        requires by { by < 2 ^ 51 }
        requires prices { s < records_of self.now.table.now }
        requires bundle { t < records_of self.now.table.now }
        ensures { result ≡ by * cost_of self.now.table.now s t }
    {
        u128::from(by) * u128::from(self.cost(s, t))
    }
}
