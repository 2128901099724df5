//! The costs of a table.
ghost use Rattle.std.specs.Prelude.{◌≡◌, ◌<◌, ◌≤◌, ◌^◌, ◌<ℤ◌, neg_ℤ, pos, IfOk};
ghost use Rattle.rp_table.specs.Tables.{records_of};
ghost use Rattle.rp_table.specs.Cost.{IsCostTable, IsCostsOf, cost_at, cost_of};
ghost use Rattle.rp_table.specs.Cost.{gap_of, own_of, scale_of};

use crate::{Table, cost_of_bundle};
use rp_limits::table::LEVEL_SCALE;
use rp_num::NoMemory;
use std::alloc::Global;
use std::marker::Model;

/// What each bundle of a table costs at the prices of each observation, with the levels of the table.
#[derive(Debug, Drop)]
pub struct Costs {
    n: u32,
    entries: Vec<u64>,
    levels: Vec<u32>,
}

impl Model for Costs {
    ghost use Rattle.rp_table.specs.Cost.{CostTable, IsCostTable};

    ghost Value = { CostTable };

    ghost view = { λ c. record {
      n = c.n;
      entries = c.entries.items;
      levels = c.levels.items;
    } };

    ghost invariant = { λ c. IsCostTable (record {
      n = c.n;
      entries = c.entries.items;
      levels = c.levels.items;
    }) };
}

impl Costs {
    /// All costs of a table, each the sum over the goods of price times quantity.
    pub fn of(alloc: Global, table: &Table) -> Result<Costs, NoMemory>
        ensures { IfOk result (λ costs. IsCostsOf costs table.now) }
    {
        let n = table.n();
        let levels = Vec::from_slice(alloc, table.levels())?;
        let mut entries = Vec::with_capacity(alloc, n as usize * n as usize)?;
        for s in 0..n {
            for t in 0..n {
                entries.push(cost_at_prices(table, s, t))?;
            }
        }
        Ok(Costs { n, entries, levels })
    }

    /// How many observations there are.
    pub fn n(&self) -> u32
        ensures count { result ≡ self.now.n }
        ensures valid { IsCostTable self.now }
    {
        self.n
    }

    /// What the bundle of observation `t` costs at the prices of observation `s`, scaled by both scales.
    pub fn cost(&self, s: u32, t: u32) -> u64
        requires prices { s < self.now.n }
        requires bundle { t < self.now.n }
        ensures exact { result ≡ cost_at self.now s t }
        ensures positive { 1 ≤ result }
        ensures below { result < 2 ^ 51 }
    {
        self.entries[s as usize * self.n as usize + t as usize]
    }

    /// What costs are multiplied by to be held against `own`: 1, or 1,000 where the table has levels.
    pub fn scale(&self) -> u64
        ensures exact { result ≡ scale_of self.now }
        ensures positive { 1 ≤ result }
        ensures at_most { result ≤ LEVEL_SCALE }
    {
        if self.levels.is_empty() {
            1
        } else {
            u64::from(LEVEL_SCALE)
        }
    }

    /// What was spent at `s`, or its level in thousandths times that.
    pub fn own(&self, s: u32) -> u64
        requires { s < self.now.n }
        ensures exact { result ≡ own_of self.now s }
        ensures positive { 1 ≤ result }
        ensures below { result < 2 ^ 61 }
    {
        let spent = self.cost(s, s);
        if self.levels.is_empty() {
            spent
        } else {
            u64::from(self.levels[s as usize]) * spent
        }
    }

    /// What the bundle of `t` costs at the prices of `s`, times the scale, less `own` of `s`.
    pub fn gap(&self, s: u32, t: u32) -> i64
        requires prices { s < self.now.n }
        requires bundle { t < self.now.n }
        ensures exact { result ≡ gap_of self.now s t }
        ensures above { neg_ℤ (pos (2 ^ 61)) <ℤ result }
        ensures below { result <ℤ pos (2 ^ 61) }
    {
        let cost = self.scale() * self.cost(s, t);
        cost as i64 - self.own(s) as i64
    }
}

/// What the bundle of observation `t` costs at the prices of observation `s`.
fn cost_at_prices(table: &Table, s: u32, t: u32) -> u64
    requires prices { s < records_of table.now }
    requires bundle { t < records_of table.now }
    ensures exact { result ≡ cost_of table.now s t }
    ensures positive { 1 ≤ result }
    ensures below { result < 2 ^ 51 }
{
    prove!(table.goods() > 0);
    cost_of_bundle(table.prices(s), table.bundle(t))
}
