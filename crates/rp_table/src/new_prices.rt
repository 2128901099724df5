//! New prices, and new budgets, beside a table.
ghost use Rattle.std.specs.Prelude.{◌≡◌, ◌<◌, ◌≤◌, ◌^◌, length, slice_index};
ghost use Rattle.rp_table.specs.Cost.{IsCostsOf, cost_of};
ghost use Rattle.rp_table.specs.Limits.{IsExpenditure};
ghost use Rattle.rp_table.specs.NewPrices.{AreNewPrices};
ghost use Rattle.rp_table.specs.Spending.{spending};
ghost use Rattle.rp_table.specs.Tables.{goods_of, price_of, quantity_of, records_of};
ghost use Rattle.rp_limits.specs.declared.table.TheConstants.{LARGEST, RECORDS};

use crate::{Costs, Table, cost_of_bundle, cost_of_numerators};

/// New prices, one for each good, beside the table that they are set against and its costs.
#[derive(Clone, Copy, Debug)]
pub struct NewPrices<'a> {
    pub table: &'a Table,
    pub costs: &'a Costs,
    pub prices: &'a [u32],
    ghost of_table: { IsCostsOf costs.now table.now },
    ghost new: { AreNewPrices (goods_of table.now) prices.now },
}

/// A budget at new prices: what is spent at them.
#[derive(Clone, Copy, Debug)]
pub struct NewBudget<'a> {
    pub at: NewPrices<'a>,
    pub m: u64,
    ghost spends: { IsExpenditure m },
}

impl NewPrices<'_> {
    /// How many observations the table has.
    pub fn n(&self) -> u32
        ensures count { result ≡ records_of self.now.table.now }
        ensures some { 1 ≤ result }
        ensures few { result ≤ RECORDS }
    {
        self.costs.n()
    }

    /// The new price of good `g`.
    pub fn price(&self, g: u32) -> u32
        requires { g < goods_of self.now.table.now }
        ensures exact { result ≡ slice_index self.now.prices.now g }
        ensures positive { 1 ≤ result }
        ensures within { result ≤ LARGEST }
    {
        self.prices[g as usize]
    }

    /// What the bundle of observation `s` costs at the new prices.
    pub fn spending(&self, s: u32) -> u64
        requires { s < records_of self.now.table.now }
        ensures exact { result ≡ spending (goods_of self.now.table.now)
            (slice_index self.now.prices.now) (quantity_of self.now.table.now s) }
        ensures below { result < 2 ^ 51 }
    {
        prove!(self.table.goods() > 0);
        cost_of_bundle(self.prices, self.table.bundle(s))
    }

    /// What numerators of the goods cost at the new prices.
    pub fn numerator_cost(&self, numerators: &[u64]) -> u128
        requires { length numerators.now ≡ goods_of self.now.table.now }
        ensures exact { result ≡ spending (goods_of self.now.table.now)
            (slice_index self.now.prices.now) (slice_index numerators.now) }
        ensures below { result < 2 ^ 92 }
    {
        prove!(self.table.goods() > 0);
        cost_of_numerators(self.prices, numerators)
    }

    /// What numerators of the goods cost at the prices of observation `t`.
    pub fn numerator_cost_at(&self, t: u32, numerators: &[u64]) -> u128
        requires observed { t < records_of self.now.table.now }
        requires goods { length numerators.now ≡ goods_of self.now.table.now }
        ensures exact { result ≡ spending (goods_of self.now.table.now)
            (price_of self.now.table.now t) (slice_index numerators.now) }
        ensures below { result < 2 ^ 92 }
    {
        prove!(self.table.goods() > 0);
        cost_of_numerators(self.table.prices(t), numerators)
    }

    /// What the bundle of observation `t` costs at the prices of observation `s`.
    pub fn cost(&self, s: u32, t: u32) -> u64
        requires prices { s < records_of self.now.table.now }
        requires bundle { t < records_of self.now.table.now }
        ensures exact { result ≡ cost_of self.now.table.now s t }
        ensures positive { 1 ≤ result }
        ensures below { result < 2 ^ 51 }
    {
        self.costs.cost(s, t)
    }
}
