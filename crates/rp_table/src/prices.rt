//! Lists of new prices.
ghost use Rattle.std.specs.Prelude.{◌≡◌, ◌<◌, ◌≤◌, length, slice_index};
ghost use Rattle.rp_table.specs.Rows.{rows_count, row_of};
ghost use Rattle.rp_table.specs.NewPrices.{AreNewPrices};
ghost use Rattle.rp_table.specs.PriceLists.{IsPriceList};

use crate::rows::row_at;
use rp_limits::table::LARGEST_EXPENDITURE;
use std::marker::Model;

/// Prices at which something is asked, each record with an expenditure or none with one.
#[derive(Debug, Drop)]
pub struct Prices {
    goods: u32,
    prices: Vec<u32>,
    m: Vec<u64>,
}

impl Model for Prices {
    ghost use Rattle.rp_table.specs.NewPrices.{AreNewPrices};
    ghost use Rattle.rp_table.specs.PriceLists.{PriceList, IsPriceList};

    ghost Value = { PriceList };

    ghost view = { λ p. record { goods = p.goods; prices = p.prices.items; m = p.m.items } };

    ghost invariant = { λ p. IsPriceList
        (record { goods = p.goods; prices = p.prices.items; m = p.m.items }) };
}

impl Prices {
    /// Prices stand by record and then by good. The list of expenditures is empty where there are none.
    pub fn make(goods: u32, prices: Vec<u32>, m: Vec<u64>) -> Prices
        requires { IsPriceList (record { goods = goods; prices = prices.items; m = m.items }) }
        ensures { result ≡ record { goods = goods; prices = prices.items; m = m.items } }
    {
        Prices { goods, prices, m }
    }

    /// How many records there are.
    pub fn count(&self) -> u32
        ensures count { result ≡ rows_count self.now.prices self.now.goods }
        ensures valid { IsPriceList self.now }
    {
        (self.prices.len() / self.goods as usize) as u32
    }

    /// The scaled prices of record `i`, a price of each good.
    pub fn row(&self, i: u32) -> &[u32]
        requires { i < rows_count self.now.prices self.now.goods }
        ensures exact { result.now ≡ row_of self.now.prices self.now.goods i }
        ensures all_goods { length result.now ≡ self.now.goods }
        ensures new { AreNewPrices self.now.goods result.now }
    {
        row_at(self.prices.as_slice(), self.goods as usize, i as usize)
    }

    /// The scaled expenditure of record `i`, or 0 where there are none.
    pub fn m(&self, i: u32) -> u64
        requires { i < rows_count self.now.prices self.now.goods }
        ensures exact { result ≡ slice_index self.now.m i }
        ensures within { result ≤ LARGEST_EXPENDITURE }
    {
        match self.m.get(i as usize) {
            Some(m) => *m,
            None => 0,
        }
    }
}
