//! Outputs whose cost is asked, with the prices that each is asked at.
ghost use Rattle.std.specs.Prelude.{◌≡◌, ◌<◌, ◌≤◌, length, slice_index};
ghost use Rattle.rp_table.specs.NewPrices.{AreNewPrices};
ghost use Rattle.rp_table.specs.Rows.{row_of, rows_count};
ghost use Rattle.rp_limits.specs.declared.table.TheConstants.{LARGEST};
ghost use Rattle.rp_cost.specs.AskedOutputs.{AreAskedOutputs};

use rp_table::Prices;
use std::marker::Model;

/// Outputs whose cost is asked, each with the input prices that it is asked at, in scaled whole numbers. The prices
/// have a scale of their own, the outputs that of the technology's.
#[derive(Debug, Drop)]
pub struct Asked {
    prices: Prices,
    y: Vec<u32>,
}

impl Model for Asked {
    ghost use Rattle.rp_cost.specs.AskedOutputs.{AskedOutputs, AreAskedOutputs};

    ghost Value = { AskedOutputs };

    ghost view = { λ a. record { prices = a.prices; y = a.y.items } };

    ghost invariant = { λ a. AreAskedOutputs (record { prices = a.prices; y = a.y.items }) };
}

impl Asked {
    /// An output for each record of prices, which have no expenditure.
    pub fn make(prices: Prices, y: Vec<u32>) -> Asked
        requires { AreAskedOutputs (record { prices = prices; y = y.items }) }
        ensures { result ≡ record { prices = prices; y = y.items } }
    {
        Asked { prices, y }
    }

    /// How many records there are.
    pub fn count(&self) -> u32
        ensures count { result ≡ rows_count self.now.prices.prices self.now.prices.goods }
        ensures valid { AreAskedOutputs self.now }
    {
        self.prices.count()
    }

    /// The scaled input prices of record `i`, a price of each input.
    pub fn row(&self, i: u32) -> &[u32]
        requires { i < rows_count self.now.prices.prices self.now.prices.goods }
        ensures exact { result.now ≡ row_of self.now.prices.prices self.now.prices.goods i }
        ensures all_inputs { length result.now ≡ self.now.prices.goods }
        ensures new { AreNewPrices self.now.prices.goods result.now }
    {
        self.prices.row(i)
    }

    /// The scaled output of record `i`.
    pub fn y(&self, i: u32) -> u32
        requires { i < rows_count self.now.prices.prices self.now.prices.goods }
        ensures exact { result ≡ slice_index self.now.y i }
        ensures within { result ≤ LARGEST }
    {
        self.y[i as usize]
    }
}
