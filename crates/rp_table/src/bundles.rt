//! Lists of bundles.
ghost use Rattle.std.specs.Prelude.{◌≡◌, ◌<◌, All, length};
ghost use Rattle.rp_table.specs.Rows.{rows_count, row_of};
ghost use Rattle.rp_table.specs.BundleLists.{IsBundleList};
ghost use Rattle.rp_table.specs.Limits.{IsQuantity};

use crate::rows::row_at;
use std::marker::Model;

/// Bundles, each a quantity of each good.
#[derive(Debug, Drop)]
pub struct Bundles {
    goods: u32,
    quantities: Vec<u32>,
}

impl Model for Bundles {
    ghost use Rattle.rp_table.specs.BundleLists.{BundleList, IsBundleList};

    ghost Value = { BundleList };

    ghost view = { λ b. record { goods = b.goods; quantities = b.quantities.items } };

    ghost invariant = { λ b. IsBundleList
        (record { goods = b.goods; quantities = b.quantities.items }) };
}

impl Bundles {
    /// Quantities stand by bundle and then by good.
    pub fn make(goods: u32, quantities: Vec<u32>) -> Bundles
        requires { IsBundleList (record { goods = goods; quantities = quantities.items }) }
        ensures { result ≡ record { goods = goods; quantities = quantities.items } }
    {
        Bundles { goods, quantities }
    }

    /// How many bundles there are.
    pub fn count(&self) -> u32
        ensures count { result ≡ rows_count self.now.quantities self.now.goods }
        ensures valid { IsBundleList self.now }
    {
        (self.quantities.len() / self.goods as usize) as u32
    }

    /// The scaled quantities of bundle `i`.
    pub fn row(&self, i: u32) -> &[u32]
        requires { i < rows_count self.now.quantities self.now.goods }
        ensures exact { result.now ≡ row_of self.now.quantities self.now.goods i }
        ensures all_goods { length result.now ≡ self.now.goods }
        ensures within { All IsQuantity result.now }
    {
        row_at(self.quantities.as_slice(), self.goods as usize, i as usize)
    }
}
