//! Tables of prices and quantities.
ghost use Rattle.std.specs.Prelude.{◌≡◌, ◌≢◌, ◌↔◌, ℕ, ◌<◌, ◌≤◌, [], All, IfSome, IsFalse, Some};
ghost use Rattle.std.specs.Prelude.{length, slice_get, slice_index};
ghost use Rattle.rp_table.specs.Limits.{IsPrice, IsQuantity};
ghost use Rattle.rp_table.specs.OwnLevels.{IsOwnLevel};
ghost use Rattle.rp_table.specs.Tables.{IsTable, goods_of, level_of, levels_given, price_of};
ghost use Rattle.rp_table.specs.Tables.{quantity_of, records_of};

use crate::Name;
use crate::rows::row_at;
use rp_limits::table::{LARGEST, LEVEL_SCALE};
use std::marker::Model;

/// Observed prices and purchases, in scaled whole numbers, within the limits of this crate. Each observation may have
/// a level in thousandths: the part of its expenditure that it counts as (after Varian 1990).
#[derive(Debug, Drop)]
pub struct Table {
    names: Vec<Name>,
    prices: Vec<u32>,
    quantities: Vec<u32>,
    price_places: u8,
    quantity_places: u8,
    levels: Option<Vec<u32>>,
}

impl Model for Table {
    ghost use Rattle.rp_table.specs.Tables.{Observations, IsTable, levels_given};

    ghost Value = { Observations };

    ghost view = { λ t. record {
      names = t.names.items;
      prices = t.prices.items;
      quantities = t.quantities.items;
      price_places = t.price_places;
      quantity_places = t.quantity_places;
      levels = levels_given t.levels;
    } };

    ghost invariant = { λ t. IsTable
        (record {
          names = t.names.items;
          prices = t.prices.items;
          quantities = t.quantities.items;
          price_places = t.price_places;
          quantity_places = t.quantity_places;
          levels = levels_given t.levels;
        }) };
}

impl Table {
    /// Prices and quantities stand by observation and then by good, levels by observation. No memory is taken.
    pub fn make(
        names: Vec<Name>,
        prices: Vec<u32>,
        quantities: Vec<u32>,
        price_places: u8,
        quantity_places: u8,
        levels: Option<Vec<u32>>,
    ) -> Table
        requires table { IsTable (record {
          names = names.items;
          prices = prices.items;
          quantities = quantities.items;
          price_places = price_places;
          quantity_places = quantity_places;
          levels = levels_given levels;
        }) }
        requires some_levels { IfSome levels (λ given. given.items ≢ []) }
        ensures { result ≡ record {
          names = names.items;
          prices = prices.items;
          quantities = quantities.items;
          price_places = price_places;
          quantity_places = quantity_places;
          levels = levels_given levels;
        } }
    {
        Table {
            names,
            prices,
            quantities,
            price_places,
            quantity_places,
            levels,
        }
    }

    /// How many observations there are.
    pub fn n(&self) -> u32
        ensures count { result ≡ records_of self.now }
        ensures valid { IsTable self.now }
    {
        (self.prices.len() / self.names.len()) as u32
    }

    /// How many goods there are.
    pub fn goods(&self) -> u32
        ensures count { result ≡ goods_of self.now }
        ensures valid { IsTable self.now }
    {
        self.names.len() as u32
    }

    /// The names of the goods, in order.
    pub fn names(&self) -> &[Name]
        ensures { result.now ≡ self.now.names }
    {
        self.names.as_slice()
    }

    /// The name of good `g`.
    pub fn name(&self, g: u32) -> &Name
        requires { g < goods_of self.now }
        ensures { slice_get self.now.names g ≡ Some result.now }
    {
        &self.names[g as usize]
    }

    /// The scaled price of good `g` at observation `t`.
    pub fn price(&self, t: u32, g: u32) -> u32
        requires observed { t < records_of self.now }
        requires listed { g < goods_of self.now }
        ensures exact { result ≡ price_of self.now t g }
        ensures positive { 1 ≤ result }
        ensures within { result ≤ LARGEST }
    {
        self.prices[t as usize * self.names.len() + g as usize]
    }

    /// The scaled quantity of good `g` that was bought at observation `t`.
    pub fn quantity(&self, t: u32, g: u32) -> u32
        requires observed { t < records_of self.now }
        requires listed { g < goods_of self.now }
        ensures exact { result ≡ quantity_of self.now t g }
        ensures within { result ≤ LARGEST }
    {
        self.quantities[t as usize * self.names.len() + g as usize]
    }

    /// The scaled prices of observation `t`, one for each good.
    pub fn prices(&self, t: u32) -> &[u32]
        requires { t < records_of self.now }
        ensures all_goods { length result.now ≡ goods_of self.now }
        ensures each { (g : ℕ) → g < goods_of self.now
            → slice_index result.now g ≡ price_of self.now t g }
        ensures within { All IsPrice result.now }
    {
        row_at(self.prices.as_slice(), self.names.len(), t as usize)
    }

    /// The scaled quantities that were bought at observation `t`, one of each good.
    pub fn bundle(&self, t: u32) -> &[u32]
        requires { t < records_of self.now }
        ensures all_goods { length result.now ≡ goods_of self.now }
        ensures each { (g : ℕ) → g < goods_of self.now
            → slice_index result.now g ≡ quantity_of self.now t g }
        ensures within { All IsQuantity result.now }
    {
        row_at(self.quantities.as_slice(), self.names.len(), t as usize)
    }

    /// A scaled price is the price times 10 to this power.
    pub fn price_places(&self) -> u8
        ensures { result ≡ self.now.price_places }
    {
        self.price_places
    }

    /// A scaled quantity is the quantity times 10 to this power.
    pub fn quantity_places(&self) -> u8
        ensures { result ≡ self.now.quantity_places }
    {
        self.quantity_places
    }
    /// Whether the observations have levels of their own.
    pub fn levelled(&self) -> bool
        ensures { IsFalse result ↔ (self.now.levels ≡ []) }
    {
        !self.levels().is_empty()
    }

    /// The level of observation `t` in thousandths: all of them where no observation has one.
    pub fn level(&self, t: u32) -> u32
        requires { t < records_of self.now }
        ensures exact { result ≡ level_of self.now t }
        ensures within { IsOwnLevel result }
    {
        match self.levels().get(t as usize) {
            Some(level) => *level,
            None => LEVEL_SCALE,
        }
    }

    /// The levels by observation, or none.
    pub fn levels(&self) -> &[u32]
        ensures same { result.now ≡ self.now.levels }
        ensures valid { IsTable self.now }
    {
        match &self.levels {
            Some(levels) => levels.as_slice(),
            None => &[],
        }
    }
}
