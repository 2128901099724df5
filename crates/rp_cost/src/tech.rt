//! Observed technologies.
ghost use Rattle.std.specs.Prelude.{◌≡◌, ◌<◌, ◌≤◌, ◌^◌, ℕ, All, Some, length, slice_get};
ghost use Rattle.std.specs.Prelude.{slice_index};
ghost use Rattle.rp_table.specs.Cost.{cost_of};
ghost use Rattle.rp_table.specs.Limits.{IsPrice, IsQuantity};
ghost use Rattle.rp_table.specs.Tables.{goods_of, price_of, quantity_of, records_of};
ghost use Rattle.rp_limits.specs.declared.table.TheConstants.{LARGEST};
ghost use Rattle.rp_cost.specs.Technology.{IsTechnology};

use rp_table::{Name, Table, cost_of_bundle};
use std::marker::Model;

/// What a firm was seen to do: input prices, the inputs that it used at them, its output, and maybe the output's price,
/// in scaled whole numbers. Input prices and the output's price have one scale, inputs and output another.
#[derive(Debug, Drop)]
pub struct Tech {
    table: Table,
    y: Vec<u32>,
    p: Vec<u32>,
}

impl Model for Tech {
    ghost use Rattle.rp_cost.specs.Technology.{Technology, IsTechnology};

    ghost Value = { Technology };

    ghost view = { λ t. record { table = t.table; y = t.y.items; p = t.p.items } };

    ghost invariant = { λ t. IsTechnology
        (record { table = t.table; y = t.y.items; p = t.p.items }) };
}

impl Tech {
    /// The table has input prices and inputs; the list of the output's prices is empty where there are none.
    pub fn make(table: Table, y: Vec<u32>, p: Vec<u32>) -> Tech
        requires { IsTechnology (record { table = table; y = y.items; p = p.items }) }
        ensures { result ≡ record { table = table; y = y.items; p = p.items } }
    {
        Tech { table, y, p }
    }

    /// The table of input prices and inputs.
    pub fn table(&self) -> &Table
        ensures same { result.now ≡ self.now.table }
        ensures valid { IsTechnology self.now }
    {
        &self.table
    }

    /// How many observations there are.
    pub fn count(&self) -> u32
        ensures count { result ≡ records_of self.now.table }
        ensures valid { IsTechnology self.now }
    {
        self.table.n()
    }

    /// How many inputs there are.
    pub fn inputs(&self) -> u32
        ensures count { result ≡ goods_of self.now.table }
        ensures valid { IsTechnology self.now }
    {
        self.table.goods()
    }

    /// The names of the inputs, in order.
    pub fn names(&self) -> &[Name]
        ensures { result.now ≡ self.now.table.names }
    {
        self.table.names()
    }

    /// The name of input `i`.
    pub fn name(&self, i: u32) -> &Name
        requires { i < goods_of self.now.table }
        ensures { slice_get self.now.table.names i ≡ Some result.now }
    {
        self.table.name(i)
    }

    /// The scaled input prices of observation `t`, one for each input.
    pub fn prices(&self, t: u32) -> &[u32]
        requires { t < records_of self.now.table }
        ensures all_inputs { length result.now ≡ goods_of self.now.table }
        ensures each { (i : ℕ) → i < goods_of self.now.table
            → slice_index result.now i ≡ price_of self.now.table t i }
        ensures within { All IsPrice result.now }
    {
        self.table.prices(t)
    }

    /// The scaled inputs that were used at observation `t`, one of each input.
    pub fn row(&self, t: u32) -> &[u32]
        requires { t < records_of self.now.table }
        ensures all_inputs { length result.now ≡ goods_of self.now.table }
        ensures each { (i : ℕ) → i < goods_of self.now.table
            → slice_index result.now i ≡ quantity_of self.now.table t i }
        ensures within { All IsQuantity result.now }
    {
        self.table.bundle(t)
    }

    /// The scaled output of observation `t`.
    pub fn y(&self, t: u32) -> u32
        requires { t < records_of self.now.table }
        ensures exact { result ≡ slice_index self.now.y t }
        ensures within { result ≤ LARGEST }
    {
        self.y[t as usize]
    }

    /// The scaled price of the output at observation `t`; none where it is not known.
    pub fn p(&self, t: u32) -> Option<u32>
        requires { t < records_of self.now.table }
        ensures exact { result ≡ slice_get self.now.p t }
    {
        self.p.get(t as usize).copied()
    }

    /// The scaled price of the output at observation `t`, where it is known.
    pub(crate) fn output_price(&self, t: u32) -> u32
        requires { t < length self.now.p }
        ensures exact { result ≡ slice_index self.now.p t }
        ensures within { result ≤ LARGEST }
    {
        self.p[t as usize]
    }

    /// What the inputs of observation `s` cost at the prices of observation `t`, scaled by both scales.
    pub fn cost(&self, t: u32, s: u32) -> u64
        requires prices { t < records_of self.now.table }
        requires inputs { s < records_of self.now.table }
        ensures exact { result ≡ cost_of self.now.table t s }
        ensures below { result < 2 ^ 51 }
    {
        prove!(self.inputs() > 0);
        cost_of_bundle(self.prices(t), self.row(s))
    }

    /// A scaled price is the price times 10 to this power.
    pub fn price_places(&self) -> u8
        ensures { result ≡ self.now.table.price_places }
    {
        self.table.price_places()
    }

    /// A scaled input or output is the quantity times 10 to this power.
    pub fn quantity_places(&self) -> u8
        ensures { result ≡ self.now.table.quantity_places }
    {
        self.table.quantity_places()
    }
}
