//! Lists of budgets.
ghost use Rattle.std.specs.Prelude.{◌≡◌, ◌<◌, ◌≤◌, Some, All, length, slice_get, slice_index};
ghost use Rattle.rp_table.specs.Rows.{row_of};
ghost use Rattle.rp_table.specs.BudgetLists.{IsBudgetList};
ghost use Rattle.rp_table.specs.Limits.{IsPrice};

use crate::Name;
use crate::rows::row_at;
use rp_limits::table::LARGEST_EXPENDITURE;
use std::marker::Model;

/// Budgets: prices of the goods, and an income to spend at them.
#[derive(Debug, Drop)]
pub struct Budgets {
    names: Vec<Name>,
    prices: Vec<u32>,
    w: Vec<u64>,
}

impl Model for Budgets {
    ghost use Rattle.rp_table.specs.BudgetLists.{BudgetList, IsBudgetList};

    ghost Value = { BudgetList };

    ghost view = { λ b. record { names = b.names.items; prices = b.prices.items; w = b.w.items } };

    ghost invariant = { λ b. IsBudgetList
        (record { names = b.names.items; prices = b.prices.items; w = b.w.items }) };
}

impl Budgets {
    /// Prices stand by budget and then by good.
    pub fn make(names: Vec<Name>, prices: Vec<u32>, w: Vec<u64>) -> Budgets
        requires { IsBudgetList (record
            { names = names.items; prices = prices.items; w = w.items }) }
        ensures { result ≡ record { names = names.items; prices = prices.items; w = w.items } }
    {
        Budgets { names, prices, w }
    }

    /// How many budgets there are.
    pub fn count(&self) -> u32
        ensures count { result ≡ length self.now.w }
        ensures valid { IsBudgetList self.now }
    {
        self.w.len() as u32
    }

    /// How many goods there are.
    pub fn goods(&self) -> u32
        ensures count { result ≡ length self.now.names }
        ensures valid { IsBudgetList self.now }
    {
        self.names.len() as u32
    }

    /// The names of the goods, in order.
    pub fn names(&self) -> &[Name]
        ensures { result.now ≡ self.now.names }
    {
        self.names.as_slice()
    }

    /// The name of good `g`.
    pub fn name(&self, g: u32) -> &Name
        requires { g < length self.now.names }
        ensures { slice_get self.now.names g ≡ Some result.now }
    {
        &self.names[g as usize]
    }

    /// The scaled prices of budget `j`.
    pub fn row(&self, j: u32) -> &[u32]
        requires { j < length self.now.w }
        ensures exact { result.now ≡ row_of self.now.prices (length self.now.names) j }
        ensures all_goods { length result.now ≡ length self.now.names }
        ensures within { All IsPrice result.now }
    {
        row_at(self.prices.as_slice(), self.names.len(), j as usize)
    }

    /// The scaled income of budget `j`.
    pub fn w(&self, j: u32) -> u64
        requires { j < length self.now.w }
        ensures exact { result ≡ slice_index self.now.w j }
        ensures positive { 1 ≤ result }
        ensures within { result ≤ LARGEST_EXPENDITURE }
    {
        self.w[j as usize]
    }
}
