//! Lists of choices from budgets.
ghost use Rattle.std.specs.Prelude.{◌≡◌, ◌<◌, ◌≤◌, All, length, slice_index};
ghost use Rattle.rp_table.specs.Rows.{row_of};
ghost use Rattle.rp_table.specs.ChoiceLists.{IsChoiceList};
ghost use Rattle.rp_table.specs.Limits.{IsQuantity};

use crate::rows::row_at;
use rp_limits::table::{BUDGETS, LARGEST};
use std::marker::Model;

/// Choices: a bundle on a budget, and how many times it was chosen there.
#[derive(Debug, Drop)]
pub struct Choices {
    goods: u32,
    budget: Vec<u32>,
    quantities: Vec<u32>,
    times: Vec<u32>,
}

impl Model for Choices {
    ghost use Rattle.rp_table.specs.ChoiceLists.{ChoiceList, IsChoiceList};

    ghost Value = { ChoiceList };

    ghost view = { λ c. record {
      goods = c.goods;
      budget = c.budget.items;
      quantities = c.quantities.items;
      times =
          c.times.items;
    } };

    ghost invariant = { λ c. IsChoiceList
        (record {
          goods = c.goods;
          budget = c.budget.items;
          quantities = c.quantities.items;
          times =
              c.times.items;
        }) };
}

impl Choices {
    /// Budgets are numbered from 0, and quantities stand by choice and then by good.
    pub fn make(goods: u32, budget: Vec<u32>, quantities: Vec<u32>, times: Vec<u32>) -> Choices
        requires { IsChoiceList (record {
          goods = goods;
          budget = budget.items;
          quantities = quantities.items;
          times =
              times.items;
        }) }
        ensures { result ≡ record {
          goods = goods;
          budget = budget.items;
          quantities = quantities.items;
          times =
              times.items;
        } }
    {
        Choices {
            goods,
            budget,
            quantities,
            times,
        }
    }

    /// How many choices there are.
    pub fn count(&self) -> u32
        ensures count { result ≡ length self.now.budget }
        ensures valid { IsChoiceList self.now }
    {
        self.budget.len() as u32
    }

    /// The budget of choice `i`, from 0.
    pub fn budget(&self, i: u32) -> u32
        requires { i < length self.now.budget }
        ensures exact { result ≡ slice_index self.now.budget i }
        ensures within { result < BUDGETS }
    {
        self.budget[i as usize]
    }

    /// The scaled quantities of choice `i`.
    pub fn row(&self, i: u32) -> &[u32]
        requires { i < length self.now.budget }
        ensures exact { result.now ≡ row_of self.now.quantities self.now.goods i }
        ensures all_goods { length result.now ≡ self.now.goods }
        ensures within { All IsQuantity result.now }
    {
        row_at(self.quantities.as_slice(), self.goods as usize, i as usize)
    }

    /// How many times choice `i` was made.
    pub fn times(&self, i: u32) -> u32
        requires { i < length self.now.budget }
        ensures exact { result ≡ slice_index self.now.times i }
        ensures within { result ≤ LARGEST }
    {
        self.times[i as usize]
    }
}
