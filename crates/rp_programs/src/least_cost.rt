//! The program of the least cost at new prices.
ghost use Rattle.std.specs.Prelude.{◌≡◌, ◌<◌, ◌≤◌, ◌^◌, All, length, slice_index};
ghost use Rattle.rp_evidence.specs.Input.{input_of_table};
ghost use Rattle.rp_evidence.specs.LeastCost.{least_cost_program};
ghost use Rattle.rp_farkas.specs.Limits.{IsWithinLimits};
ghost use Rattle.rp_table.specs.Cost.{cost_of};
ghost use Rattle.rp_table.specs.NewPrices.{AreNewPrices};
ghost use Rattle.rp_table.specs.Tables.{goods_of, records_of};
ghost use Rattle.rp_limits.specs.declared.table.TheConstants.{RECORDS};

use rp_farkas::Lp;
use rp_table::{Table, cost_of_bundle};

/// The program whose prices are the bundles that cost enough at the listed observations, at the least cost: a row for
/// each good with its new price, and a column for each listed observation with its prices and what was spent there.
#[derive(Clone, Copy, Debug)]
pub struct LeastCostProgram<'a> {
    table: &'a Table,
    prices: &'a [u32],
    listed: &'a [u32],
    ghost new: { AreNewPrices (goods_of table.now) prices.now },
    ghost observed: { All (λ t. t < records_of table.now) listed.now },
    ghost few: { length listed.now ≤ RECORDS },
    ghost within: { IsWithinLimits (least_cost_program (input_of_table table.now)
        (slice_index prices.now) listed.now) },
}

/// What was spent at observation `t`, scaled by both scales.
fn spent(table: &Table, t: u32) -> u64
    requires { t < records_of table.now }
    ensures exact { result ≡ cost_of table.now t t }
    ensures below { result < 2 ^ 51 }
{
    prove!(table.goods() > 0);
    cost_of_bundle(table.prices(t), table.bundle(t))
}

impl<'a> LeastCostProgram<'a> {
    /// The program at new prices, one for each good of the table, over the listed observations.
    pub fn make(table: &'a Table, prices: &'a [u32], listed: &'a [u32]) -> LeastCostProgram<'a>
        requires prices { AreNewPrices (goods_of table.now) prices.now }
        requires observed { All (λ t. t < records_of table.now) listed.now }
        requires few { length listed.now ≤ RECORDS }
        ensures { ⟦<LeastCostProgram<'a> as Lp>⟧.program result
            ≡ least_cost_program (input_of_table table.now) (slice_index prices.now) listed.now }
    {
        prove!(table.goods() > 0);
        LeastCostProgram {
            table,
            prices,
            listed,
        }
    }
}

impl Lp for LeastCostProgram<'_> {
    ghost use Rattle.std.specs.Prelude.{slice_index};
    ghost use Rattle.rp_evidence.specs.Input.{input_of_table};
    ghost use Rattle.rp_evidence.specs.LeastCost.{least_cost_program};

    ghost program = { λ p. least_cost_program (input_of_table p.table.now)
        (slice_index p.prices.now) p.listed.now };

    ghost within_limits = { λ p. p.within };

    fn rows(&self) -> u32 {
        self.table.goods()
    }

    fn cols(&self) -> u32 {
        self.listed.len() as u32
    }

    fn a(&self, i: u32, j: u32) -> i64 {
        i64::from(self.table.price(self.listed[j as usize], i))
    }

    fn b(&self, i: u32) -> i64 {
        i64::from(self.prices[i as usize])
    }

    fn c(&self, j: u32) -> i64 {
        spent(self.table, self.listed[j as usize]) as i64
    }
}
