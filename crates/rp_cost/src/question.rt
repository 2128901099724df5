//! One question of a technology.
ghost use Rattle.std.specs.Prelude.{◌≡◌, ◌<◌, ◌≤◌, ◌^◌, All, length, slice_index};
ghost use Rattle.rp_evidence.specs.Input.{input_of_table};
ghost use Rattle.rp_evidence.specs.LeastCost.{least_cost_program};
ghost use Rattle.rp_table.specs.NewPrices.{AreNewPrices};
ghost use Rattle.rp_table.specs.Spending.{spending};
ghost use Rattle.rp_table.specs.Tables.{goods_of, quantity_of, records_of};
ghost use Rattle.rp_limits.specs.declared.table.TheConstants.{RECORDS};

use crate::tech::Tech;
use rp_farkas::Lp;
use rp_programs::LeastCostProgram;
use rp_table::cost_of_bundle;

/// What is asked of a technology: an output, and the input prices that it is asked at.
#[derive(Clone, Copy)]
pub(crate) struct Question<'a> {
    pub(crate) tech: &'a Tech,
    pub(crate) prices: &'a [u32],
    pub(crate) y: u32,
    ghost new: { AreNewPrices (goods_of tech.now.table) prices.now },
}

impl<'a> Question<'a> {
    /// The program of least cost at the new prices over the listed observations.
    pub(crate) fn program(&self, listed: &'a [u32]) -> LeastCostProgram<'a>
        requires observed { All (λ t. t < records_of self.now.tech.now.table) listed.now }
        requires few { length listed.now ≤ RECORDS }
        ensures { ⟦<LeastCostProgram<'a> as Lp>⟧.program result
            ≡ least_cost_program (input_of_table self.now.tech.now.table)
            (slice_index self.now.prices.now) listed.now }
    {
        LeastCostProgram::make(self.tech.table(), self.prices, listed)
    }

    /// What the inputs of observation `s` cost at the new prices.
    pub(crate) fn spending(&self, s: u32) -> u64
        requires { s < records_of self.now.tech.now.table }
        ensures exact { result ≡ spending (goods_of self.now.tech.now.table)
            (slice_index self.now.prices.now) (quantity_of self.now.tech.now.table s) }
        ensures below { result < 2 ^ 51 }
    {
        prove!(self.tech.inputs() > 0);
        cost_of_bundle(self.prices, self.tech.row(s))
    }
}
