//! Sums over the steps of walks as a kind of total.
ghost use Rattle.std.specs.Prelude.{◌≡◌, ◌<◌, ◌^◌, ◌<ℤ◌, neg_ℤ, pos};
ghost use Rattle.rp_evidence.specs.Quasilinear.{step_sum};
ghost use Rattle.rp_table.specs.Cost.{cost_at};

use rp_num::Wide;
use rp_table::Costs;
use rp_walk::Total;

/// Sums of what the steps of walks add, over the costs of a table.
#[derive(Drop)]
pub(crate) struct Sums<'a> {
    pub(crate) costs: &'a Costs,
}

impl Sums<'_> {
    /// What a step from `t` to `s` adds.
    fn added(&self, t: u32, s: u32) -> i128
        requires from { t < self.now.costs.now.n }
        requires to { s < self.now.costs.now.n }
        ensures value { result ≡ step_sum (cost_at self.now.costs.now) t s }
        ensures below { result <ℤ pos (2 ^ 51) }
        ensures above { neg_ℤ (pos (2 ^ 51)) <ℤ result }
    {
        i128::from(self.costs.cost(t, s)) - i128::from(self.costs.cost(t, t))
    }
}

impl Total for Sums<'_> {
    type Value = i128;

    ghost use Rattle.rp_table.specs.Cost.{cost_at};
    ghost use Rattle.rp_evidence.specs.Quasilinear.{step_sum};
    ghost use Rattle.rp_walk.specs.Sums.{FitsI128, sums, whole_total};

    ghost rule = { λ a. sums a.costs.now.n (step_sum (cost_at a.costs.now)) };

    ghost exact = { whole_total };

    ghost fits = { FitsI128 };

    fn n(&self) -> u32 {
        self.costs.n()
    }

    fn start(&self) -> i128 {
        0
    }

    fn step(&self, v: i128, t: u32, s: u32) -> Result<i128, Wide> {
        match v.checked_add(self.added(t, s)) {
            Some(sum) => Ok(sum),
            None => Err(Wide),
        }
    }

    fn less(&self, a: i128, b: i128) -> bool {
        a < b
    }

    fn pair_breaks(&self, s: u32, t: u32) -> bool {
        let across = self.costs.cost(s, t) + self.costs.cost(t, s);
        let spent = self.costs.cost(s, s) + self.costs.cost(t, t);
        across < spent
    }

    ghost use Rattle.rp_walk.proofs.SumLaws.{step_sums_stay, sums_fit_alike, sums_keep_order};

    ghost keeps_order = { λ a. sums_keep_order a.costs.now.n (step_sum (cost_at a.costs.now)) };

    ghost stays = { λ a. step_sums_stay a.costs.now.n (cost_at a.costs.now) };

    ghost fits_alike = { sums_fit_alike };
}
