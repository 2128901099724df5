//! What walks give away at a ratio, as a kind of total.
ghost use Rattle.std.specs.Prelude.{◌≡◌, ◌↔◌, ◌<◌, ◌≤◌, ◌^◌, ◌+ℤ◌, ◌<ℤ◌, IsTrue, pos};
ghost use Rattle.std.specs.Int.RustNames.{unsigned_abs};
ghost use Rattle.rp_pump.specs.InnerTotal.{added};
ghost use Rattle.rp_table.specs.Cost.{cost_at};

use crate::step::{excess, is_weak};
use rp_num::Wide;
use rp_table::Costs;
use rp_walk::Total;

/// What a step to another observation adds that is not weak, more than weak steps can take away.
const NOT_WEAK: i128 = 1 << 121;

/// Totals over the steps of walks at the ratio `num/den`.
#[derive(Drop)]
pub(crate) struct PumpTotal<'a> {
    pub(crate) costs: &'a Costs,
    pub(crate) num: u64,
    pub(crate) den: u64,
}

impl PumpTotal<'_> {
    /// What a step from `s` to `t` adds.
    fn added(&self, s: u32, t: u32) -> i128
        requires from { s < self.now.costs.now.n }
        requires to { t < self.now.costs.now.n }
        ensures value { result ≡ added (cost_at self.now.costs.now) self.now.num self.now.den s t }
        ensures small { unsigned_abs result ≤ 2 ^ 121 }
    {
        if s == t {
            return 0;
        }
        if is_weak(self.costs, s, t) {
            excess(self.costs, self.num, self.den, s, t)
        } else {
            NOT_WEAK
        }
    }
}

/// Whether two steps together add less than nothing.
fn is_negative(there: i128, back: i128) -> bool
    requires there_fits { unsigned_abs there ≤ 2 ^ 121 }
    requires back_fits { unsigned_abs back ≤ 2 ^ 121 }
    ensures { IsTrue result ↔ ((there +ℤ back) <ℤ pos 0) }
{
    there + back < 0
}

impl Total for PumpTotal<'_> {
    type Value = i128;

    ghost use Rattle.rp_table.specs.Cost.{cost_at};
    ghost use Rattle.rp_pump.specs.InnerTotal.{added};
    ghost use Rattle.rp_walk.specs.Sums.{FitsI128, sums, whole_total};

    ghost rule = { λ a. sums a.costs.now.n (added (cost_at a.costs.now) a.num a.den) };

    ghost exact = { whole_total };

    ghost fits = { FitsI128 };

    fn n(&self) -> u32 {
        self.costs.n()
    }

    fn start(&self) -> i128 {
        0
    }

    fn step(&self, v: i128, t: u32, s: u32) -> Result<i128, Wide> {
        match v.checked_add(self.added(t, s)) {
            Some(total) => Ok(total),
            None => Err(Wide),
        }
    }

    fn less(&self, a: i128, b: i128) -> bool {
        a < b
    }

    fn pair_breaks(&self, s: u32, t: u32) -> bool {
        is_negative(self.added(s, t), self.added(t, s))
    }

    ghost use Rattle.std.proofs.Common.{ap, refl, if◌then◌else◌};
    ghost use Rattle.std.proofs.lemmas.Bool.{eq-eqb};
    ghost use Rattle.rp_pump.specs.InnerTotal.{other_added};
    ghost use Rattle.rp_walk.proofs.SumLaws.{sums_fit_alike, sums_keep_order, sums_stay};

    ghost keeps_order = { λ a. sums_keep_order a.costs.now.n (added (cost_at a.costs.now) a.num a.den) };

    ghost stays = { λ a. sums_stay a.costs.now.n (added (cost_at a.costs.now) a.num a.den)
        (λ t ht. ap (λ b. if b then pos 0 else other_added (cost_at a.costs.now) a.num a.den t t)
        (eq-eqb t t refl)) };

    ghost fits_alike = { sums_fit_alike };
}
