//! The ratios among which the index is.
ghost use Rattle.std.specs.Prelude.{◌≡◌, ◌<◌, ◌*◌, ◌^◌, refl};
ghost use Rattle.std.specs.Cmp.{eq_by_cmp_equiv, partial_equiv_from_equiv, po};
ghost use Rattle.std.specs.Ordering.{as_partial_cmp, eq_by_cmp};
ghost use Rattle.rp_evidence.specs.Preference.{IsLevel};
ghost use Rattle.rp_pref.proofs.LevelOrder.{cross_total, level_den};
ghost use Rattle.rp_effic.specs.InnerRatioOrder.{cross_cmp};

use std::cmp::Ordering;

/// What a bundle costs at the prices of an observation, over what was spent there: a level, not in lowest terms.
#[derive(Clone, Copy, Debug)]
pub struct Ratio {
    pub num: u64,
    pub den: u64,
    ghost level: { IsLevel num den },
    ghost small: { den < 2 ^ 51 },
}

impl Ratio {
    /// The numerator times the other ratio's denominator.
    fn across(&self, other: &Ratio) -> u128
        ensures { result ≡ self.now.num * other.now.den }
    {
        u128::from(self.num) * u128::from(other.den)
    }
}

impl PartialEq for Ratio {
    ghost eq = { eq_by_cmp (cross_cmp (λ r. r.num) (λ r. r.den)) };

    ghost laws = { partial_equiv_from_equiv
        (eq_by_cmp_equiv (cross_total (λ r. r.num) (λ r. r.den)
        (λ r. level_den r.num r.den r.level))) };

    fn eq(&self, other: &Ratio) -> bool {
        self.cmp(other) == Ordering::Equal
    }
}

impl Eq for Ratio {
    ghost laws = { eq_by_cmp_equiv
        (cross_total (λ r. r.num) (λ r. r.den) (λ r. level_den r.num r.den r.level)) };
}

impl PartialOrd for Ratio {
    ghost partial_cmp = { as_partial_cmp (cross_cmp (λ r. r.num) (λ r. r.den)) };

    ghost laws = { po (cross_total (λ r. r.num) (λ r. r.den)
        (λ r. level_den r.num r.den r.level)) (λ x y. refl) };

    fn partial_cmp(&self, other: &Ratio) -> Option<Ordering> {
        Some(self.cmp(other))
    }
}

impl Ord for Ratio {
    ghost cmp = { cross_cmp (λ r. r.num) (λ r. r.den) };

    ghost total = { cross_total (λ r. r.num) (λ r. r.den)
        (λ r. level_den r.num r.den r.level) };

    ghost matches_partial_cmp = { λ x y. refl };

    ghost matches_eq = { λ x y. refl };

    /// The exact order of the two numbers, by their cross products.
    fn cmp(&self, other: &Ratio) -> Ordering {
        self.across(other).cmp(&other.across(self))
    }
}
