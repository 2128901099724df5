//! Products over the steps of walks as a kind of total.
ghost use Rattle.std.specs.Prelude.{◌≡◌, ◌<◌, ◌≤◌, ◌↔◌, ◌*◌, ◌^◌, IfSome, IsTrue};
ghost use Rattle.std.specs.Ordering.{nat_cmp};
ghost use Rattle.rp_num.specs.Fraction.{FitsTerm};
ghost use Rattle.rp_table.specs.Cost.{cost_at};
ghost use Rattle.rp_walk.specs.ExactTotal.{IsLess};
ghost use Rattle.rp_walk.specs.Products.{FitsFraction, as_total, products};

use rp_num::{FRACTION_WIDTH, Frac, Wide, cmp_products};
use rp_table::Costs;
use rp_walk::Total;
use std::cmp::Ordering;

/// Products of what the steps of walks multiply by, over the costs of a table.
#[derive(Drop)]
pub(crate) struct Products<'a> {
    pub(crate) costs: &'a Costs,
}

impl Total for Products<'_> {
    type Value = Frac;

    ghost rule = { λ a. products a.costs.now.n (cost_at a.costs.now) };

    ghost exact = { as_total };

    ghost fits = { FitsFraction };

    fn n(&self) -> u32 {
        self.costs.n()
    }

    fn start(&self) -> Frac {
        Frac::new(1, 1)
    }

    fn step(&self, v: Frac, t: u32, s: u32) -> Result<Frac, Wide> {
        prove!(v.den() > 0);
        v.times(self.costs.cost(t, s), self.costs.cost(t, t))
    }

    fn less(&self, a: Frac, b: Frac) -> bool {
        prove!(a.den() > 0);
        prove!(b.den() > 0);
        a.cmp(b) == Ordering::Less
    }

    fn first_to_try(&self, v: Frac, t: u32, s: u32, best: &[Frac]) -> u32 {
        let n = self.costs.n();
        for to in s..n {
            if !improves_nothing(self.costs, v, t, to, best[to as usize]) {
                return to;
            }
        }
        n
    }

    fn pair_breaks(&self, s: u32, t: u32) -> bool {
        let across = product(self.costs.cost(s, t), self.costs.cost(t, s));
        let own = product(self.costs.cost(s, s), self.costs.cost(t, t));
        across < own
    }

    ghost use Rattle.rp_walk.proofs.ProductLaws.{products_fit_alike};
    ghost use Rattle.rp_walk.proofs.ProductLaws.{products_keep_order, products_stay};

    ghost keeps_order = { λ a. products_keep_order a.costs.now.n (cost_at a.costs.now) };

    ghost stays = { λ a. products_stay a.costs.now.n (cost_at a.costs.now) };

    ghost fits_alike = { products_fit_alike };
}

/// Whether a cheap look shows that a further step from `t` to `s` takes the product `v` to no less than `best`, and
/// fits. The product is looked at as it stands before it is reduced: no divisor is sought.
fn improves_nothing(costs: &Costs, v: Frac, t: u32, s: u32, best: Frac) -> bool
    requires from { t < costs.now.n }
    requires to { s < costs.now.n }
    ensures not_less { IsTrue result
        → ¬ (IsLess ((products costs.now.n (cost_at costs.now)).after (as_total v) t s)
        (as_total best)) }
    ensures fits { IsTrue result
        → FitsFraction ((products costs.now.n (cost_at costs.now)).after (as_total v) t s) }
{
    let across = costs.cost(t, s);
    let own = costs.cost(t, t);
    if in_words(v) && in_words(best) {
        let num = word_product(v.num(), across);
        let den = word_product(v.den(), own);
        return cmp_by_words(num, best.den(), best.num(), den) != Ordering::Less;
    }
    let Some(num) = unreduced(v.num(), across) else {
        return false;
    };
    let Some(den) = unreduced(v.den(), own) else {
        return false;
    };
    cmp_products(num, best.den(), best.num(), den) != Ordering::Less
}

/// The greatest number of one word.
const MOST_WORD: u128 = (1 << 64) - 1;

/// Whether both parts of a fraction are of one word, as most are.
fn in_words(v: Frac) -> bool
    ensures { IsTrue result ↔ ((v.num ≤ MOST_WORD) × (v.den ≤ MOST_WORD)) }
{
    v.num() <= MOST_WORD && v.den() <= MOST_WORD
}

/// A part of one word times a cost.
fn word_product(part: u128, cost: u64) -> u128
    requires word { part ≤ MOST_WORD }
    requires below { cost < 2 ^ 51 }
    ensures value { result ≡ part * cost }
    ensures fits { FitsTerm result }
{
    u128::from(part as u64) * u128::from(cost)
}

/// The order of `a * b` and `c * d`, where the two in the middle are of one word.
fn cmp_by_words(a: u128, b: u128, c: u128, d: u128) -> Ordering
    requires second { b ≤ MOST_WORD }
    requires third { c ≤ MOST_WORD }
    ensures { result ≡ nat_cmp (a * b) (c * d) }
{
    cmp_products(a, u128::from(b as u64), u128::from(c as u64), d)
}

/// A part of a fraction times a cost, where that is within the width.
fn unreduced(part: u128, cost: u64) -> Option<u128>
    ensures value { IfSome result (λ p. p ≡ part * cost) }
    ensures fits { IfSome result FitsTerm }
{
    match part.checked_mul(u128::from(cost)) {
        Some(p) if p <= FRACTION_WIDTH => Some(p),
        _ => None,
    }
}

/// The product of two costs.
fn product(a: u64, b: u64) -> u128
    requires first { a < 2 ^ 51 }
    requires second { b < 2 ^ 51 }
    ensures { result ≡ a * b }
{
    u128::from(a) * u128::from(b)
}
