//! Kinds of totals of walks.
ghost use Rattle.std.specs.Prelude.{◌≡◌, ℕ, ◌<◌, ◌≤◌, ◌↔◌, IsTrue, IfOk, IsErr, length};
ghost use Rattle.std.specs.Prelude.{slice_index_or};
ghost use Rattle.rp_walk.specs.ExactTotal.{ExactTotal, IsLess, SameTotal};
ghost use Rattle.rp_walk.specs.Walk.{KeepsOrder, TotalRule};
ghost use Rattle.rp_walk.specs.LeastTotals.{FitsAlike};
ghost use Rattle.rp_walk.specs.Settled.{PairBreaks};
ghost use Rattle.rp_limits.specs.declared.walk.TheConstants.{MOST_OBSERVATIONS};

use rp_num::Wide;

/// A kind of total of walks over some observations, as a sum or a product over the steps. Each value
/// stands for one exact total. A step may pass what values can stand for.
pub trait Total {
    type Value: Copy;

    /// The observations, and what a step does to an exact total.
    ghost rule: { Self → TotalRule };

    /// The exact total that a value stands for.
    ghost exact: { Self.Value → ExactTotal };

    /// Which exact totals a value can stand for.
    ghost fits: { ExactTotal → Type 0 };

    /// How many observations there are.
    fn n(&self) -> u32
        ensures value { result ≡ (rule self.now).count }
        ensures some { 1 ≤ result }
        ensures limit { result ≤ MOST_OBSERVATIONS };

    /// The total of a walk of no step.
    fn start(&self) -> Self::Value
        ensures value { SameTotal (exact result) (rule self.now).empty }
        ensures fits { fits (exact result) };

    /// The total `v` after a further step from `t` to `s`.
    fn step(&self, v: Self::Value, t: u32, s: u32) -> Result<Self::Value, Wide>
        requires from { t < (rule self.now).count }
        requires to { s < (rule self.now).count }
        ensures value { IfOk result (λ r.
            SameTotal (exact r) ((rule self.now).after (exact v) t s)) }
        ensures fits { IfOk result (λ r. fits (exact r)) }
        ensures wide { IsErr result ↔ (¬ (fits ((rule self.now).after (exact v) t s))) };

    /// The strict order of the exact totals.
    fn less(&self, a: Self::Value, b: Self::Value) -> bool
        ensures { IsTrue result ↔ IsLess (exact a) (exact b) };

    /// The first observation from `s` on of which no cheap look shows that a further step from `t` to it
    /// takes the total `v` to no less than its best, and fits. Such a step may do so too.
    fn first_to_try(&self, v: Self::Value, t: u32, s: u32, best: &[Self::Value]) -> u32
        requires from { t < (rule self.now).count }
        requires to { s ≤ (rule self.now).count }
        requires each { length best.now ≡ (rule self.now).count }
        ensures at_least { s ≤ result }
        ensures at_most { result ≤ (rule self.now).count }
        ensures not_less { (i : ℕ) (b : Self.Value) → s ≤ i → i < result
            → b ≡ slice_index_or best.now i b
            → ¬ (IsLess ((rule self.now).after (exact v) t i) (exact b)) }
        ensures fits { (i : ℕ) → s ≤ i → i < result
            → fits ((rule self.now).after (exact v) t i) }
    {
        s
    }

    /// Whether going on from `s` to `t` and back to `s` lowers every total that a walk reaches at `s`.
    fn pair_breaks(&self, s: u32, t: u32) -> bool
        requires from { s < (rule self.now).count }
        requires to { t < (rule self.now).count }
        ensures { IsTrue result ↔ PairBreaks (rule self.now) s t };

    /// A step keeps the order of exact totals.
    ghost keeps_order: { (a : Self) → KeepsOrder (rule a) };

    /// A step from an observation to itself changes nothing.
    ghost stays: { (a : Self) (x : ExactTotal) (t : ℕ)
        → t < (rule a).count → SameTotal ((rule a).after x t t) x };

    /// What fits is a matter of the number alone.
    ghost fits_alike: { FitsAlike fits };
}
