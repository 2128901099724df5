//! What laws of every family of sets are stated over: a caller of a law picks the family, for the marker `Brand`.
ghost use Rattle.std.specs.Prelude.{ℕ};
ghost use Rattle.rp_evidence.specs.Demand.{FractionBundle};

use std::marker::Brand;

/// For each output and each bundle of inputs what it takes for them to suffice, or to be feasible.
pub trait InputSets {
    ghost has: { ℕ → FractionBundle → Type 0 };
}

impl InputSets for Brand {
    ghost has = { λ output x. ⊥ };
}
