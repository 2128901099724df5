//! What laws of persons with any preferences are stated over: a caller of a law picks the relations, for the marker
//! `Brand`.
ghost use Rattle.std.specs.Prelude.{ℕ};
ghost use Rattle.rp_evidence.specs.Demand.{FractionBundle};

use std::marker::Brand;

/// The preferences of persons, by numbers as their names: any relations between bundles.
pub trait PersonRelations {
    ghost prefers: { ℕ → FractionBundle → FractionBundle → Type 0 };
}

impl PersonRelations for Brand {
    ghost prefers = { λ k x y. ⊥ };
}
