//! What laws of every preference are stated over: a caller of a law picks the relation, for the marker `Brand`.
ghost use Rattle.rp_evidence.specs.Demand.{FractionBundle};

use std::marker::Brand;

/// A relation between bundles, whatever it takes for the first of two to be at least as good as the second.
pub trait BundleRelation {
    ghost prefers: { FractionBundle → FractionBundle → Type 0 };
}

impl BundleRelation for Brand {
    ghost prefers = { λ x y. ⊥ };
}
