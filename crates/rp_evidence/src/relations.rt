//! What laws over every relation and every notion of preference are stated over: a caller of a law picks them, for
//! the marker `Brand`, as terms.
ghost use Rattle.std.specs.Prelude.{ℕ};

use std::marker::Brand;

/// A relation between observations, of which walks are made.
pub trait Relation {
    ghost step: { ℕ → ℕ → Type 0 };
}

/// A notion of preference: which observations are weakly and which are strictly preferred to which.
pub trait Preference {
    ghost weak: { ℕ → ℕ → Type 0 };

    ghost strict: { ℕ → ℕ → Type 0 };
}

impl Relation for Brand {
    ghost step = { λ s t. ⊥ };
}

impl Preference for Brand {
    ghost weak = { λ s t. ⊥ };

    ghost strict = { λ s t. ⊥ };
}
