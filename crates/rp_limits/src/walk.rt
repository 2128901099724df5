//! The limit of totals over walks.

ghost use Rattle.std.specs.Prelude.{◌≡◌};

/// The greatest number of observations that a kind of total is over.
pub const MOST_OBSERVATIONS: u32 = 4096;

/// The limit of every kind of total, in numbers.
pub fn limits_in_numbers()
    ensures observations { MOST_OBSERVATIONS ≡ 4096 }
{}
