//! The limits of patches and of the units on them.

ghost use Rattle.std.specs.Prelude.{◌≡◌};

/// The most patches of all budgets together.
pub const PATCHES: u32 = 48;
/// The most places that units are shared out among: at least as many as there are patches.
pub const PLACES: u32 = 256;
/// The most units of a budget, or of another group, and so the largest total.
pub const UNITS: u32 = 1_000_000_000;

/// The limits of patches and units, in numbers.
pub fn limits_in_numbers()
    ensures patches { PATCHES ≡ 48 }
    ensures places { PLACES ≡ 256 }
    ensures units { UNITS ≡ 1000000000 }
{}
