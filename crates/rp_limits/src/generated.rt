//! The limits of random utility where rational types are generated and not listed.

ghost use Rattle.std.specs.Prelude.{◌≡◌};

/// The most patches of all budgets together.
pub const PATCHES: u32 = 256;
/// The most steps of a search over rational types: 2^36.
pub const STEPS: u64 = 68_719_476_736;

/// The limits of generated types, in numbers.
pub fn limits_in_numbers()
    ensures patches { PATCHES ≡ 256 }
    ensures steps { STEPS ≡ 68719476736 }
{}
