//! The limits of rational types.

ghost use Rattle.std.specs.Prelude.{◌≡◌, ◌^◌};

/// The largest product of the numbers of patches of the budgets.
pub const COMBINATIONS: u32 = 1 << 20;
/// The most rational types.
pub const TYPES: u32 = 4096;

/// The limits of rational types, in numbers.
pub fn limits_in_numbers()
    ensures combinations { COMBINATIONS ≡ 2 ^ 20 }
    ensures types { TYPES ≡ 4096 }
{}
