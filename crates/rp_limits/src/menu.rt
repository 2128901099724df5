//! The limits of menus.

ghost use Rattle.std.specs.Prelude.{◌≡◌};

/// The letters that a menu may have, from a on.
pub const LETTERS: u32 = 6;
/// The most cells of all menus together.
pub const CELLS: u32 = 64;

/// The limits of menus, in numbers.
pub fn limits_in_numbers()
    ensures letters { LETTERS ≡ 6 }
    ensures cells { CELLS ≡ 64 }
{}
