//! The limits of a command's numbers; the others are those of tables and of units.

ghost use Rattle.std.specs.Prelude.{◌≡◌};

/// The most observations of a trial table.
pub const MOST_ROWS: u64 = 256;
/// The most random behaviours that are drawn.
pub const MOST_DRAWS: u64 = 1_000;

/// The limits of a command's numbers that stand here, in numbers.
pub fn limits_in_numbers()
    ensures rows { MOST_ROWS ≡ 256 }
    ensures draws { MOST_DRAWS ≡ 1000 }
{}
