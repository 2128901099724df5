//! The limits of a long file: the tables of many households in one.

ghost use Rattle.std.specs.Prelude.{◌≡◌};

/// The most bytes of a long file.
pub const BYTES: u64 = 67_108_864;
/// The most records of a long file, after its headers.
pub const RECORDS: u32 = 1_048_576;
/// The most bytes of the name of a household, without the blanks round it.
pub const HOUSEHOLD_BYTES: u32 = 256;

/// The limits of long files, in numbers.
pub fn limits_in_numbers()
    ensures bytes { BYTES ≡ 67108864 }
    ensures records { RECORDS ≡ 1048576 }
    ensures household_bytes { HOUSEHOLD_BYTES ≡ 256 }
{}
