//! The limits of tables, and of lists of new prices, bundles, budgets and choices.

ghost use Rattle.std.specs.Prelude.{◌≡◌};

/// The most bytes of the name of a good.
pub const NAME_BYTES: u32 = 64;
/// The most observations that a table has.
pub const RECORDS: u32 = 512;
/// The most goods that a table has.
pub const GOODS: u32 = 16;
/// The most decimal places of a price or a quantity.
pub const DECIMAL_PLACES: u8 = 6;
/// The largest scaled price, and the largest scaled quantity.
pub const LARGEST: u32 = 9_999_999;
/// The whole in the unit of levels, thousandths: the largest level of an observation.
pub const LEVEL_SCALE: u32 = 1_000;
/// The largest scaled expenditure: 16 goods at the largest price and the largest quantity are below it.
pub const LARGEST_EXPENDITURE: u64 = 1_600_000_000_000_000;
/// The most records of new prices or of bundles.
pub const NEW_RECORDS: u32 = 16;
/// The most budgets.
pub const BUDGETS: u32 = 48;
/// The most records of choices.
pub const CHOICES: u32 = 4_096;

/// The limits of tables and lists, in numbers.
pub fn limits_in_numbers()
    ensures name_bytes { NAME_BYTES ≡ 64 }
    ensures records { RECORDS ≡ 512 }
    ensures goods { GOODS ≡ 16 }
    ensures places { DECIMAL_PLACES ≡ 6 }
    ensures largest { LARGEST ≡ 9999999 }
    ensures largest_expenditure { LARGEST_EXPENDITURE ≡ 1600000000000000 }
    ensures level_scale { LEVEL_SCALE ≡ 1000 }
    ensures new_records { NEW_RECORDS ≡ 16 }
    ensures budgets { BUDGETS ≡ 48 }
    ensures choices { CHOICES ≡ 4096 }
{}
