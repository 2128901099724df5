//! Sums of products of multipliers and entries.
ghost use Rattle.std.specs.Prelude.{◌≡◌, suc, ◌*◌, ◌^◌, ◌<◌, ◌≤◌, ◌+ℤ◌, ◌*ℤ◌, length};
ghost use Rattle.std.specs.Int.RustNames.{unsigned_abs};
ghost use Rattle.rp_farkas.specs.Limits.{FitsEvidence, largest_entry, most_rows};
ghost use Rattle.rp_simplex.specs.InnerCombined.{AreSmall, ElementsFit, dot};

/// A running sum of at most 64 products of a multiplier and an entry of tableau 0, and one more: it stays within 128
/// bits, since 65 * 2^63 * 2^51 is below 2^121.
pub fn plus_product(sum: i128, multiplier: i64, entry: i64) -> i128
    requires room { unsigned_abs sum ≤ most_rows * (2 ^ 63 * largest_entry) }
    requires fits { FitsEvidence (unsigned_abs multiplier) }
    requires small { unsigned_abs entry ≤ largest_entry }
    ensures { result ≡ sum +ℤ multiplier *ℤ entry }
{
    sum + i128::from(multiplier) * i128::from(entry)
}

/// The sum of the products of multipliers and the elements of a column of tableau 0.
pub fn dot_product(multipliers: &[i64], column: &[i64]) -> i128
    requires same { length column.now ≡ length multipliers.now }
    requires few { length multipliers.now ≤ suc most_rows }
    requires fit { ElementsFit multipliers.now }
    requires small { AreSmall largest_entry column.now }
    ensures value { result ≡ dot (length multipliers.now) multipliers.now column.now }
    ensures fits { unsigned_abs result < 2 ^ 122 }
{
    let mut sum: i128 = 0;
    for s in 0..multipliers.len() {
        sum = plus_product(sum, multipliers[s], column[s]);
    }
    sum
}
