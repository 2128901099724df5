//! Sums of products over rows, columns and the objective.
ghost use Rattle.std.specs.Prelude.{◌≡◌, ◌-◌, ◌*◌, ◌^◌, ◌<◌, ◌≤◌, pos, ◌+ℤ◌, ◌*ℤ◌, All, length};
ghost use Rattle.std.specs.Prelude.{slice_index};
ghost use Rattle.std.specs.Int.RustNames.{unsigned_abs};
ghost use Rattle.rp_farkas.specs.Limits.{FitsEvidence, largest_entry, most_columns};
ghost use Rattle.rp_farkas.specs.Listing.{IsListing, numerator_at};
ghost use Rattle.rp_farkas.specs.Point.{row_times, value_of};
ghost use Rattle.rp_farkas.specs.Prices.{column_times, value_of_prices};

use crate::entry::Entry;
use crate::program::Lp;

/// The product of an entry and a number, which has 128 bits.
pub fn product(entry: i64, number: u64) -> i128
    requires { FitsEvidence number }
    ensures { result ≡ entry *ℤ pos number }
{
    i128::from(entry) * i128::from(number)
}

/// A running sum of at most 8,191 products of an entry and a number, and one more: it stays within 128 bits, since
/// 2^13 · 2^51 · (2^63 - 1) is below 2^127.
fn plus_product(sum: i128, entry: i64, number: u64) -> i128
    requires room { unsigned_abs sum ≤ (most_columns - 1) * (largest_entry * (2 ^ 63 - 1)) }
    requires entry { unsigned_abs entry ≤ largest_entry }
    requires number { FitsEvidence number }
    ensures { result ≡ sum +ℤ entry *ℤ pos number }
{
    sum + product(entry, number)
}

/// Row i of A times the listed point.
pub fn row_sum<P: Lp>(p: &P, i: u32, y: &[Entry]) -> i128
    requires row { i < (P.program p.now).rows }
    requires listed { IsListing (P.program p.now).cols y.now }
    ensures { result ≡ row_times (P.program p.now) i (numerator_at y.now) }
{
    let mut sum = 0;
    for entry in y {
        sum = plus_product(sum, p.a(i, entry.at), entry.value);
    }
    sum
}

/// The value of the listed point.
pub fn value_sum<P: Lp>(p: &P, y: &[Entry]) -> i128
    requires { IsListing (P.program p.now).cols y.now }
    ensures { result ≡ value_of (P.program p.now) (numerator_at y.now) }
{
    let mut sum = 0;
    for entry in y {
        sum = plus_product(sum, p.c(entry.at), entry.value);
    }
    sum
}

/// Column j of A times the prices.
pub fn column_sum<P: Lp>(p: &P, j: u32, x: &[u64]) -> i128
    requires column { j < (P.program p.now).cols }
    requires rows { length x.now ≡ (P.program p.now).rows }
    requires fits { All FitsEvidence x.now }
    ensures { result ≡ column_times (P.program p.now) j (slice_index x.now) }
{
    let mut sum = 0;
    for i in 0..p.rows() {
        sum = plus_product(sum, p.a(i, j), x[i as usize]);
    }
    sum
}

/// The cost of the prices.
pub fn cost_sum<P: Lp>(p: &P, x: &[u64]) -> i128
    requires rows { length x.now ≡ (P.program p.now).rows }
    requires fits { All FitsEvidence x.now }
    ensures { result ≡ value_of_prices (P.program p.now) (slice_index x.now) }
{
    let mut sum = 0;
    for i in 0..p.rows() {
        sum = plus_product(sum, p.b(i), x[i as usize]);
    }
    sum
}
