//! Whole numbers divided by a divisor of theirs, in 64 bits where they fit.
ghost use Prim.Native.Nat.{◌∣◌};
ghost use Rattle.std.specs.Prelude.{◌≡◌, ◌*◌, ◌^◌, ◌<◌, ◌≤◌, pos, ◌*ℤ◌, ◌<ℤ◌, MatchOption};
ghost use Rattle.std.specs.Int.RustNames.{unsigned_abs};
ghost use Rattle.rp_farkas.specs.Limits.{FitsEvidence};
ghost use Rattle.rp_simplex.specs.InnerRows.{IsQuotient};

/// The width of evidence, for numbers before the common divisor is taken out.
pub const WIDTH: u128 = rp_farkas::EVIDENCE_WIDTH as u128;

/// The number divided by one of its divisors, in 64 bits.
fn narrow_quotient(entry: i64, divisor: i64) -> i64
    requires positive { pos 0 <ℤ divisor }
    requires divides { unsigned_abs divisor ∣ unsigned_abs entry }
    requires fits { FitsEvidence (unsigned_abs entry) }
    ensures { entry ≡ result *ℤ divisor }
{
    entry / divisor
}

/// The number divided by one of its divisors.
fn wide_quotient(entry: i128, divisor: u128) -> i128
    requires positive { 0 < divisor }
    requires small { divisor < 2 ^ 127 }
    requires divides { divisor ∣ unsigned_abs entry }
    requires fits { unsigned_abs entry < 2 ^ 127 }
    ensures value { entry ≡ result *ℤ pos divisor }
    ensures fits { unsigned_abs result < 2 ^ 127 }
{
    if divisor <= WIDTH && entry.unsigned_abs() <= WIDTH {
        i128::from(narrow_quotient(entry as i64, divisor as i64))
    } else {
        entry / divisor as i128
    }
}

/// The number divided by one of its divisors, or none where that passes the width.
pub fn quotient(entry: i128, divisor: u128) -> Option<i64>
    requires positive { 0 < divisor }
    requires small { divisor < 2 ^ 127 }
    requires divides { divisor ∣ unsigned_abs entry }
    requires fits { unsigned_abs entry < 2 ^ 127 }
    ensures { MatchOption result (2 ^ 63 * divisor ≤ unsigned_abs entry)
        (λ value. IsQuotient entry divisor value) }
{
    let value = wide_quotient(entry, divisor);
    if value.unsigned_abs() > WIDTH {
        return None;
    }
    Some(value as i64)
}
