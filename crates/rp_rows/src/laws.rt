//! Laws over the texts of rows. Each function is empty: its contract is the law.
ghost use Rattle.std.specs.Prelude.{◌≡◌, ℕ, ◌+◌, ◌-◌, ◌*◌, ◌/◌, ◌%◌, ◌^◌, ◌≤◌, ◌↔◌};
ghost use Rattle.rp_num.specs.Fraction.{Fraction};
ghost use Rattle.rp_rows.specs.Floors.{millionths};

/// For every number k/10^m of at most six places: it is at most a fraction exactly where it is at most the fraction with
/// six places, rounded down.
pub fn floor_compares()
    ensures { (f : Fraction) (k m : ℕ) → 1 ≤ f.den → m ≤ 6
        → (k * f.den ≤ f.num * 10 ^ m) ↔ (k * 10 ^ (6 - m) ≤ millionths f) }
{}

/// A number of millionths is that of its whole part and its six digits.
pub fn floor_has_six_digits()
    ensures { (m : ℕ) → m ≡ 1000000 * (m / 1000000) + 100000 * (m / 100000 % 10)
        + 10000 * (m / 10000 % 10) + 1000 * (m / 1000 % 10) + 100 * (m / 100 % 10)
        + 10 * (m / 10 % 10) + m % 10 }
{}
