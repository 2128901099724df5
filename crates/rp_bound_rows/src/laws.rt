//! A law over the texts of bounds. The function is empty: its contract is the law.
ghost use Rattle.std.specs.Prelude.{ℕ, ◌-◌, ◌*◌, ◌^◌, ◌≤◌, ◌↔◌};
ghost use Rattle.rp_num.specs.Fraction.{Fraction};
ghost use Rattle.rp_bound_rows.specs.Amounts.{ceiling_millionths};

/// For every number k/10^m of at most six places: it is at least a fraction exactly where it is at least the fraction with
/// six places, rounded up.
pub fn ceiling_compares()
    ensures { (f : Fraction) (k m : ℕ) → 1 ≤ f.den → m ≤ 6
        → (f.num * 10 ^ m ≤ k * f.den) ↔ (ceiling_millionths f ≤ k * 10 ^ (6 - m)) }
{}
