//! One pivot.
ghost use Rattle.std.specs.Prelude.{◌≡◌, ◌^◌, ◌<◌, pos, ◌*ℤ◌, ◌<ℤ◌, MatchOption};
ghost use Rattle.rp_simplex.specs.Pivot.{IsPivot};
ghost use Rattle.rp_simplex.specs.InnerPivot.{PivotPasses};
ghost use Rattle.rp_simplex.specs.InnerStage.{exact};

use crate::division::WIDTH;
use crate::divisor::common_divisor;
use crate::renewal::renew;
use crate::stage::Stage;
use crate::width::all_fit;

/// The denominator after the pivot, before the common divisor is taken out.
fn cleared_denominator(t: &Stage, r: usize, c: usize) -> u128
    requires pivot_row { r < t.now.rows }
    requires pivot_column { c < t.now.width }
    requires pivot_entry { pos 0 <ℤ (exact t.now).at r c }
    ensures value { pos result ≡ pos t.now.den *ℤ (exact t.now).at r c }
    ensures positive { 0 < result }
    ensures fits { result < 2 ^ 126 }
{
    u128::from(t.den) * t.entry(r, c) as u128
}

/// The tableau after the pivot at row r and column c, or none where it passes the width.
pub fn pivot_at(t: Stage, r: usize, c: usize) -> Option<Stage>
    requires pivot_row { r < t.rows }
    requires pivot_column { c < t.width }
    requires pivot_entry { pos 0 <ℤ (exact t).at r c }
    ensures next { MatchOption result (PivotPasses t.rows t.width (exact t) r c)
        (λ u. IsPivot t.rows t.width (exact t) r c (exact u)) }
    ensures shape { MatchOption result Unit (λ u. (u.rows ≡ t.rows) × (u.width ≡ t.width)) }
{
    let new_den = cleared_denominator(&t, r, c);
    let divisor = common_divisor(&t, r, c, new_den);
    if new_den / divisor > WIDTH {
        return None;
    }
    let pivot = t.entry(r, c);
    let Stage {
        rows,
        width,
        den,
        largest,
        columns,
        mut multipliers,
        mut basis,
    } = t;
    let column = columns.row(c as u32);
    if !renew(&mut multipliers, column, den, r as u32, pivot, divisor)
        || !all_fit(&multipliers, &columns, largest)
    {
        return None;
    }
    basis[r] = c;
    Some(Stage {
        rows,
        width,
        den: (new_den / divisor) as u64,
        largest,
        columns,
        multipliers,
        basis,
    })
}
