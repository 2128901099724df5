//! The choice of the row that leaves.
ghost use Rattle.std.specs.Prelude.{◌≡◌, ◌+◌, ◌<◌, ℕ, ◌*ℤ◌, ◌⊎◌, MatchBool};
ghost use Rattle.std.specs.Prelude.{MatchOption};
ghost use Rattle.rp_simplex.specs.Choice.{IsLeaving, IsUnbounded};
ghost use Rattle.rp_simplex.specs.InnerTableau.{HasNoTies, LeavesBelow};
ghost use Rattle.rp_simplex.specs.Lexicographic.{IsLexLess};
ghost use Rattle.rp_simplex.specs.InnerStage.{exact};

use crate::stage::Stage;

/// Whether row `first`, divided by its entry in column c, is lexicographically less than row `second`, divided by
/// its own. The entries are multiplied crosswise.
fn is_lesser(t: &Stage, c: usize, first: usize, second: usize) -> bool
    requires column { c < t.now.width }
    requires first_row { first < t.now.rows }
    requires second_row { second < t.now.rows }
    ensures { let one = (λ (j : ℕ). (exact t.now).at second c *ℤ (exact t.now).at first j) in
        let other = (λ (j : ℕ). (exact t.now).at first c *ℤ (exact t.now).at second j) in
        MatchBool result (IsLexLess t.now.width one other)
        (IsLexLess t.now.width other one ⊎ ((j : ℕ) → j < t.now.width → one j ≡ other j)) }
{
    for j in 0..t.width {
        let one = t.cross(second, c, first, j);
        let other = t.cross(first, c, second, j);
        if one != other {
            return one < other;
        }
    }
    false
}

/// The better of the row that leaves so far and row i.
fn better_row(t: &Stage, c: usize, best: Option<usize>, i: usize) -> Option<usize>
    requires column { c < t.now.width }
    requires row { i < t.now.rows }
    requires no_ties { HasNoTies t.now.rows t.now.width (exact t.now) c }
    requires so_far { LeavesBelow i t.now.width (exact t.now) c best }
    ensures { LeavesBelow (i + 1) t.now.width (exact t.now) c result }
{
    if t.entry(i, c) <= 0 {
        return best;
    }
    match best {
        Some(row) => {
            if is_lesser(t, c, i, row) {
                Some(i)
            } else {
                Some(row)
            }
        }
        None => Some(i),
    }
}

/// The row that leaves where column c enters, or none where no row has a positive entry there.
pub fn leaving_row(t: &Stage, c: usize) -> Option<usize>
    requires column { c < t.now.width }
    requires no_ties { HasNoTies t.now.rows t.now.width (exact t.now) c }
    ensures { MatchOption result (IsUnbounded t.now.rows (exact t.now) c)
        (λ r. IsLeaving t.now.rows t.now.width (exact t.now) c r) }
{
    let mut best = None;
    for i in 0..t.rows {
        best = better_row(t, c, best, i);
    }
    best
}
