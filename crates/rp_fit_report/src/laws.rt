//! What printed bounds enclose.
ghost use Rattle.std.specs.Prelude.{◌<◌, ◌≤◌, ◌*◌, ◌^◌, ℕ};
ghost use Rattle.rp_fit.specs.Levels.{LackAtMost, lack_parts, lack_sum};
ghost use Rattle.rp_fit.specs.LevelsEvidence.{level_den, level_num, power_of};
ghost use Rattle.rp_fit.specs.declared.levels.LevelsPart.{LevelsPart};
ghost use Rattle.rp_fit_report.specs.LevelsText.{lack_total, upper};
ghost use Rattle.rp_fit_report.specs.MeanLack.{common_den, lack_of};
ghost use Rattle.rp_num.specs.Fraction.{IsLowestTerms};

/// Levels lack at most the upper bound that is printed for them, in the mean. So they do where each level is rounded
/// up.
pub fn printed_upper_bound_holds()
    ensures printed { (n : ℕ) (c : ℕ → ℕ → ℕ) (part : LevelsPart)
        → ((s : ℕ) → s < n → 1 ≤ c s s)
        → LackAtMost (power_of part.lack) n (level_num c part) (level_den c)
        (upper n c part).num (upper n c part).den }
    ensures rounded { (n : ℕ) (c : ℕ → ℕ → ℕ) (part : LevelsPart)
        → ((s : ℕ) → s < n → 1 ≤ c s s)
        → LackAtMost (power_of part.lack) n (level_num c part) (level_den c)
        (lack_total n c part 1) (2 ^ 40 * n) }
{}

/// The upper bound that is printed for levels is what they lack in the mean, in lowest terms, where the number of
/// observations times the least common denominator is within the width of fractions.
pub fn printed_upper_bound_is_the_mean()
    ensures { (n : ℕ) (c : ℕ → ℕ → ℕ) (part : LevelsPart)
        → 1 ≤ n → ((s : ℕ) → s < n → 1 ≤ c s s)
        → common_den n (lack_of c part) * n < 2 ^ 127
        → IsLowestTerms (lack_sum (power_of part.lack) n (level_num c part) (level_den c))
        (lack_parts (power_of part.lack) n (level_den c)) (upper n c part) }
{}
