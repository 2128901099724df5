//! Evidence that the checker takes is within the limits in which it is read back: observations are few, and any other
//! number has the width of its type.
ghost use Rattle.std.specs.Prelude.{All, Ok};
ghost use Rattle.rp_check_fit.specs.KeptFailure.{KeptFails};
ghost use Rattle.rp_check_levels.specs.LevelsFailure.{LevelsFail};
ghost use Rattle.rp_check_levels.specs.StepsFailure.{StepsFail};
ghost use Rattle.rp_json_entries.specs.Reading.{FitObservations, FitsCount, FitsLong};
ghost use Rattle.rp_json_indices.specs.Limits.{FitsCycle, FitsGroup};
ghost use Rattle.rp_json_indices.specs.Limits.{FitsKept, FitsLevels, FitsSteps};
ghost use Rattle.rp_num.specs.Spelled.{FitsWhole};
ghost use Rattle.rp_table.specs.Cost.{cost_of};
ghost use Rattle.rp_table.specs.Tables.{records_of};

use rp_clauses::input::Input;
use rp_fit::{Group, KeptPart, LevelsPart, StepsPart, WeightedWalk};
use rp_limits::table::RECORDS;

/// A number of 32 bits is read back.
pub(crate) fn count_fits(_number: u32)
    ensures { FitsCount _number }
{}

/// A number of 64 bits is read back.
fn long_fits(_number: u64)
    ensures { FitsLong _number }
{}

/// A number of 128 bits is read back.
fn whole_fits(_number: u128)
    ensures { FitsWhole _number }
{}

/// Numbers of 32 bits are read back.
fn counts_fit(numbers: &[u32])
    ensures { All FitsCount numbers.now }
{
    for k in 0..numbers.len() {
        count_fits(numbers[k]);
    }
}

/// Groups of observations with their weights are read back.
fn groups_fit(groups: &[Group])
    requires { All (λ group. FitObservations group.members) groups.now }
    ensures { All FitsGroup groups.now }
{
    for k in 0..groups.len() {
        count_fits(groups[k].weight);
    }
}

/// Walks with their weights are read back.
fn cycles_fit(walks: &[WeightedWalk])
    requires { All (λ each. FitObservations each.walk) walks.now }
    ensures { All FitsCycle walks.now }
{
    for k in 0..walks.len() {
        long_fits(walks[k].weight);
    }
}

/// Kept observations with their groups are read back.
pub(crate) fn kept_fits(input: &Input<'_>, part: &KeptPart)
    requires { KeptFails (records_of input.now.table.now) (cost_of input.now.table.now)
        part.now (Ok tt) }
    ensures { FitsKept part.now }
{
    let n = input.n();
    prove!(n <= RECORDS);
    count_fits(part.den);
    count_fits(part.most);
    counts_fit(part.ranks.as_slice());
    groups_fit(part.groups.as_slice());
}

/// Levels with their walks are read back.
pub(crate) fn levels_fit(input: &Input<'_>, part: &LevelsPart)
    requires { LevelsFail (records_of input.now.table.now) (cost_of input.now.table.now)
        part.now (Ok tt) }
    ensures { FitsLevels part.now }
{
    let n = input.n();
    prove!(n <= RECORDS);
    long_fits(part.den);
    counts_fit(part.ranks.as_slice());
    cycles_fit(part.walks.as_slice());
}

/// Steps with their walks are read back.
pub(crate) fn steps_fit(input: &Input<'_>, part: &StepsPart)
    requires { StepsFail (records_of input.now.table.now) (cost_of input.now.table.now)
        part.now (Ok tt) }
    ensures { FitsSteps part.now }
{
    let n = input.n();
    prove!(n <= RECORDS);
    whole_fits(part.cost);
    long_fits(part.den);
    counts_fit(part.ranks.as_slice());
    cycles_fit(part.walks.as_slice());
}
