//! The clauses of an efficiency index.
ghost use Rattle.std.specs.Prelude.{◌<◌, ◌^◌};
ghost use Rattle.rp_clauses.specs.EfficiencyFailure.{AboveFails, EfficiencyFails, LevelFails};
ghost use Rattle.rp_table.specs.Cost.{cost_of};
ghost use Rattle.rp_table.specs.Tables.{records_of};

use crate::garp::{check_garp, check_ordering_ranks};
use crate::input::Input;
use crate::standard::Standard;
use crate::walk::{check_closed_walk, check_weak_steps};
use rp_evidence::{Efficiency, Failure, Garp, Level, Reason, fails};

/// The denominator of a level is below this.
const LEVEL_LIMIT: u64 = 1 << 51;

/// Checks the walk above the level: none at 1, else a closed one of weak steps.
fn check_above(input: &Input<'_>, level: Level, walk: &[u32]) -> Result<(), Failure>
    requires num { level.num < 2 ^ 51 }
    requires den { level.den < 2 ^ 51 }
    ensures { AboveFails (records_of input.now.table.now) (cost_of input.now.table.now)
        level.num level.den walk.now result }
{
    if level.num == level.den {
        if !walk.is_empty() {
            return fails(Reason::Shape, 1);
        }
        return Ok(());
    }
    check_closed_walk(input, walk)?;
    check_weak_steps(input, Standard::At(level), walk)
}

/// Checks the ranks below the level, the walk above it and the evidence at it, in this order.
fn check_level(
    input: &Input<'_>,
    level: Level,
    below: &[u32],
    above_walk: &[u32],
    at: &Garp,
) -> Result<(), Failure>
    requires num { level.num < 2 ^ 51 }
    requires den { level.den < 2 ^ 51 }
    ensures { LevelFails (records_of input.now.table.now) (cost_of input.now.table.now)
        level.num level.den below.now above_walk.now at.now result }
{
    check_ordering_ranks(input, Standard::At(level), below)?;
    check_above(input, level, above_walk)?;
    check_garp(input, Standard::At(level), at)
}

/// Checks evidence for the critical cost efficiency index (Afriat 1973). The level need not be in lowest terms.
pub fn check_efficiency(input: &Input<'_>, evidence: &Efficiency) -> Result<(), Failure>
    ensures { EfficiencyFails (records_of input.now.table.now) (cost_of input.now.table.now)
        evidence.now result }
{
    let level = evidence.level;
    if level.num == 0 || level.num > level.den || level.den >= LEVEL_LIMIT {
        return fails(Reason::Level, 0);
    }
    let below = evidence.below.as_slice();
    let above = evidence.above.as_slice();
    check_level(input, level, below, above, &evidence.at)
}
