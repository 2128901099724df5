//! The check that a certificate has the levels of its table.
ghost use Rattle.rp_check.specs.LevelsFailure.{LevelsFail, SomeLevelsFail};

use rp_evidence::{Failure, Reason, fails};
use rp_table::Table;

/// Checks that these are the levels of the table's observations, or that neither has any.
pub fn check_levels(table: &Table, levels: &[u32]) -> Result<(), Failure>
    ensures { LevelsFail table.now.levels levels.now result }
{
    check_alike(table.levels(), levels)
}

/// Checks that these are the table's own levels.
fn check_alike(own: &[u32], levels: &[u32]) -> Result<(), Failure>
    ensures { LevelsFail own.now levels.now result }
{
    if levels.len() != own.len() {
        return fails(Reason::Levels, 0);
    }
    for t in 0..own.len() {
        if levels[t] != own[t] {
            return fails(Reason::Levels, t + 1);
        }
    }
    Ok(())
}

/// Checks that the table has no levels.
pub fn check_no_levels(table: &Table) -> Result<(), Failure>
    ensures { SomeLevelsFail table.now.levels result }
{
    if table.levelled() {
        return fails(Reason::Levels, 0);
    }
    Ok(())
}
