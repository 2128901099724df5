//! Items by searches within a limit of looks: kept observations, levels and steps.
ghost use Rattle.std.specs.Prelude.{◌≡◌, IfOk};
ghost use Rattle.rp_evidence.specs.Input.{input_of_table};
ghost use Rattle.rp_fit.specs.declared.item.FitItem.TheVariants as item;
ghost use Rattle.rp_fit_find.specs.InnerReady.{IsReady};

use crate::read_back::{kept_fits, levels_fit, steps_fit};
use rp_clauses::input::Input;
use rp_fit::{KeptPart, Lack, LevelsPart, StepsPart};
use rp_fit_search::{Looks, search_kept, search_levels, search_steps};
use rp_num::NoMemory;
use std::alloc::Global;

/// The looks of the search for kept observations, at most.
const KEPT_LOOKS: u64 = 1 << 16;

/// The looks of a search for walks, at most, times the pairs of observations.
const WALK_LOOKS: u64 = 1 << 30;

/// The limit of a search for walks. It falls with the pairs of observations, since the check goes through all walks for
/// each pair.
fn walk_looks(input: &Input<'_>) -> Looks {
    let n = u64::from(input.n());
    Looks::at_most(WALK_LOOKS / n / n)
}

/// A consistent set of observations, and how many such a set has at most.
pub(crate) fn find_kept(alloc: Global, input: &Input<'_>) -> Result<KeptPart, NoMemory>
    ensures { IfOk result (λ part.
        IsReady (input_of_table input.now.table.now) (item.Kept part)) }
{
    let mut looks = Looks::at_most(KEPT_LOOKS);
    let part = search_kept(alloc, input, &mut looks)?;
    kept_fits(input, &part);
    Ok(part)
}

/// Levels of the observations' own, by a mean of what they lack.
pub(crate) fn find_levels(
    alloc: Global,
    input: &Input<'_>,
    lack: Lack,
) -> Result<LevelsPart, NoMemory>
    ensures ready { IfOk result (λ part.
        IsReady (input_of_table input.now.table.now) (item.Levels part)) }
    ensures lack { IfOk result (λ part. part.lack ≡ lack) }
{
    let mut looks = walk_looks(input);
    let part = search_levels(alloc, input, lack, &mut looks)?;
    levels_fit(input, &part);
    Ok(part)
}

/// Strict steps whose removal leaves no closed walk of them, and what any such steps cost at least.
pub(crate) fn find_steps(alloc: Global, input: &Input<'_>) -> Result<StepsPart, NoMemory>
    ensures { IfOk result (λ part.
        IsReady (input_of_table input.now.table.now) (item.Steps part)) }
{
    let mut looks = walk_looks(input);
    let part = search_steps(alloc, input, &mut looks)?;
    steps_fit(input, &part);
    Ok(part)
}
