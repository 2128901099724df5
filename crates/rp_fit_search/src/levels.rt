//! The search for levels of the observations' own.
ghost use Rattle.std.specs.Prelude.{◌≡◌, IfOk, Ok};
ghost use Rattle.rp_check_levels.specs.LevelsFailure.{LevelsFail};
ghost use Rattle.rp_fit.specs.LevelsEvidence.{ProvesLevels};
ghost use Rattle.rp_fit_search.specs.Looked.{HasLooked};
ghost use Rattle.rp_table.specs.Cost.{cost_of};
ghost use Rattle.rp_table.specs.Tables.{records_of};

use crate::found::find;
use crate::levels_by_ranks::levels_by_ranks;
use crate::looks::Looks;
use crate::packing::Load;
use rp_check_levels::{Measure, check_levels};
use rp_clauses::input::Input;
use rp_fit::{Lack, LevelsPart, WeightedWalk};
use rp_num::{NoMemory, Seq};
use std::alloc::Global;

/// What the walks load.
fn measure_of(lack: Lack) -> Measure {
    match lack {
        Lack::Mean => Measure::Levels,
        Lack::Squares => Measure::SquaredLevels,
    }
}

/// Levels at which the axiom holds below, close to 1 in the mean of what they lack or of its squares, with closed walks
/// that show how little any such levels lack. What is given passes the check, whatever was found.
pub fn search_levels(
    alloc: Global,
    input: &Input<'_>,
    lack: Lack,
    looks: &mut Looks,
) -> Result<LevelsPart, NoMemory>
    ensures lack { IfOk result (λ part. part.lack ≡ lack) }
    ensures accepted { IfOk result (λ part. LevelsFail (records_of input.now.table.now)
        (cost_of input.now.table.now) part (Ok tt)) }
    ensures proves { IfOk result (ProvesLevels (records_of input.now.table.now)
        (cost_of input.now.table.now)) }
    ensures looks { IfOk result (λ _. HasLooked looks.old looks.new) }
{
    prove!(input.costs.n() > 0);
    let found = find(alloc, input, measure_of(lack), Load::AllDearer, looks)?;
    let plain = levels_by_ranks(alloc, input, lack, found.ranks)?;
    let part = with_walks(alloc, &plain, found.den, found.walks)?;
    match check_levels(input, &part) {
        Ok(()) => Ok(part),
        Err(_) => Ok(plain),
    }
}

/// The levels with these walks, weighted over `den`.
fn with_walks(
    alloc: Global,
    plain: &LevelsPart,
    den: u64,
    walks: Vec<WeightedWalk>,
) -> Result<LevelsPart, NoMemory>
    ensures { IfOk result (λ part. part.lack ≡ plain.now.lack) }
{
    Ok(LevelsPart {
        lack: plain.lack,
        at: Seq::from_vec(Vec::from_slice(alloc, plain.at.as_slice())?),
        ranks: Seq::from_vec(Vec::from_slice(alloc, plain.ranks.as_slice())?),
        den,
        walks: Seq::from_vec(walks),
    })
}
