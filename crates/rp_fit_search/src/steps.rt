//! The search for strict steps that cost little, whose removal leaves no closed walk of them.
ghost use Rattle.std.specs.Prelude.{IfOk, Ok};
ghost use Rattle.rp_check_levels.specs.StepsFailure.{StepsFail};
ghost use Rattle.rp_fit.specs.StepsEvidence.{ProvesSteps};
ghost use Rattle.rp_fit_search.specs.Looked.{HasLooked};
ghost use Rattle.rp_table.specs.Cost.{cost_of};
ghost use Rattle.rp_table.specs.Tables.{records_of};

use crate::found::find;
use crate::looks::Looks;
use crate::packing::Load;
use crate::steps_by_ranks::steps_by_ranks;
use rp_check_levels::{Measure, check_steps};
use rp_clauses::input::Input;
use rp_fit::{StepsPart, WeightedWalk};
use rp_num::{NoMemory, Seq};
use std::alloc::Global;

/// Strict steps whose removal leaves no closed walk of them, which cost little, with closed walks that show what any such
/// steps cost at least. What is given passes the check, whatever was found.
pub fn search_steps(
    alloc: Global,
    input: &Input<'_>,
    looks: &mut Looks,
) -> Result<StepsPart, NoMemory>
    ensures accepted { IfOk result (λ part. StepsFail (records_of input.now.table.now)
        (cost_of input.now.table.now) part (Ok tt)) }
    ensures proves { IfOk result (ProvesSteps (records_of input.now.table.now)
        (cost_of input.now.table.now)) }
    ensures looks { IfOk result (λ _. HasLooked looks.old looks.new) }
{
    let found = find(alloc, input, Measure::Steps, Load::Alone, looks)?;
    let plain = steps_by_ranks(alloc, input, found.ranks)?;
    let part = with_walks(alloc, &plain, found.den, found.walks)?;
    match check_steps(input, &part) {
        Ok(()) => Ok(part),
        Err(_) => Ok(plain),
    }
}

/// A copy of these lists.
fn copied(alloc: Global, lists: &[Seq<u32>]) -> Result<Vec<Seq<u32>>, NoMemory> {
    let mut copy = Vec::new(alloc);
    for k in 0..lists.len() {
        copy.push(Seq::from_vec(Vec::from_slice(alloc, lists[k].as_slice())?))?;
    }
    Ok(copy)
}

/// The steps with these walks, weighted over `den`.
fn with_walks(
    alloc: Global,
    plain: &StepsPart,
    den: u64,
    walks: Vec<WeightedWalk>,
) -> Result<StepsPart, NoMemory> {
    Ok(StepsPart {
        taken: Seq::from_vec(copied(alloc, plain.taken.as_slice())?),
        cost: plain.cost,
        ranks: Seq::from_vec(Vec::from_slice(alloc, plain.ranks.as_slice())?),
        den,
        walks: Seq::from_vec(walks),
    })
}
