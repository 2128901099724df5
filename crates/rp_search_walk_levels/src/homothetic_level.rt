//! The search for bounds on the homothetic level.
ghost use Rattle.std.specs.Prelude.{IfOk, IfSome, Ok};
ghost use Rattle.rp_check_walk_levels.specs.HomotheticLevelFailure.{HomotheticLevelFails};
ghost use Rattle.rp_fit.specs.HomotheticLevel.{ProvesHomotheticLevel};
ghost use Rattle.rp_json_indices.specs.Limits.{FitsHomotheticLevel};
ghost use Rattle.rp_table.specs.Cost.{cost_of};
ghost use Rattle.rp_table.specs.Tables.{records_of};

use crate::logarithm::{ONE, power};
use crate::low::{PARTS, low_of};
use crate::rounds::{Cheapest, cheapest_walk};
use crate::steps::Steps;
use rp_check_walk_levels::check_homothetic_level;
use rp_clauses::input::Input;
use rp_fit::HomotheticLevelPart;
use rp_limits::table::RECORDS;
use rp_num::{NoMemory, Seq};
use std::alloc::Global;

/// The logarithm of the greatest value, 2^60.
const TOP: i64 = 60 * ONE;

/// The logarithm of 2^40.
const WHOLE: i64 = 40 * ONE;

/// How many upper bounds are tried from the one below the rounded mean on.
const TRIES: u64 = 4;

/// The number whose logarithm is `above` and a total over `den`.
fn number_of(above: i64, total: i128, den: i64) -> u64 {
    let mean = total.checked_div(i128::from(den)).unwrap_or(0);
    power(above.saturating_add(i64::try_from(mean).unwrap_or(i64::MIN)))
}

/// Values of the observations by totals of logarithms over `den`.
fn values_of(alloc: Global, totals: &[i128], den: i64) -> Result<Vec<u64>, NoMemory> {
    let mut values = Vec::new(alloc);
    for k in 0..totals.len() {
        values.push(number_of(TOP, totals[k], den))?;
    }
    Ok(values)
}

/// A walk with values, and the bounds that they show; the upper one rounded.
fn part_of(
    alloc: Global,
    input: &Input<'_>,
    found: Cheapest,
) -> Result<HomotheticLevelPart, NoMemory> {
    let values = values_of(alloc, found.totals.as_slice(), found.ratio.den)?;
    Ok(HomotheticLevelPart {
        low: low_of(input, values.as_slice()),
        high: number_of(WHOLE, found.ratio.num, found.ratio.den).min(PARTS),
        walk: Seq::from_vec(found.walk),
        values: Seq::from_vec(values),
    })
}

/// The step from the first observation to itself, and equal values.
fn resting(alloc: Global, input: &Input<'_>) -> Result<HomotheticLevelPart, NoMemory> {
    let mut values = Vec::new(alloc);
    values.resize(input.n() as usize, 1)?;
    let walk = vec![in alloc; 0, 0]?;
    Ok(HomotheticLevelPart {
        low: low_of(input, values.as_slice()),
        high: PARTS,
        walk: Seq::from_vec(walk),
        values: Seq::from_vec(values),
    })
}

/// Two bounds on the level at which the homothetic test holds, with evidence. What is given passes the check, and is
/// read back.
pub fn search_homothetic_level(
    alloc: Global,
    input: &Input<'_>,
) -> Result<Option<HomotheticLevelPart>, NoMemory>
    ensures accepted { IfOk result (λ found. IfSome found (λ part.
        HomotheticLevelFails (records_of input.now.table.now) (cost_of input.now.table.now)
        part (Ok tt))) }
    ensures proves { IfOk result (λ found. IfSome found (
        ProvesHomotheticLevel (records_of input.now.table.now) (cost_of input.now.table.now))) }
    ensures fits { IfOk result (λ found. IfSome found FitsHomotheticLevel) }
{
    let steps = Steps::by_logarithms(alloc, input)?;
    if let Some(found) = cheapest_walk(alloc, &steps)? {
        let part = part_of(alloc, input, found)?;
        if let Some(part) = with_least_high(input, part) {
            return Ok(Some(part));
        }
    }
    Ok(accepted(input, resting(alloc, input)?))
}

/// A part with the least of a few upper bounds that the check takes, where it takes one.
fn with_least_high(input: &Input<'_>, mut part: HomotheticLevelPart) -> Option<HomotheticLevelPart>
    ensures accepted { IfSome result (λ part.
        HomotheticLevelFails (records_of input.now.table.now) (cost_of input.now.table.now)
        part (Ok tt)) }
    ensures proves { IfSome result (
        ProvesHomotheticLevel (records_of input.now.table.now) (cost_of input.now.table.now)) }
    ensures fits { IfSome result FitsHomotheticLevel }
{
    let rounded = part.high;
    for k in 0..TRIES {
        part.high = rounded.saturating_sub(1).saturating_add(k).min(PARTS);
        if check_homothetic_level(input, &part).is_ok() {
            break;
        }
    }
    accepted(input, part)
}

/// A part, where the check takes it.
#[tactic(auto, using(crate::proofs::Limits::homothetic_level_fits))]
fn accepted(input: &Input<'_>, part: HomotheticLevelPart) -> Option<HomotheticLevelPart>
    ensures accepted { IfSome result (λ part.
        HomotheticLevelFails (records_of input.now.table.now) (cost_of input.now.table.now)
        part (Ok tt)) }
    ensures proves { IfSome result (
        ProvesHomotheticLevel (records_of input.now.table.now) (cost_of input.now.table.now)) }
    ensures fits { IfSome result FitsHomotheticLevel }
{
    let n = input.n();
    prove!(n <= RECORDS);
    match check_homothetic_level(input, &part) {
        Ok(()) => Some(part),
        Err(_) => None,
    }
}
