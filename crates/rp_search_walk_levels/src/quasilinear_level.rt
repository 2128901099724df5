//! The search for the quasilinear level.
ghost use Rattle.std.specs.Prelude.{IfOk, IfSome, Ok};
ghost use Rattle.rp_check_walk_levels.specs.QuasilinearLevelFailure.{QuasilinearLevelFails};
ghost use Rattle.rp_fit.specs.QuasilinearLevel.{IsQuasilinearLevel};
ghost use Rattle.rp_json_indices.specs.Limits.{FitsQuasilinearLevel};
ghost use Rattle.rp_table.specs.Cost.{cost_of};
ghost use Rattle.rp_table.specs.Tables.{records_of};

use crate::rounds::{Cheapest, cheapest_walk};
use crate::steps::Steps;
use rp_check_walk_levels::check_quasilinear_level;
use rp_clauses::input::Input;
use rp_fit::QuasilinearLevelPart;
use rp_limits::table::RECORDS;
use rp_num::{NoMemory, Seq, gcd};
use std::alloc::Global;

/// A number of 64 bits.
fn long(number: i128) -> u64 {
    u64::try_from(number).unwrap_or(0)
}

/// The greatest common divisor of two numbers, or 1.
fn common(a: u64, b: u64) -> i128 {
    i128::try_from(gcd(u128::from(a), u128::from(b)))
        .unwrap_or(1)
        .max(1)
}

/// A number divided by another that divides it.
fn divided(number: i128, by: i128) -> i128 {
    number.checked_div(by).unwrap_or(0)
}

/// The ratio of a closed walk in lowest terms, with totals at it.
fn part_of(alloc: Global, found: Cheapest) -> Result<QuasilinearLevelPart, NoMemory> {
    let (num, den) = (found.ratio.num, i128::from(found.ratio.den));
    let common = common(long(num), long(den));
    let mut values = Vec::new(alloc);
    for k in 0..found.totals.len() {
        values.push(divided(found.totals[k], common))?;
    }
    Ok(QuasilinearLevelPart {
        num: long(divided(num, common)),
        den: long(divided(den, common)),
        walk: Seq::from_vec(found.walk),
        values: Seq::from_vec(values),
    })
}

/// The level at which the quasilinear test holds, with evidence; none where a number passes its width, or the rounds
/// their limit. What is given passes the check, and is read back.
pub fn search_quasilinear_level(
    alloc: Global,
    input: &Input<'_>,
) -> Result<Option<QuasilinearLevelPart>, NoMemory>
    ensures accepted { IfOk result (λ found. IfSome found (λ part.
        QuasilinearLevelFails (records_of input.now.table.now) (cost_of input.now.table.now)
        part (Ok tt))) }
    ensures proves { IfOk result (λ found. IfSome found (λ part.
        IsQuasilinearLevel (records_of input.now.table.now) (cost_of input.now.table.now)
        part.num part.den)) }
    ensures fits { IfOk result (λ found. IfSome found FitsQuasilinearLevel) }
{
    let steps = Steps::by_costs(alloc, input)?;
    let Some(found) = cheapest_walk(alloc, &steps)? else {
        return Ok(None);
    };
    Ok(accepted(input, part_of(alloc, found)?))
}

/// A part, where the check takes it.
#[tactic(auto, using(crate::proofs::Limits::quasilinear_level_fits))]
fn accepted(input: &Input<'_>, part: QuasilinearLevelPart) -> Option<QuasilinearLevelPart>
    ensures accepted { IfSome result (λ part.
        QuasilinearLevelFails (records_of input.now.table.now) (cost_of input.now.table.now)
        part (Ok tt)) }
    ensures proves { IfSome result (λ part.
        IsQuasilinearLevel (records_of input.now.table.now) (cost_of input.now.table.now)
        part.num part.den) }
    ensures fits { IfSome result FitsQuasilinearLevel }
{
    let n = input.n();
    prove!(n <= RECORDS);
    match check_quasilinear_level(input, &part) {
        Ok(()) => Some(part),
        Err(_) => None,
    }
}
