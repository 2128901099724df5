//! The lines of the minimum cost of steps.
ghost use Rattle.std.specs.Prelude.{◌≡◌, ◌++◌, ◌≤◌, ◌<◌, ◌*◌, ◌^◌, Ok, OnOk, [], codes, length};
ghost use Rattle.std.specs.Prelude.{slice_index_or};
ghost use Rattle.rp_check_levels.specs.StepsFailure.{StepsFail};
ghost use Rattle.rp_fit.specs.Steps.{all_spent};
ghost use Rattle.rp_fit_report.specs.LevelsText.{range_text};
ghost use Rattle.rp_fit_report.specs.StepsText.{is_exact, lower, removed_text, row_text, steps_text};
ghost use Rattle.rp_fit_report.specs.StepsText.{upper};
ghost use Rattle.rp_limits.specs.declared.table.TheConstants.{RECORDS};
ghost use Rattle.rp_table.specs.Cost.{cost_of};
ghost use Rattle.rp_table.specs.Tables.{records_of};

use crate::cycles::push_cycles;
use crate::levels::{push_range, weight_of};
use rp_clauses::input::Input;
use rp_fit::StepsPart;
use rp_num::{Frac, NoMemory, Seq};
use rp_print::{Ordinal, lowest_terms, push_after, push_numbers, push_ordinals};
use std::alloc::Global;

/// Appends the lines of steps to remove that the checker accepts.
pub fn push_steps(
    alloc: Global,
    out: &mut Vec<u8>,
    input: &Input<'_>,
    part: &StepsPart,
) -> Result<(), NoMemory>
    requires { StepsFail (records_of input.now.table.now) (cost_of input.now.table.now) part.now
        (Ok tt) }
    ensures { OnOk result (out.new.items ≡ out.old.items
        ++ steps_text (records_of input.now.table.now) (cost_of input.now.table.now) part.now) }
{
    push_bounds(alloc, out, input, part)?;
    push_removed(alloc, out, input.n(), part.taken.as_slice())?;
    push_numbers(alloc, out, b"ranks ", part.ranks.as_slice())?;
    push_cycles(alloc, out, part.den, part.walks.as_slice())
}

/// Appends the line of both bounds.
fn push_bounds(
    alloc: Global,
    out: &mut Vec<u8>,
    input: &Input<'_>,
    part: &StepsPart,
) -> Result<(), NoMemory>
    requires { StepsFail (records_of input.now.table.now) (cost_of input.now.table.now) part.now
        (Ok tt) }
    ensures { OnOk result (out.new.items ≡ out.old.items ++ range_text (codes "steps ")
        (lower (records_of input.now.table.now) (cost_of input.now.table.now) part.now)
        (upper (records_of input.now.table.now) (cost_of input.now.table.now) part.now)
        (is_exact part.now)) }
{
    let low = lower(input, part);
    let high = upper(input, part);
    push_range(alloc, out, b"steps ", low, high, is_exact(part))
}

/// The lower bound, by the weights of the walks.
fn lower(input: &Input<'_>, part: &StepsPart) -> Frac
    requires { StepsFail (records_of input.now.table.now) (cost_of input.now.table.now) part.now
        (Ok tt) }
    ensures { result
        ≡ lower (records_of input.now.table.now) (cost_of input.now.table.now) part.now }
{
    let weight = weight_of(part.walks.as_slice());
    lowest_terms(weight, times(part.den, all_spent(input)))
}

/// A denominator times all that was spent.
fn times(den: u64, spent: u128) -> u128
    requires den { 1 ≤ den }
    requires some { 1 ≤ spent }
    requires small { spent ≤ 2 ^ 60 }
    ensures value { result ≡ den * spent }
    ensures positive { 1 ≤ result }
    ensures small { result < 2 ^ 127 }
{
    u128::from(den) * spent
}

/// The upper bound, by what the steps cost that are removed.
fn upper(input: &Input<'_>, part: &StepsPart) -> Frac
    requires { StepsFail (records_of input.now.table.now) (cost_of input.now.table.now) part.now
        (Ok tt) }
    ensures { result
        ≡ upper (records_of input.now.table.now) (cost_of input.now.table.now) part.now }
{
    let spent = all_spent(input);
    lowest_terms(part.cost, spent)
}

/// All that was spent.
fn all_spent(input: &Input<'_>) -> u128
    ensures value { result
        ≡ all_spent (records_of input.now.table.now) (cost_of input.now.table.now) }
    ensures positive { 1 ≤ result }
    ensures small { result ≤ 2 ^ 60 }
    ensures few { records_of input.now.table.now ≤ RECORDS }
{
    let mut total = 0;
    for s in 0..input.n() {
        total += u128::from(input.cost(s, s));
    }
    total
}

/// Whether the weights leave less than one unit of costs.
fn is_exact(part: &StepsPart) -> bool
    ensures { result ≡ is_exact part.now }
{
    let weight = weight_of(part.walks.as_slice());
    match u128::from(part.den).checked_mul(part.cost) {
        Some(whole) => whole < weight + u128::from(part.den),
        None => false,
    }
}

/// Appends a line of each observation of which steps are removed.
fn push_removed(
    alloc: Global,
    out: &mut Vec<u8>,
    n: u32,
    taken: &[Seq<u32>],
) -> Result<(), NoMemory>
    requires { length taken.now ≡ n }
    ensures { OnOk result (out.new.items ≡ out.old.items ++ removed_text n taken.now) }
{
    for s in 0..n {
        push_row(alloc, out, s, row_of(taken, s))?;
    }
    Ok(())
}

/// The list of `s`.
fn row_of(taken: &[Seq<u32>], s: u32) -> &[u32]
    requires { s < length taken.now }
    ensures { result.now ≡ slice_index_or taken.now s [] }
{
    taken[s as usize].as_slice()
}

/// Appends the line of the steps of `s` that are removed, where there are any.
fn push_row(alloc: Global, out: &mut Vec<u8>, s: u32, row: &[u32]) -> Result<(), NoMemory>
    ensures { OnOk result (out.new.items ≡ out.old.items ++ row_text s row.now) }
{
    if row.is_empty() {
        return Ok(());
    }
    push_after::<Ordinal>(alloc, out, b"removed ", s)?;
    push_ordinals(alloc, out, b" to ", row)
}
