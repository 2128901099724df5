//! The lines of levels of the observations' own.
ghost use Rattle.std.specs.Prelude.{◌≡◌, ◌++◌, ◌≤◌, ◌<◌, ◌*◌, ◌^◌, IfOk, Ok, OnOk, codes, slice_index};
ghost use Rattle.rp_num.specs.Below.{listed};
ghost use Rattle.rp_check_levels.specs.LevelsFailure.{IsLevelAt, LevelsFail, measure_of};
ghost use Rattle.rp_fit.specs.WeightedWalks.{weight_of_all};
ghost use Rattle.rp_print.specs.ListText.{fractions_text, line_of};
ghost use Rattle.rp_limits.specs.declared.table.TheConstants.{RECORDS};
ghost use Rattle.rp_table.specs.Cost.{cost_of};
ghost use Rattle.rp_table.specs.Tables.{records_of};
ghost use Rattle.rp_fit_report.specs.LevelsText.{exact_text, is_exact, lack_at, lack_total};
ghost use Rattle.rp_fit_report.specs.LevelsText.{level_of, levels_text, lower, measure_text};
ghost use Rattle.rp_fit_report.specs.LevelsText.{range_text, rounded_up, upper};

use crate::cycles::push_cycles;
use crate::mean::{common_den, mean_over};
use rp_check_levels::{Measure, limit};
use rp_clauses::input::Input;
use rp_fit::{Lack, LevelsPart, WeightedWalk};
use rp_num::{Frac, NoMemory};
use rp_print::{Fraction, lowest_terms, push_after, push_fractions, push_line, push_numbers};
use std::alloc::Global;

/// So many parts of 1 what a level lacks is in: 2^40.
const PARTS: u128 = 1_099_511_627_776;

/// Appends the lines of levels that the checker accepts.
pub fn push_levels(
    alloc: Global,
    out: &mut Vec<u8>,
    input: &Input<'_>,
    part: &LevelsPart,
) -> Result<(), NoMemory>
    requires { LevelsFail (records_of input.now.table.now) (cost_of input.now.table.now) part.now
        (Ok tt) }
    ensures { OnOk result (out.new.items ≡ out.old.items
        ++ levels_text (records_of input.now.table.now) (cost_of input.now.table.now) part.now) }
{
    push_bounds(alloc, out, input, part)?;
    push_at(alloc, out, input, part)?;
    push_numbers(alloc, out, b"ranks ", part.ranks.as_slice())?;
    push_cycles(alloc, out, part.den, part.walks.as_slice())
}

/// Appends the line of both bounds.
fn push_bounds(
    alloc: Global,
    out: &mut Vec<u8>,
    input: &Input<'_>,
    part: &LevelsPart,
) -> Result<(), NoMemory>
    requires { LevelsFail (records_of input.now.table.now) (cost_of input.now.table.now) part.now
        (Ok tt) }
    ensures { OnOk result (out.new.items ≡ out.old.items ++ range_text (measure_text part.now.lack)
        (lower (records_of input.now.table.now) part.now)
        (upper (records_of input.now.table.now) (cost_of input.now.table.now) part.now)
        (is_exact (records_of input.now.table.now) (cost_of input.now.table.now) part.now)) }
{
    let low = lower(input, part);
    let high = upper(input, part);
    let exact = is_exact(input, part);
    push_range(alloc, out, measure_name(part.lack), low, high, exact)
}

/// Appends a line of two bounds after a word.
pub(crate) fn push_range(
    alloc: Global,
    out: &mut Vec<u8>,
    word: &[u8],
    low: Frac,
    high: Frac,
    exact: bool,
) -> Result<(), NoMemory>
    ensures { OnOk result (out.new.items ≡ out.old.items ++ range_text word.now low high exact) }
{
    push_after::<Fraction>(alloc, out, word, low)?;
    push_after::<Fraction>(alloc, out, b" to ", high)?;
    push_line(out, exact_word(exact))
}

/// What a line ends with where its bounds meet.
fn exact_word(exact: bool) -> &'static [u8]
    ensures { result.now ≡ exact_text exact }
{
    if exact { b" exact" } else { b"" }
}

/// The first words of the line of bounds.
fn measure_name(lack: Lack) -> &'static [u8]
    ensures { result.now ≡ measure_text lack }
{
    match lack {
        Lack::Mean => b"levels mean ",
        Lack::Squares => b"levels squares ",
    }
}

/// The lower bound, by the weights of the walks.
fn lower(input: &Input<'_>, part: &LevelsPart) -> Frac
    requires { LevelsFail (records_of input.now.table.now) (cost_of input.now.table.now) part.now
        (Ok tt) }
    ensures { result ≡ lower (records_of input.now.table.now) part.now }
{
    let weight = weight_of(part.walks.as_slice());
    lowest_terms(weight, parts_over(part.den, input.n()))
}

/// A denominator times 2^40 times a number of observations.
fn parts_over(den: u64, n: u32) -> u128
    requires den { 1 ≤ den }
    requires some { 1 ≤ n }
    requires few { n ≤ RECORDS }
    ensures value { result ≡ den * 2 ^ 40 * n }
    ensures positive { 1 ≤ result }
    ensures small { result < 2 ^ 127 }
{
    u128::from(den) * PARTS * u128::from(n)
}

/// The upper bound: the mean of what the levels lack of 1, rounded up only where its terms are too wide.
fn upper(input: &Input<'_>, part: &LevelsPart) -> Frac
    requires { LevelsFail (records_of input.now.table.now) (cost_of input.now.table.now) part.now
        (Ok tt) }
    ensures { result
        ≡ upper (records_of input.now.table.now) (cost_of input.now.table.now) part.now }
{
    match common_den(input, part) {
        Some(den) => mean_over(input, part, den),
        None => rounded_up(input, part),
    }
}

/// An upper bound, rounded up for each observation.
fn rounded_up(input: &Input<'_>, part: &LevelsPart) -> Frac
    requires { LevelsFail (records_of input.now.table.now) (cost_of input.now.table.now) part.now
        (Ok tt) }
    ensures { result
        ≡ rounded_up (records_of input.now.table.now) (cost_of input.now.table.now) part.now }
{
    let total = lack_total(input, part, 1);
    lowest_terms(total, parts_of(input.n()))
}

/// 2^40 times a number of observations.
fn parts_of(n: u32) -> u128
    requires some { 1 ≤ n }
    requires few { n ≤ RECORDS }
    ensures value { result ≡ 2 ^ 40 * n }
    ensures positive { 1 ≤ result }
    ensures small { result < 2 ^ 127 }
{
    PARTS * u128::from(n)
}

/// Whether the weights leave less than 2^-40 for each observation.
fn is_exact(input: &Input<'_>, part: &LevelsPart) -> bool
    requires { LevelsFail (records_of input.now.table.now) (cost_of input.now.table.now) part.now
        (Ok tt) }
    ensures { result
        ≡ is_exact (records_of input.now.table.now) (cost_of input.now.table.now) part.now }
{
    let total = lack_total(input, part, 0);
    let weight = weight_of(part.walks.as_slice());
    times(part.den, total) < weight + u128::from(part.den)
}

/// A denominator times a sum of what levels lack.
fn times(den: u64, total: u128) -> u128
    requires { total ≤ 2 ^ 61 }
    ensures { result ≡ den * total }
{
    u128::from(den) * total
}

/// What the levels lack of 1, in units of 2^-40, each rounded down, and so many more for each that is below 1.
fn lack_total(input: &Input<'_>, part: &LevelsPart, more: u128) -> u128
    requires accepted { LevelsFail (records_of input.now.table.now) (cost_of input.now.table.now)
        part.now (Ok tt) }
    requires more { more ≤ 1 }
    ensures value { result ≡ lack_total (records_of input.now.table.now)
        (cost_of input.now.table.now) part.now more }
    ensures small { result ≤ 2 ^ 61 }
{
    let mut total = 0;
    for s in 0..input.n() {
        total += lack_at(input, part, more, s);
    }
    total
}

/// What the level of `s` lacks of 1, in units of 2^-40, rounded down, and so many more where it is below 1.
fn lack_at(input: &Input<'_>, part: &LevelsPart, more: u128, s: u32) -> u128
    requires accepted { LevelsFail (records_of input.now.table.now) (cost_of input.now.table.now)
        part.now (Ok tt) }
    requires more { more ≤ 1 }
    requires observed { s < records_of input.now.table.now }
    ensures value { result ≡ lack_at (cost_of input.now.table.now) (measure_of part.now.lack)
        part.now.at more s }
    ensures small { result ≤ 2 ^ 52 }
{
    let t = place_at(input, part, s);
    if t == s {
        return 0;
    }
    limit(input, measure_of(part.lack), s, t) + more
}

/// The observation at whose bundle the level of `s` is.
pub(crate) fn place_at(input: &Input<'_>, part: &LevelsPart, s: u32) -> u32
    requires accepted { LevelsFail (records_of input.now.table.now) (cost_of input.now.table.now)
        part.now (Ok tt) }
    requires observed { s < records_of input.now.table.now }
    ensures value { result ≡ slice_index part.now.at s }
    ensures level { IsLevelAt (records_of input.now.table.now) (cost_of input.now.table.now)
        part.now.at s }
{
    part.at.as_slice()[s as usize]
}

/// The measure of what levels lack.
fn measure_of(lack: Lack) -> Measure
    ensures { result ≡ measure_of lack }
{
    match lack {
        Lack::Mean => Measure::Levels,
        Lack::Squares => Measure::SquaredLevels,
    }
}

/// The weights of all walks.
pub(crate) fn weight_of(walks: &[WeightedWalk]) -> u128
    ensures value { result ≡ weight_of_all walks.now }
    ensures small { result < 2 ^ 127 }
{
    let mut weight = 0;
    for k in 0..walks.len() {
        weight += u128::from(walks[k].weight);
    }
    weight
}

/// Appends the line of the levels.
fn push_at(
    alloc: Global,
    out: &mut Vec<u8>,
    input: &Input<'_>,
    part: &LevelsPart,
) -> Result<(), NoMemory>
    requires { LevelsFail (records_of input.now.table.now) (cost_of input.now.table.now) part.now
        (Ok tt) }
    ensures { OnOk result (out.new.items ≡ out.old.items ++ line_of (codes "at "
        ++ fractions_text (listed (records_of input.now.table.now)
        (level_of (cost_of input.now.table.now) part.now.at)))) }
{
    let levels = levels_of(alloc, input, part)?;
    push_fractions(alloc, out, b"at ", levels.as_slice())
}

/// The levels of the observations.
fn levels_of(alloc: Global, input: &Input<'_>, part: &LevelsPart) -> Result<Vec<Frac>, NoMemory>
    requires { LevelsFail (records_of input.now.table.now) (cost_of input.now.table.now) part.now
        (Ok tt) }
    ensures { IfOk result (λ levels. levels.items ≡ listed (records_of input.now.table.now)
        (level_of (cost_of input.now.table.now) part.now.at)) }
{
    let mut levels = Vec::new(alloc);
    for s in 0..input.n() {
        levels.push(level_at(input, part, s))?;
    }
    Ok(levels)
}

/// The level of an observation.
fn level_at(input: &Input<'_>, part: &LevelsPart, s: u32) -> Frac
    requires accepted { LevelsFail (records_of input.now.table.now) (cost_of input.now.table.now)
        part.now (Ok tt) }
    requires observed { s < records_of input.now.table.now }
    ensures { result ≡ level_of (cost_of input.now.table.now) part.now.at s }
{
    let t = place_at(input, part, s);
    let cost = input.cost(s, t);
    let spent = input.cost(s, s);
    lowest_terms(u128::from(cost), u128::from(spent))
}
