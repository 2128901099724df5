//! The mean of what levels lack of 1, as a fraction over the least common denominator.
ghost use Rattle.std.specs.Prelude.{◌≡◌, ◌≤◌, ◌<◌, ◌-◌, ◌*◌, ◌/◌, ◌^◌, ℕ, IfNone, IfSome, Ok, slice_index};
ghost use Rattle.rp_check_levels.specs.LevelsFailure.{LevelsFail};
ghost use Rattle.rp_fit.specs.LevelsEvidence.{power_of};
ghost use Rattle.rp_fit_report.specs.MeanLack.{common_den, lack_of, least_multiple, mean_of};
ghost use Rattle.rp_fit_report.specs.MeanLack.{parts_in};
ghost use Rattle.rp_limits.specs.declared.table.TheConstants.{RECORDS};
ghost use Rattle.rp_num.specs.Fraction.{FitsTerm};
ghost use Rattle.rp_print.specs.LowestTerms.{lowest_terms};
ghost use Rattle.rp_table.specs.Cost.{cost_of};
ghost use Rattle.rp_table.specs.Tables.{records_of};

use crate::levels::place_at;
use rp_clauses::input::Input;
use rp_fit::{Lack, LevelsPart};
use rp_num::{FRACTION_WIDTH, Frac};
use rp_print::lowest_terms;

/// The least common denominator of what the levels lack, where its product with the number of observations is within
/// the width of fractions.
pub(crate) fn common_den(input: &Input<'_>, part: &LevelsPart) -> Option<u128>
    requires { LevelsFail (records_of input.now.table.now) (cost_of input.now.table.now) part.now
        (Ok tt) }
    ensures value { IfSome result (λ den. den ≡ common_den (records_of input.now.table.now)
        (lack_of (cost_of input.now.table.now) part.now)) }
    ensures positive { IfSome result (λ den. 1 ≤ den) }
    ensures fits { IfSome result (λ den. den * records_of input.now.table.now < 2 ^ 127) }
    ensures none { IfNone result (2 ^ 127 ≤ common_den (records_of input.now.table.now)
        (lack_of (cost_of input.now.table.now) part.now) * records_of input.now.table.now) }
{
    each_spends(input);
    let mut den = 1;
    for s in 0..input.n() {
        match grown(den, lack_of(input, part, s).den(), input.n()) {
            Some(multiple) => den = multiple,
            None => return None,
        }
    }
    Some(den)
}

/// At each observation something was spent.
fn each_spends(input: &Input<'_>)
    ensures { (s : ℕ) → s < records_of input.now.table.now
        → 1 ≤ cost_of input.now.table.now s s }
{
    let _same = Input::new(input.table, input.costs);
}

/// The least common multiple of two numbers, where its product with the number of observations is within the width of
/// fractions.
fn grown(den: u128, other: u128, n: u32) -> Option<u128>
    requires den { 1 ≤ den }
    requires other { 1 ≤ other }
    requires den_fits { FitsTerm den }
    requires other_fits { FitsTerm other }
    requires some { 1 ≤ n }
    ensures value { IfSome result (λ multiple. multiple ≡ least_multiple den other) }
    ensures positive { IfSome result (λ multiple. 1 ≤ multiple) }
    ensures fits { IfSome result (λ multiple. multiple * n < 2 ^ 127) }
    ensures none { IfNone result (2 ^ 127 ≤ least_multiple den other * n) }
{
    match den.checked_mul(lowest_terms(den, other).den()) {
        Some(multiple) => within(multiple, n),
        None => None,
    }
}

/// A number, where its product with the number of observations is within the width of fractions.
fn within(multiple: u128, n: u32) -> Option<u128>
    ensures value { IfSome result (λ m. m ≡ multiple) }
    ensures fits { IfSome result (λ m. m * n < 2 ^ 127) }
    ensures none { IfNone result (2 ^ 127 ≤ multiple * n) }
{
    match multiple.checked_mul(u128::from(n)) {
        Some(parts) if parts <= FRACTION_WIDTH => Some(multiple),
        _ => None,
    }
}

/// The mean of what the levels lack, by their least common denominator.
pub(crate) fn mean_over(input: &Input<'_>, part: &LevelsPart, den: u128) -> Frac
    requires accepted { LevelsFail (records_of input.now.table.now) (cost_of input.now.table.now)
        part.now (Ok tt) }
    requires common { den ≡ common_den (records_of input.now.table.now)
        (lack_of (cost_of input.now.table.now) part.now) }
    requires positive { 1 ≤ den }
    requires fits { den * records_of input.now.table.now < 2 ^ 127 }
    ensures { result ≡ mean_of (records_of input.now.table.now)
        (lack_of (cost_of input.now.table.now) part.now) }
{
    let mut sum = 0;
    for s in 0..input.n() {
        sum += parts_in(lack_of(input, part, s), den);
    }
    lowest_terms(sum, den * u128::from(input.n()))
}

/// A fraction that is at most 1, in parts of a denominator.
fn parts_in(fraction: Frac, den: u128) -> u128
    requires { fraction.num ≤ fraction.den }
    ensures value { result ≡ parts_in den fraction }
    ensures small { result ≤ den }
{
    fraction.num() * (den / fraction.den())
}

/// What the level of `s` lacks of 1, to the power of the index.
fn lack_of(input: &Input<'_>, part: &LevelsPart, s: u32) -> Frac
    requires accepted { LevelsFail (records_of input.now.table.now) (cost_of input.now.table.now)
        part.now (Ok tt) }
    requires observed { s < records_of input.now.table.now }
    ensures value { result ≡ lack_of (cost_of input.now.table.now) part.now s }
    ensures part { result.num ≤ result.den }
{
    let spent = input.cost(s, s);
    let less = spent - level_cost(input, part, s);
    part_of(to_power(part.lack, less), to_power(part.lack, spent))
}

/// What the bundle costs at the prices of `s` that its level is at.
fn level_cost(input: &Input<'_>, part: &LevelsPart, s: u32) -> u64
    requires accepted { LevelsFail (records_of input.now.table.now) (cost_of input.now.table.now)
        part.now (Ok tt) }
    requires observed { s < records_of input.now.table.now }
    ensures value { result ≡ cost_of input.now.table.now s (slice_index part.now.at s) }
    ensures part { result ≤ cost_of input.now.table.now s s }
{
    input.cost(s, place_at(input, part, s))
}

/// A number to the power of the index.
fn to_power(lack: Lack, number: u64) -> u128
    requires { number < 2 ^ 51 }
    ensures value { result ≡ number ^ power_of lack }
    ensures small { result < 2 ^ 102 }
{
    let number = u128::from(number);
    match lack {
        Lack::Mean => number,
        Lack::Squares => number * number,
    }
}

/// A part of a number, in lowest terms.
fn part_of(part: u128, whole: u128) -> Frac
    requires some { 1 ≤ whole }
    requires part { part ≤ whole }
    requires fits { FitsTerm whole }
    ensures value { result ≡ lowest_terms part whole }
    ensures part { result.num ≤ result.den }
{
    lowest_terms(part, whole)
}
