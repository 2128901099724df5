//! What the weights of walks may load, and how much.
ghost use Rattle.std.specs.Prelude.{◌≡◌, ◌≤◌, ◌<◌, ◌*◌, ◌/◌, ◌^◌};
ghost use Rattle.rp_check_levels.specs.Loads.{goes_as_dear, limit, loads};
ghost use Rattle.rp_evidence.specs.Preference.{IsStrict};
ghost use Rattle.rp_table.specs.Cost.{cost_of};
ghost use Rattle.rp_table.specs.Tables.{records_of};

use rp_clauses::input::Input;

/// What the weights of the walks may load: each strict step up to its cost, or each level up to what it lacks of 1, or
/// up to the square of that.
#[derive(Clone, Copy)]
pub enum Measure {
    Steps,
    Levels,
    SquaredLevels,
}

/// What a level lacks of 1 is rounded down to so many parts of 1.
const PARTS: u128 = 1 << 40;

/// Whether the step from `a` to `b` loads the step from `s` to `t`, or the level of `s` by the bundle of `t`.
pub(crate) fn loads(input: &Input<'_>, measure: Measure, s: u32, t: u32, a: u32, b: u32) -> bool
    requires from { s < records_of input.now.table.now }
    requires to { t < records_of input.now.table.now }
    requires end { b < records_of input.now.table.now }
    ensures { result ≡ loads measure (cost_of input.now.table.now) s t a b }
{
    match measure {
        Measure::Steps => a == s && b == t,
        Measure::Levels => is_as_dear(input, s, t, a, b),
        Measure::SquaredLevels => is_as_dear(input, s, t, a, b),
    }
}

/// Whether the step from `a` to `b` begins at `s`, where the bundle of `b` costs as much as that of `t` or more.
fn is_as_dear(input: &Input<'_>, s: u32, t: u32, a: u32, b: u32) -> bool
    requires from { s < records_of input.now.table.now }
    requires to { t < records_of input.now.table.now }
    requires end { b < records_of input.now.table.now }
    ensures { result ≡ goes_as_dear (cost_of input.now.table.now) s t a b }
{
    a == s && input.cost(s, t) <= input.cost(s, b)
}

/// How much the weights may load a strict step, or a level, over the denominator.
pub fn limit(input: &Input<'_>, measure: Measure, s: u32, t: u32) -> u128
    requires from { s < records_of input.now.table.now }
    requires to { t < records_of input.now.table.now }
    requires strict { IsStrict (cost_of input.now.table.now) s t }
    ensures value { result ≡ limit measure (cost_of input.now.table.now) s t }
    ensures small { result ≤ 2 ^ 51 }
{
    let spent = input.cost(s, s);
    let less = spent - input.cost(s, t);
    match measure {
        Measure::Steps => u128::from(less),
        Measure::Levels => lack_floor(less, spent),
        Measure::SquaredLevels => squared_floor(less, spent),
    }
}

/// The part `less / spent`, in units of 2^-40, rounded down.
fn lack_floor(less: u64, spent: u64) -> u128
    requires some { 1 ≤ spent }
    requires part { less ≤ spent }
    ensures value { result ≡ (2 ^ 40 * less ^ 1) / spent ^ 1 }
    ensures small { result ≤ 2 ^ 40 }
{
    PARTS * u128::from(less) / u128::from(spent)
}

/// The square of the part `less / spent`, in units of 2^-40, rounded down: divided by `spent` twice, so that no product
/// passes 128 bits.
fn squared_floor(less: u64, spent: u64) -> u128
    requires some { 1 ≤ spent }
    requires part { less ≤ spent }
    requires narrow { spent < 2 ^ 51 }
    ensures value { result ≡ (2 ^ 40 * less ^ 2) / spent ^ 2 }
    ensures small { result ≤ 2 ^ 40 }
{
    let by = u128::from(spent);
    let rest = square_of(less) % by;
    (PARTS * square_over(less, spent) + PARTS * rest / by) / by
}

/// The square of a number over one that is not less, rounded down.
fn square_over(less: u64, spent: u64) -> u128
    requires some { 1 ≤ spent }
    requires part { less ≤ spent }
    requires narrow { spent < 2 ^ 51 }
    ensures value { result ≡ less * less / spent }
    ensures small { result ≤ 2 ^ 51 }
{
    square_of(less) / u128::from(spent)
}

/// The square of a number.
fn square_of(less: u64) -> u128
    requires { less < 2 ^ 51 }
    ensures value { result ≡ less * less }
    ensures small { result < 2 ^ 102 }
{
    u128::from(less) * u128::from(less)
}
