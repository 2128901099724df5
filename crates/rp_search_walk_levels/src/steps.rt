//! What the steps between observations add, and the ratios of closed walks.
ghost use Rattle.std.specs.Prelude.{◌<◌};
ghost use Rattle.rp_table.specs.Tables.{records_of};

use crate::logarithm::logarithm;
use rp_clauses::input::Input;
use rp_num::NoMemory;
use std::alloc::Global;

/// A sum over the steps of a walk, and what the walk counts.
#[derive(Clone, Copy)]
pub(crate) struct Ratio {
    pub(crate) num: i128,
    pub(crate) den: i64,
}

impl Ratio {
    /// Whether this ratio is below another.
    pub(crate) fn is_below(&self, other: &Ratio) -> bool {
        self.num.saturating_mul(i128::from(other.den))
            < other.num.saturating_mul(i128::from(self.den))
    }
}

/// For each two observations what the step from the first to the second adds to a sum, and for each one what a step from
/// it counts.
#[derive(Drop)]
pub(crate) struct Steps {
    rows: Vec<Vec<i64>>,
    counts: Vec<i64>,
}

/// A number of observations. There are at most 512, so none is lost.
pub(crate) fn narrow(count: usize) -> u32 {
    u32::try_from(count).unwrap_or(u32::MAX)
}

/// The entry at a place, or 0 past the end.
fn entry(row: &[i64], place: u32) -> i64 {
    match row.get(place as usize) {
        Some(number) => *number,
        None => 0,
    }
}

/// A cost as a signed number.
fn signed(cost: u64) -> i64 {
    i64::try_from(cost).unwrap_or(i64::MAX)
}

/// What the bundles cost at the prices of `s`.
fn costs_from(alloc: Global, input: &Input<'_>, s: u32) -> Result<Vec<i64>, NoMemory>
    requires { s < records_of input.now.table.now }
{
    let mut row = Vec::new(alloc);
    for t in 0..input.n() {
        row.push(signed(input.cost(s, t)))?;
    }
    Ok(row)
}

/// The logarithms of the parts of what was spent at `s` that the bundles cost.
fn logarithms_from(alloc: Global, input: &Input<'_>, s: u32) -> Result<Vec<i64>, NoMemory>
    requires { s < records_of input.now.table.now }
{
    let spent = logarithm(input.cost(s, s));
    let mut row = Vec::new(alloc);
    for t in 0..input.n() {
        row.push(logarithm(input.cost(s, t)).saturating_sub(spent))?;
    }
    Ok(row)
}

impl Steps {
    /// A step adds what the next bundle costs, and counts what was spent.
    pub(crate) fn by_costs(alloc: Global, input: &Input<'_>) -> Result<Steps, NoMemory> {
        let mut rows = Vec::new(alloc);
        let mut counts = Vec::new(alloc);
        for s in 0..input.n() {
            rows.push(costs_from(alloc, input, s)?)?;
            counts.push(signed(input.cost(s, s)))?;
        }
        Ok(Steps { rows, counts })
    }

    /// A step adds the logarithm of the part of what was spent that the next bundle costs, and counts 1.
    pub(crate) fn by_logarithms(alloc: Global, input: &Input<'_>) -> Result<Steps, NoMemory> {
        let mut rows = Vec::new(alloc);
        let mut counts = Vec::new(alloc);
        for s in 0..input.n() {
            rows.push(logarithms_from(alloc, input, s)?)?;
            counts.push(1)?;
        }
        Ok(Steps { rows, counts })
    }

    /// How many observations there are.
    pub(crate) fn count(&self) -> u32 {
        narrow(self.rows.len())
    }

    /// What the steps from `s` add.
    pub(crate) fn row(&self, s: u32) -> &[i64] {
        match self.rows.get(s as usize) {
            Some(row) => row.as_slice(),
            None => &[],
        }
    }

    /// What a step from `s` counts.
    pub(crate) fn counted(&self, s: u32) -> i64 {
        entry(self.counts.as_slice(), s)
    }

    /// The sum over the steps of a walk, and what it counts.
    pub(crate) fn ratio_of(&self, walk: &[u32]) -> Ratio {
        let mut ratio = Ratio { num: 0, den: 0 };
        for k in 1..walk.len() {
            let (s, t) = (walk[k - 1], walk[k]);
            ratio.num = ratio.num.saturating_add(i128::from(entry(self.row(s), t)));
            ratio.den = ratio.den.saturating_add(self.counted(s));
        }
        ratio
    }
}
