//! The steps of a table that evidence is sought for.
ghost use Rattle.std.specs.Prelude.{◌<◌};
ghost use Rattle.rp_table.specs.Tables.{records_of};

use crate::graph::Graph;
use rp_check_levels::{Measure, limit};
use rp_clauses::input::Input;
use rp_num::NoMemory;
use std::alloc::Global;

/// What the weights of walks may load the step from `s` to `t`, or the level by it: 0 where the step is not strict.
fn price(input: &Input<'_>, measure: Measure, s: u32, t: u32) -> u64
    requires from { s < records_of input.now.table.now }
    requires to { t < records_of input.now.table.now }
{
    if input.cost(s, t) >= input.cost(s, s) {
        return 0;
    }
    u64::try_from(limit(input, measure, s, t)).unwrap_or(0)
}

/// What the weights of walks may load each step from `s`, or the level by it: 0 where the step is not strict.
fn row_of_prices(
    alloc: Global,
    input: &Input<'_>,
    measure: Measure,
    s: u32,
) -> Result<Vec<u64>, NoMemory>
    requires { s < records_of input.now.table.now }
{
    let mut row = Vec::new(alloc);
    for t in 0..input.n() {
        row.push(price(input, measure, s, t))?;
    }
    Ok(row)
}

/// What the weights of walks may load each strict step, or each level.
pub(crate) fn prices(
    alloc: Global,
    input: &Input<'_>,
    measure: Measure,
) -> Result<Graph, NoMemory> {
    let mut rows = Vec::new(alloc);
    for s in 0..input.n() {
        rows.push(row_of_prices(alloc, input, measure, s)?)?;
    }
    Ok(Graph::of(rows))
}
