//! What the steps of a table are.
ghost use Rattle.std.specs.Prelude.{◌<◌};
ghost use Rattle.rp_table.specs.Tables.{records_of};

use crate::graph::Graph;
use rp_check_walks::{is_strict, is_weak};
use rp_clauses::input::Input;
use rp_num::NoMemory;
use std::alloc::Global;

/// The number of a strict step, and of a weak one that is not strict.
pub(crate) const STRICT: u64 = 2;

/// What the step from `s` to `t` is: 0 where it is not weak, and from an observation to itself.
fn kind(input: &Input<'_>, s: u32, t: u32) -> u64
    requires from { s < records_of input.now.table.now }
    requires to { t < records_of input.now.table.now }
{
    if s == t || !is_weak(input, s, t) {
        return 0;
    }
    if is_strict(input, s, t) { STRICT } else { 1 }
}

/// What the steps from `s` are.
fn row_of_kinds(alloc: Global, input: &Input<'_>, s: u32) -> Result<Vec<u64>, NoMemory>
    requires { s < records_of input.now.table.now }
{
    let mut row = Vec::new(alloc);
    for t in 0..input.n() {
        row.push(kind(input, s, t))?;
    }
    Ok(row)
}

/// What each step is: 2 a strict one, 1 a weak one that is not strict, 0 any other.
pub(crate) fn kinds(alloc: Global, input: &Input<'_>) -> Result<Graph, NoMemory> {
    let mut rows = Vec::new(alloc);
    for s in 0..input.n() {
        rows.push(row_of_kinds(alloc, input, s)?)?;
    }
    Ok(Graph::of(rows))
}
