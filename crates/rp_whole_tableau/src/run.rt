//! The run, with a limit on its pivots.
use crate::choice::{entering_column, leaving_row};
use crate::readout::pair_of;
use crate::tableau::Tableau;
use rp_farkas::{Lp, Pair};
use rp_num::NoMemory;
use std::alloc::Global;

/// The most pivots that a run makes.
pub const MOST_PIVOTS: u32 = 8192;

/// The pair at which the run of the program ends, in lowest terms. None where an entry reaches 2^127, where a number of
/// the pair passes the width of evidence, where the program has no bound, and after the most pivots.
pub fn run<P: Lp>(alloc: Global, p: &P) -> Result<Option<Pair>, NoMemory> {
    let mut t = Tableau::first(alloc, p)?;
    for _ in 0..MOST_PIVOTS {
        let Some(column) = entering_column(&t) else {
            return pair_of(alloc, &t, p.cols());
        };
        let entries = t.column(alloc, column)?;
        let Some(row) = leaving_row(&t, entries.as_slice()) else {
            return Ok(None);
        };
        if !t.pivot(alloc, row, entries.as_slice())? {
            return Ok(None);
        }
        t.enter(row, column);
    }
    Ok(None)
}
