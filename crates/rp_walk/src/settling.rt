//! Least totals over walks, round by round.
ghost use Rattle.std.specs.Prelude.{IfOk};
ghost use Rattle.rp_walk.specs.Outcome.{IsSettled};
ghost use Rattle.rp_walk.specs.Settled.{NoPairBreaks};

use crate::cycle::{cycle_of_pair, cycle_within, first_breaking_pair};
use crate::outcome::Settled;
use crate::round::{Advance, RoundTotals, next_round};
use crate::total::Total;
use rp_num::{NoMemory, Seq};
use std::alloc::Global;

/// The least totals over walks of any length, a closed walk that ends below its start, or the first
/// step whose total passes the width, round by round (Bellman 1958; Ford 1956).
pub fn settle<T: Total>(alloc: Global, total: &T) -> Result<Settled<T::Value>, NoMemory>
    ensures { IfOk result (IsSettled (T.rule total.now) T.fits T.exact) }
{
    match first_breaking_pair(total) {
        Some((s, t)) => cycle_of_pair(alloc, total, s, t),
        None => settle_by_rounds(alloc, total),
    }
}

/// Settles the totals round by round, where no pair breaks.
fn settle_by_rounds<T: Total>(alloc: Global, total: &T) -> Result<Settled<T::Value>, NoMemory>
    requires { NoPairBreaks (T.rule total.now) }
    ensures { IfOk result (IsSettled (T.rule total.now) T.fits T.exact) }
{
    let n = total.n();
    let mut round = RoundTotals::at_zero(alloc, n, total.start())?;
    let mut history = Vec::new(alloc);
    for steps in 0..n {
        match next_round(alloc, total, &round)? {
            Advance::TooWide { from, to } => return Ok(Settled::Wide { steps, from, to }),
            Advance::Next(next) => {
                match next.first_improved(n) {
                    None => return Ok(Settled::Values(Seq::from_vec(next.values))),
                    Some(_) => {}
                }
                history.extend_from_slice(next.from.as_slice())?;
                round = next;
            }
        }
    }
    match round.first_improved(n) {
        Some(end) => cycle_within(alloc, total, history.as_slice(), end),
        None => unreachable!(),
    }
}
