//! The clauses of a verdict on the generalized axiom.
ghost use Rattle.std.specs.Prelude.{◌≡◌, ◌<◌, ◌↔◌, IsTrue, length};
ghost use Rattle.rp_clauses.specs.GarpFailure.{GarpFails, OrderingFails, OrdersAt, RanksFail};
ghost use Rattle.rp_clauses.specs.GarpFailure.{RespectsAt};
ghost use Rattle.rp_clauses.specs.Standards.{IsNarrow, StrictUnder, WeakUnder};
ghost use Rattle.rp_table.specs.Cost.{cost_of};
ghost use Rattle.rp_table.specs.Tables.{records_of};

use crate::input::Input;
use crate::standard::Standard;
use crate::walk::check_violation;
use rp_evidence::{Failure, Garp, Reason, fails};

/// Whether no weak step from `s` rises in rank and each strict one falls.
fn respects(input: &Input<'_>, standard: Standard, ranks: &[u32], s: u32) -> bool
    requires narrow { IsNarrow standard }
    requires from { s < records_of input.now.table.now }
    requires ranked { length ranks.now ≡ records_of input.now.table.now }
    ensures { IsTrue result ↔ RespectsAt (records_of input.now.table.now)
        (WeakUnder standard input.now.table.now.levels (cost_of input.now.table.now))
        (StrictUnder standard input.now.table.now.levels (cost_of input.now.table.now))
        ranks.now s }
{
    for t in 0..input.n() {
        let (here, there) = (ranks[s as usize], ranks[t as usize]);
        if input.is_weak(standard, s, t) && here < there {
            return false;
        }
        if input.is_strict(standard, s, t) && here <= there {
            return false;
        }
    }
    true
}

/// Whether each strict step from `s` falls in rank.
fn orders(input: &Input<'_>, standard: Standard, ranks: &[u32], s: u32) -> bool
    requires narrow { IsNarrow standard }
    requires from { s < records_of input.now.table.now }
    requires ranked { length ranks.now ≡ records_of input.now.table.now }
    ensures { IsTrue result ↔ OrdersAt (records_of input.now.table.now)
        (StrictUnder standard input.now.table.now.levels (cost_of input.now.table.now))
        ranks.now s }
{
    for t in 0..input.n() {
        if input.is_strict(standard, s, t) && ranks[s as usize] <= ranks[t as usize] {
            return false;
        }
    }
    true
}

/// Checks ranks that respect the preference.
fn check_respecting_ranks(
    input: &Input<'_>,
    standard: Standard,
    ranks: &[u32],
) -> Result<(), Failure>
    requires narrow { IsNarrow standard }
    ensures { RanksFail (records_of input.now.table.now)
        (WeakUnder standard input.now.table.now.levels (cost_of input.now.table.now))
        (StrictUnder standard input.now.table.now.levels (cost_of input.now.table.now))
        ranks.now result }
{
    let n = input.n();
    if ranks.len() != n as usize {
        return fails(Reason::Shape, 0);
    }
    for s in 0..n {
        if !respects(input, standard, ranks, s) {
            return fails(Reason::Order, s as usize + 1);
        }
    }
    Ok(())
}

/// Checks ranks that order the strict steps.
pub fn check_ordering_ranks(
    input: &Input<'_>,
    standard: Standard,
    ranks: &[u32],
) -> Result<(), Failure>
    requires narrow { IsNarrow standard }
    ensures { OrderingFails (records_of input.now.table.now)
        (StrictUnder standard input.now.table.now.levels (cost_of input.now.table.now))
        ranks.now result }
{
    let n = input.n();
    if ranks.len() != n as usize {
        return fails(Reason::Shape, 0);
    }
    for s in 0..n {
        if !orders(input, standard, ranks, s) {
            return fails(Reason::Order, s as usize + 1);
        }
    }
    Ok(())
}

/// Checks evidence for the generalized axiom.
pub fn check_garp(input: &Input<'_>, standard: Standard, evidence: &Garp) -> Result<(), Failure>
    requires narrow { IsNarrow standard }
    ensures { GarpFails (records_of input.now.table.now)
        (WeakUnder standard input.now.table.now.levels (cost_of input.now.table.now))
        (StrictUnder standard input.now.table.now.levels (cost_of input.now.table.now))
        evidence.now result }
{
    match evidence {
        Garp::Ranks(ranks) => check_respecting_ranks(input, standard, ranks.as_slice()),
        Garp::Cycle(walk) => check_violation(input, standard, walk.as_slice()),
    }
}
