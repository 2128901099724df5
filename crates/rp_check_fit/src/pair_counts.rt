//! How many pairs of observations violate an axiom.
ghost use Rattle.std.specs.Prelude.{◌<◌, ◌≤◌, ◌↔◌, IsTrue};
ghost use Rattle.rp_check_fit.specs.Axioms.{IsEitherPair, IsPairOf};
ghost use Rattle.rp_evidence.specs.Count.{IsNumberOf};
ghost use Rattle.rp_evidence.specs.Input.{input_of_table};
ghost use Rattle.rp_evidence.specs.Reached.{IsWeakClosureOf};
ghost use Rattle.rp_fit.specs.Violations.{IsInGarpPair, IsNumberOfPairs};
ghost use Rattle.rp_limits.specs.declared.table.TheConstants.{RECORDS};
ghost use Rattle.rp_table.specs.Tables.{records_of};

use crate::pairs::{Axiom, is_pair};
use rp_clauses::closure::Reachability;
use rp_clauses::input::Input;
use rp_limits::table::RECORDS;

/// How many pairs violate the axiom.
pub(crate) fn count_pairs(input: &Input<'_>, reached: &Reachability, which: Axiom) -> u32
    requires { IsWeakClosureOf reached.now (input_of_table input.now.table.now) }
    ensures { IsNumberOfPairs (records_of input.now.table.now)
        (IsPairOf (input_of_table input.now.table.now) which) result }
{
    let n = input.n();
    let mut count = 0;
    for s in 0..n {
        count += count_seconds(input, reached, which, s);
    }
    count
}

/// How many observations are the second of a violating pair whose first is `s`.
fn count_seconds(input: &Input<'_>, reached: &Reachability, which: Axiom, s: u32) -> u32
    requires closure { IsWeakClosureOf reached.now (input_of_table input.now.table.now) }
    requires first { s < records_of input.now.table.now }
    ensures number { IsNumberOf (records_of input.now.table.now)
        (IsPairOf (input_of_table input.now.table.now) which s) result }
    ensures few { result ≤ RECORDS }
{
    let n = input.n();
    prove!(n <= RECORDS);
    let mut count = 0;
    for t in 0..n {
        if is_pair(input, reached, which, s, t) {
            count += 1;
        }
    }
    count
}

/// How many observations are in some pair that violates GARP.
pub(crate) fn count_in_pairs(input: &Input<'_>, reached: &Reachability) -> u32
    requires { IsWeakClosureOf reached.now (input_of_table input.now.table.now) }
    ensures { IsNumberOf (records_of input.now.table.now)
        (IsInGarpPair (input_of_table input.now.table.now)) result }
{
    let mut count = 0;
    for s in 0..input.n() {
        if is_in_pair(input, reached, s) {
            count += 1;
        }
    }
    count
}

/// Whether an observation is in some pair that violates GARP.
fn is_in_pair(input: &Input<'_>, reached: &Reachability, s: u32) -> bool
    requires closure { IsWeakClosureOf reached.now (input_of_table input.now.table.now) }
    requires first { s < records_of input.now.table.now }
    ensures { IsTrue result ↔ IsInGarpPair (input_of_table input.now.table.now) s }
{
    for t in 0..input.n() {
        if is_either_pair(input, reached, s, t) {
            return true;
        }
    }
    false
}

/// Whether two observations, in one order or the other, are a pair that violates GARP.
fn is_either_pair(input: &Input<'_>, reached: &Reachability, s: u32, t: u32) -> bool
    requires closure { IsWeakClosureOf reached.now (input_of_table input.now.table.now) }
    requires first { s < records_of input.now.table.now }
    requires second { t < records_of input.now.table.now }
    ensures { IsTrue result ↔ IsEitherPair (input_of_table input.now.table.now) s t }
{
    is_pair(input, reached, Axiom::Garp, s, t) || is_pair(input, reached, Axiom::Garp, t, s)
}
