//! Which ordered pairs of observations violate which axiom.
ghost use Rattle.std.specs.Prelude.{◌≢◌, ◌<◌, ◌↔◌, IsTrue};
ghost use Rattle.rp_check_fit.specs.Axioms.{IsPairOf};
ghost use Rattle.rp_evidence.specs.Input.{input_of_table};
ghost use Rattle.rp_evidence.specs.Preference.{IsWeak};
ghost use Rattle.rp_evidence.specs.Reached.{IsWeakClosureOf};
ghost use Rattle.rp_evidence.specs.Walk.{Reaches};
ghost use Rattle.rp_fit.specs.Violations.{IsGarpPair, IsSarpPair, IsWarpPair, IsWeakGarpPair};
ghost use Rattle.rp_fit.specs.Violations.{SameBundle};
ghost use Rattle.rp_table.specs.Cost.{cost_of};
ghost use Rattle.rp_table.specs.Tables.{records_of};

use rp_check_walks::{is_strict, is_weak};
use rp_clauses::closure::Reachability;
use rp_clauses::input::Input;
use rp_limits::table::RECORDS;

/// An axiom of revealed preference of which violating pairs are counted.
#[derive(Clone, Copy)]
pub(crate) enum Axiom {
    Garp,
    WeakGarp,
    Warp,
    Sarp,
}

/// Whether the pair violates the axiom.
pub(crate) fn is_pair(
    input: &Input<'_>,
    reached: &Reachability,
    which: Axiom,
    s: u32,
    t: u32,
) -> bool
    requires closure { IsWeakClosureOf reached.now (input_of_table input.now.table.now) }
    requires first { s < records_of input.now.table.now }
    requires second { t < records_of input.now.table.now }
    ensures { IsTrue result ↔ IsPairOf (input_of_table input.now.table.now) which s t }
{
    match which {
        Axiom::Garp => is_garp_pair(input, reached, s, t),
        Axiom::WeakGarp => is_weak_garp_pair(input, s, t),
        Axiom::Warp => is_warp_pair(input, s, t),
        Axiom::Sarp => is_sarp_pair(input, reached, s, t),
    }
}

/// Whether the pair violates GARP.
fn is_garp_pair(input: &Input<'_>, reached: &Reachability, s: u32, t: u32) -> bool
    requires closure { IsWeakClosureOf reached.now (input_of_table input.now.table.now) }
    requires first { s < records_of input.now.table.now }
    requires second { t < records_of input.now.table.now }
    ensures { IsTrue result ↔ IsGarpPair (input_of_table input.now.table.now) s t }
{
    s != t && reaches(input, reached, s, t) && is_strict(input, t, s)
}

/// Whether the pair violates the weak form of GARP.
fn is_weak_garp_pair(input: &Input<'_>, s: u32, t: u32) -> bool
    requires first { s < records_of input.now.table.now }
    requires second { t < records_of input.now.table.now }
    ensures { IsTrue result ↔ IsWeakGarpPair (input_of_table input.now.table.now) s t }
{
    s != t && is_weak(input, s, t) && is_strict(input, t, s)
}

/// Whether the pair violates WARP.
fn is_warp_pair(input: &Input<'_>, s: u32, t: u32) -> bool
    requires first { s < records_of input.now.table.now }
    requires second { t < records_of input.now.table.now }
    ensures { IsTrue result ↔ IsWarpPair (input_of_table input.now.table.now) s t }
{
    if s == t {
        return false;
    }
    if !is_weak(input, s, t) {
        return false;
    }
    is_weak_to_other(input, s, t)
}

/// Whether the pair violates SARP.
fn is_sarp_pair(input: &Input<'_>, reached: &Reachability, s: u32, t: u32) -> bool
    requires closure { IsWeakClosureOf reached.now (input_of_table input.now.table.now) }
    requires first { s < records_of input.now.table.now }
    requires second { t < records_of input.now.table.now }
    ensures { IsTrue result ↔ IsSarpPair (input_of_table input.now.table.now) s t }
{
    if s == t {
        return false;
    }
    if !reaches(input, reached, s, t) {
        return false;
    }
    is_weak_to_other(input, s, t)
}

/// Whether `t` is weakly preferred to `s`, and the bundles differ.
fn is_weak_to_other(input: &Input<'_>, s: u32, t: u32) -> bool
    requires first { s < records_of input.now.table.now }
    requires second { t < records_of input.now.table.now }
    ensures { IsTrue result ↔ (IsWeak (cost_of input.now.table.now) t s
        × (¬ SameBundle (input_of_table input.now.table.now) s t)) }
{
    if !is_weak(input, t, s) {
        return false;
    }
    !same_bundle(input, s, t)
}

/// Whether a walk of weak steps leads from an observation to another.
fn reaches(input: &Input<'_>, reached: &Reachability, s: u32, t: u32) -> bool
    requires closure { IsWeakClosureOf reached.now (input_of_table input.now.table.now) }
    requires first { s < records_of input.now.table.now }
    requires second { t < records_of input.now.table.now }
    requires differ { s ≢ t }
    ensures { IsTrue result ↔ Reaches (records_of input.now.table.now)
        (IsWeak (cost_of input.now.table.now)) s t }
{
    let n = input.n();
    prove!(n <= RECORDS);
    reached.equals_or_reaches(s, t)
}

/// Whether two bundles are the same.
fn same_bundle(input: &Input<'_>, s: u32, t: u32) -> bool
    requires first { s < records_of input.now.table.now }
    requires second { t < records_of input.now.table.now }
    ensures { IsTrue result ↔ SameBundle (input_of_table input.now.table.now) s t }
{
    let table = input.table;
    for g in 0..table.goods() {
        if table.quantity(s, g) != table.quantity(t, g) {
            return false;
        }
    }
    true
}
