//! Tests of steps, closures and shortest walks on tables whose observations have levels of their own.
use crate::closure_texts::rows_of;
use crate::shared::costs_of;
use rp_pref::{Closure, own_strict, own_walk, own_weak};
use rp_table::Costs;
use std::alloc::Global;
use std::process::Abort;
use std::test::Fail;
use tests_inputs::tables::{AT_799, AT_800, AT_ALL, CONTRADICTION, MORE_AND_LESS_AT_ALL};

/// The scale of the costs of two observations, what the first is held to, and how far each is from preferring the
/// other.
fn held_to(rt: &impl Abort, alloc: Global, file: &str) -> Result<(u64, u64, i64, i64), Fail> {
    let costs = costs_of(alloc, file)?;
    assert!(rt; costs.n() == 2);
    Ok((
        costs.scale(),
        costs.own(0),
        costs.gap(0, 1),
        costs.gap(1, 0),
    ))
}

/// The weak steps, or the strict ones, row by row.
fn steps_of(alloc: Global, costs: &Costs, strict: bool) -> Result<String, Fail> {
    let mut rows = String::new(alloc);
    for s in 0..costs.n() {
        if s > 0 {
            rows.push_str(" ")?;
        }
        for t in 0..costs.n() {
            let is_step = if strict {
                own_strict(costs, s, t)
            } else {
                own_weak(costs, s, t)
            };
            rows.push_str(if is_step { "1" } else { "0" })?;
        }
    }
    Ok(rows)
}

/// Which observations reach which, row by row.
fn reached_by_own(alloc: Global, costs: &Costs) -> Result<String, Fail> {
    let closure = Closure::own(alloc, costs)?;
    rows_of(alloc, &closure, costs.n())
}

/// Whether this is a walk of fewest weak steps between two observations; none, where it is empty.
fn is_shortest(
    rt: &impl Abort,
    alloc: Global,
    file: &str,
    s: u32,
    t: u32,
    walk: &[u32],
) -> Result<bool, Fail> {
    let costs = costs_of(alloc, file)?;
    assert!(rt; s < costs.n() && t < costs.n());
    match own_walk(alloc, &costs, s, t)? {
        Some(found) => Ok(found.as_slice() == walk),
        None => Ok(walk.is_empty()),
    }
}

/// A table of two observations, the scale of its costs, what the first is held to, and how far the first is from
/// preferring the second and the second from preferring the first.
type HeldCase = (&'static str, u64, u64, i64, i64);

/// A table, and row by row its weak steps, its strict ones, and which observations reach which.
type ClosureCase = (&'static str, &'static str, &'static str, &'static str);

/// A table, two observations, and a walk of fewest weak steps between them; none, where it is empty.
type WalkCase = (&'static str, u32, u32, &'static [u32]);

/// Asserts what the observations are held to.
fn assert_held(rt: &impl Abort, alloc: Global, cases: &[HeldCase]) -> Result<(), Fail> {
    for (file, scale, own, there, back) in cases {
        let held = held_to(rt, alloc, file)?;
        assert!(rt; held == (*scale, *own, *there, *back), "{file}");
    }
    Ok(())
}

/// Asserts steps and closures.
fn assert_closures(rt: &impl Abort, alloc: Global, cases: &[ClosureCase]) -> Result<(), Fail> {
    for (file, weak, strict, rows) in cases {
        let costs = costs_of(alloc, file)?;
        assert!(rt;
            steps_of(alloc, &costs, false)?.as_str() == *weak,
            "{file}, weakly"
        );
        assert!(rt;
            steps_of(alloc, &costs, true)?.as_str() == *strict,
            "{file}, strictly"
        );
        assert!(rt; reached_by_own(alloc, &costs)?.as_str() == *rows, "{file}");
    }
    Ok(())
}

/// Asserts each walk.
fn assert_walks(rt: &impl Abort, alloc: Global, cases: &[WalkCase]) -> Result<(), Fail> {
    for (file, s, t, walk) in cases {
        assert!(rt;
            is_shortest(rt, alloc, file, *s, *t, walk)?,
            "{file} from {s} to {t}"
        );
    }
    Ok(())
}

const HELD_TO: [HeldCase; 4] = [
    (AT_800, 1000, 4000, 0, -1000),
    (AT_799, 1000, 3995, 5, -1000),
    (AT_ALL, 1000, 5000, -1000, -1000),
    (CONTRADICTION, 1, 5, -1, -1),
];

/// The first observation costs 5 at its own prices and the second 4 at them: 800 thousandths of 5 are just 4.
#[test]
fn what_observations_are_held_to(rt: HostRuntime) -> Result<(), Fail> {
    assert_held(&rt, rt.alloc(), &HELD_TO)
}

const CLOSURES: [ClosureCase; 5] = [
    (AT_800, "01 11", "00 10", "11 11"),
    (AT_799, "00 11", "00 10", "00 11"),
    (AT_ALL, "11 11", "01 10", "11 11"),
    (CONTRADICTION, "11 11", "01 10", "11 11"),
    (MORE_AND_LESS_AT_ALL, "11 01", "01 00", "11 01"),
];

#[test]
fn steps_and_closures_by_own_levels(rt: HostRuntime) -> Result<(), Fail> {
    assert_closures(&rt, rt.alloc(), &CLOSURES)
}

const WALKS: [WalkCase; 6] = [
    (AT_800, 0, 0, &[0, 1, 0]),
    (AT_800, 1, 1, &[1, 1]),
    (AT_799, 0, 0, &[]),
    (AT_799, 0, 1, &[]),
    (AT_799, 1, 0, &[1, 0]),
    (CONTRADICTION, 0, 0, &[0, 0]),
];

#[test]
fn shortest_walks_by_own_levels(rt: HostRuntime) -> Result<(), Fail> {
    assert_walks(&rt, rt.alloc(), &WALKS)
}
