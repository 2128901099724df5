//! Tests of closures and of shortest walks at one level for all observations.
use crate::closure_texts::{chain, counts_of, rows_of};
use crate::shared::costs_of;
use rp_evidence::Level;
use rp_pref::{Closure, Steps, walk_between};
use std::alloc::Global;
use std::process::Abort;
use std::test::Fail;
use tests_inputs::tables::{ALONE, APART, CONTRADICTION, EQUAL, MORE_AND_LESS, NINE_TENTHS, THREE};

/// Which observations reach which at the level num/den, row by row, and how many each counts.
fn reached_at(
    rt: &impl Abort,
    alloc: Global,
    file: &str,
    num: u64,
    den: u64,
    steps: Steps,
) -> Result<(String, String), Fail> {
    assert!(rt; 0 < num && num <= den);
    let costs = costs_of(alloc, file)?;
    let closure = Closure::of(alloc, &costs, Level { num, den }, steps)?;
    let n = costs.n();
    Ok((rows_of(alloc, &closure, n)?, counts_of(alloc, &closure, n)?))
}

/// Whether this is a walk of fewest steps at the level num/den between two observations; none, where it is empty.
fn is_shortest(
    rt: &impl Abort,
    alloc: Global,
    file: &str,
    num: u64,
    den: u64,
    steps: Steps,
    ends: (u32, u32),
    walk: &[u32],
) -> Result<bool, Fail> {
    let costs = costs_of(alloc, file)?;
    let (s, t) = ends;
    assert!(rt; 0 < num && num <= den && s < costs.n() && t < costs.n());
    match walk_between(alloc, &costs, Level { num, den }, steps, s, t)? {
        Some(found) => Ok(found.as_slice() == walk),
        None => Ok(walk.is_empty()),
    }
}

/// A table, the numerator and the denominator of a level, a kind of steps, which observations reach which, row by row,
/// and how many each counts.
type ClosureCase = (&'static str, u64, u64, Steps, &'static str, &'static str);

/// A table, the numerator and the denominator of a level, a kind of steps, two observations, and a walk of fewest steps
/// between them; none, where it is empty.
type WalkCase = (&'static str, u64, u64, Steps, (u32, u32), &'static [u32]);

/// Asserts what each closure has.
fn assert_closures(rt: &impl Abort, alloc: Global, cases: &[ClosureCase]) -> Result<(), Fail> {
    for (file, num, den, steps, rows, counts) in cases {
        let (reached, counted) = reached_at(rt, alloc, file, *num, *den, *steps)?;
        assert!(rt; reached.as_str() == *rows, "{file} at {num}/{den}");
        assert!(rt; counted.as_str() == *counts, "{file} at {num}/{den}");
    }
    Ok(())
}

/// Asserts each walk.
fn assert_walks(rt: &impl Abort, alloc: Global, cases: &[WalkCase]) -> Result<(), Fail> {
    for (file, num, den, steps, ends, walk) in cases {
        let found = is_shortest(rt, alloc, file, *num, *den, *steps, *ends, walk)?;
        assert!(rt; found, "{file} at {num}/{den}");
    }
    Ok(())
}

const CLOSURES: [ClosureCase; 16] = [
    (CONTRADICTION, 1, 1, Steps::Weak, "11 11", "22"),
    (CONTRADICTION, 1, 1, Steps::Strict, "11 11", "22"),
    (CONTRADICTION, 4, 5, Steps::Weak, "11 11", "22"),
    (CONTRADICTION, 4, 5, Steps::Strict, "00 00", "11"),
    (APART, 1, 1, Steps::Weak, "10 01", "11"),
    (MORE_AND_LESS, 1, 1, Steps::Weak, "11 01", "21"),
    (MORE_AND_LESS, 1, 1, Steps::Strict, "01 00", "21"),
    (EQUAL, 1, 1, Steps::Weak, "11 11", "22"),
    (EQUAL, 1, 1, Steps::Strict, "00 00", "11"),
    (NINE_TENTHS, 9, 10, Steps::Weak, "11 11", "22"),
    (NINE_TENTHS, 9, 10, Steps::Strict, "01 00", "21"),
    (THREE, 1, 1, Steps::Strict, "111 111 111", "333"),
    (THREE, 1, 2, Steps::Weak, "111 111 111", "333"),
    (THREE, 1, 2, Steps::Strict, "000 000 000", "111"),
    (ALONE, 1, 1, Steps::Weak, "1", "1"),
    (ALONE, 1, 1, Steps::Strict, "0", "1"),
];

#[test]
fn closures_at_several_levels(rt: HostRuntime) -> Result<(), Fail> {
    assert_closures(&rt, rt.alloc(), &CLOSURES)
}

const WALKS: [WalkCase; 11] = [
    (THREE, 1, 1, Steps::Weak, (0, 0), &[0, 0]),
    (THREE, 1, 1, Steps::Strict, (0, 0), &[0, 1, 2, 0]),
    (THREE, 1, 1, Steps::Weak, (0, 2), &[0, 1, 2]),
    (THREE, 1, 1, Steps::Strict, (2, 1), &[2, 0, 1]),
    (THREE, 1, 2, Steps::Weak, (0, 0), &[0, 1, 2, 0]),
    (THREE, 1, 2, Steps::Strict, (0, 1), &[]),
    (ALONE, 1, 1, Steps::Weak, (0, 0), &[0, 0]),
    (ALONE, 1, 1, Steps::Strict, (0, 0), &[]),
    (NINE_TENTHS, 9, 10, Steps::Strict, (0, 1), &[0, 1]),
    (NINE_TENTHS, 9, 10, Steps::Strict, (1, 0), &[]),
    (MORE_AND_LESS, 1, 1, Steps::Weak, (1, 0), &[]),
];

#[test]
fn shortest_walks_at_several_levels(rt: HostRuntime) -> Result<(), Fail> {
    assert_walks(&rt, rt.alloc(), &WALKS)
}

#[test]
fn the_walk_along_a_chain_of_the_most_observations(rt: HostRuntime) -> Result<(), Fail> {
    let alloc = rt.alloc();
    let file = chain(alloc, 512)?;
    let mut walk = Vec::new(alloc);
    for t in 0..512u32 {
        walk.push(t)?;
    }
    assert!(rt;
        is_shortest(
            &rt,
            alloc,
            file.as_str(),
            1,
            1,
            Steps::Weak,
            (0, 511),
            &walk
        )?
    );
    Ok(())
}
