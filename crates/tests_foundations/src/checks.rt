//! Tests of the checks of evidence on a linear program: each condition, and the greatest entries.
use crate::programs::copied;
use rp_farkas::{Entry, Pair, Program, check_pair, check_ray};
use rp_num::Seq;
use std::alloc::Global;
use std::process::Abort;
use std::test::Fail;

/// What a check is given besides the program and the denominator.
enum Evidence {
    /// y and x.
    Pair(&'static [(u32, u64)], &'static [u64]),
    /// A point, and a ray from it.
    Ray(&'static [(u32, u64)], &'static [(u32, u64)]),
}

/// The listing of these columns and values.
fn listing(alloc: Global, places: &[(u32, u64)]) -> Result<Seq<Entry>, Fail> {
    let mut entries = Vec::new(alloc);
    for place in places {
        entries.push(Entry {
            at: place.0,
            value: place.1,
        })?;
    }
    Ok(Seq::from_vec(entries))
}

/// Whether a check takes y and x over `den`.
fn takes_pair(
    alloc: Global,
    program: &Program,
    den: u64,
    y: &[(u32, u64)],
    x: &[u64],
) -> Result<bool, Fail> {
    let y = listing(alloc, y)?;
    let x = Seq::from_vec(Vec::from_slice(alloc, x)?);
    Ok(check_pair(program, &Pair { den, y, x }))
}

/// Whether a check takes the ray from the point over `den`.
fn takes_ray(
    alloc: Global,
    program: &Program,
    den: u64,
    point: &[(u32, u64)],
    ray: &[(u32, u64)],
) -> Result<bool, Fail> {
    let point = listing(alloc, point)?;
    let ray = listing(alloc, ray)?;
    Ok(check_ray(program, den, &point, &ray))
}

/// Whether the check of such evidence takes it over `den`.
fn takes(alloc: Global, program: &Program, den: u64, evidence: &Evidence) -> Result<bool, Fail> {
    match evidence {
        Evidence::Pair(y, x) => takes_pair(alloc, program, den, y, x),
        Evidence::Ray(point, ray) => takes_ray(alloc, program, den, point, ray),
    }
}

/// A denominator, what is over it, and whether a check takes it.
type Case = (u64, Evidence, bool);

/// Asserts which of these a check takes for the program of the rows a, where b and c have these numbers.
fn assert_taken(
    rt: &impl Abort,
    alloc: Global,
    a: &[i64],
    sides: &[i64],
    cases: &[Case],
) -> Result<(), Fail> {
    let program = copied(rt, alloc, a, sides, sides)?;
    for (row, (den, evidence, taken)) in cases.iter().enumerate() {
        let got = takes(alloc, &program, *den, evidence)?;
        assert!(rt; got == *taken, "row {row}");
    }
    Ok(())
}

/// A number past the width of a denominator, a price or a value.
const PAST: u64 = 9_223_372_036_854_775_808;

/// The greatest within it.
const WIDTH: u64 = 9_223_372_036_854_775_807;

/// The greatest entry of a program.
const MOST: i64 = 2_251_799_813_685_248;

const PAIRS: [Case; 18] = [
    (13, Evidence::Pair(&[(0, 3), (1, 1)], &[1, 3]), true),
    (26, Evidence::Pair(&[(0, 6), (1, 2)], &[2, 6]), true),
    (0, Evidence::Pair(&[(0, 3), (1, 1)], &[1, 3]), false),
    (PAST, Evidence::Pair(&[(0, 3), (1, 1)], &[1, 3]), false),
    (
        13,
        Evidence::Pair(&[(0, 3), (0, 3), (1, 1)], &[1, 3]),
        false,
    ),
    (13, Evidence::Pair(&[(1, 1), (0, 3)], &[1, 3]), false),
    (
        13,
        Evidence::Pair(&[(0, 3), (1, 1), (2, 1)], &[1, 3]),
        false,
    ),
    (13, Evidence::Pair(&[(0, 3), (1, 0)], &[1, 3]), false),
    (13, Evidence::Pair(&[(0, 3), (1, PAST)], &[1, 3]), false),
    (13, Evidence::Pair(&[(0, 3), (1, 1)], &[1]), false),
    (13, Evidence::Pair(&[(0, 3), (1, 1)], &[1, 3, 0]), false),
    (13, Evidence::Pair(&[(0, 3), (1, 1)], &[1, PAST]), false),
    // y is not feasible in the first row, and in the last
    (13, Evidence::Pair(&[(0, 4)], &[1, 3]), false),
    (13, Evidence::Pair(&[(1, 4)], &[1, 3]), false),
    // x is not feasible in the first column, and in the last
    (13, Evidence::Pair(&[(0, 3), (1, 1)], &[0, 4]), false),
    (13, Evidence::Pair(&[(0, 3), (1, 1)], &[4, 0]), false),
    // both are feasible, and the values differ
    (13, Evidence::Pair(&[(0, 3)], &[1, 3]), false),
    (13, Evidence::Pair(&[(0, 3), (1, 1)], &[2, 3]), false),
];

const RAYS: [Case; 12] = [
    (1, Evidence::Ray(&[], &[(0, 1)]), true),
    (2, Evidence::Ray(&[(1, 1)], &[(0, 2), (1, 1)]), true),
    (0, Evidence::Ray(&[], &[(0, 1)]), false),
    (PAST, Evidence::Ray(&[], &[(0, 1)]), false),
    (1, Evidence::Ray(&[(1, 1)], &[(0, 1)]), false),
    (1, Evidence::Ray(&[(1, 0)], &[(0, 1)]), false),
    (1, Evidence::Ray(&[(2, 1)], &[(0, 1)]), false),
    (1, Evidence::Ray(&[], &[(0, 0)]), false),
    (1, Evidence::Ray(&[], &[(0, 1), (0, 1)]), false),
    (1, Evidence::Ray(&[], &[(0, PAST)]), false),
    // the ray rises in the last row
    (1, Evidence::Ray(&[], &[(0, 1), (1, 1)]), false),
    // it gains nothing
    (1, Evidence::Ray(&[], &[]), false),
];

/// Of the program whose entries are all the greatest.
const GREATEST: [Case; 1] = [(WIDTH, Evidence::Pair(&[(0, WIDTH)], &[WIDTH]), true)];

/// Of the program where that of A is below 0.
const FALLING: [Case; 2] = [
    (WIDTH, Evidence::Ray(&[(0, WIDTH)], &[(0, WIDTH)]), true),
    (WIDTH, Evidence::Pair(&[(0, WIDTH)], &[WIDTH]), false),
];

#[test]
fn each_condition_of_a_check(rt: HostRuntime) -> Result<(), Fail> {
    let alloc = rt.alloc();
    assert_taken(&rt, alloc, &[4, 1, 3, 4], &[1, 1], &PAIRS)?;
    assert_taken(&rt, alloc, &[-1, 1, -1, 2], &[1, 1], &RAYS)?;
    assert_taken(&rt, alloc, &[MOST], &[MOST], &GREATEST)?;
    assert_taken(&rt, alloc, &[-MOST], &[MOST], &FALLING)
}
