//! Bounds on costs, and forged ones.
use rp_cost::{Asked, CostBounds, TableFault, Tech, Upper, check_cost, read_asked, read_tech};
use rp_evidence::Bound;
use rp_farkas::{Entry, Pair};
use rp_num::{Frac, Seq};
use std::alloc::{AllocError, Global};
use std::process::Abort;
use std::test::Fail;

/// The output 1 from the inputs (2,1) at the prices (1,2), and 2 from (2,2) at (2,1).
const TWO: &str = "y,w_a,x_a,w_b,x_b\n1,1,2,2,1\n2,2,2,1,2\n";

/// One cost at equal prices.
const EQUAL_COSTS: &str = "y,w_a,x_a,w_b,x_b\n0,1,2,1,1\n0,1,1,1,2\n";

/// The outputs 0, 1, 2 and 3 at equal prices.
const ASKED: &str = "w_a,w_b,y\n1,1,0\n1,1,1\n1,1,2\n1,1,3\n";

/// The cost of a bound from above, and its observation.
type FromAbove = Option<(u64, u32)>;

/// A bound from above.
fn upper_of(upper: FromAbove) -> Option<Upper> {
    match upper {
        Some((cost, at)) => Some(Upper { cost, at }),
        None => None,
    }
}

/// The entries of a column side.
fn entries_of(alloc: Global, pairs: &[(u32, u64)]) -> Result<Vec<Entry>, AllocError> {
    let mut entries = Vec::new(alloc);
    for (at, value) in pairs {
        let entry = Entry {
            at: *at,
            value: *value,
        };
        entries.push(entry)?;
    }
    Ok(entries)
}

/// A pair: its denominator, its entries and its price side.
fn pair_of(alloc: Global, den: u64, entries: &[(u32, u64)], x: &[u64]) -> Result<Pair, AllocError> {
    let y = Seq::from_vec(entries_of(alloc, entries)?);
    let x = Seq::from_vec(Vec::from_slice(alloc, x)?);
    Ok(Pair { den, y, x })
}

/// A fraction.
fn fraction(rt: &impl Abort, num: u32, den: u32) -> Frac {
    assert!(rt; den > 0);
    Frac::new(u128::from(num), u128::from(den))
}

/// Whether these are bounds of the output at the place `i` of those that are asked.
fn are_bounds(
    rt: &impl Abort,
    tech: &Tech,
    asked: &Asked,
    i: u32,
    upper: FromAbove,
    lower: Bound,
) -> bool {
    assert!(rt; i < asked.count());
    let prices = asked.row(i);
    assert!(rt; prices.len() == tech.inputs() as usize);
    let upper = upper_of(upper);
    check_cost(tech, prices, asked.y(i), &CostBounds { upper, lower })
}

/// What is asked of a technology at equal prices.
fn asked_of(alloc: Global, tech: &Tech) -> Result<Asked, TableFault> {
    read_asked(alloc, ASKED.as_bytes(), tech)
}

/// A technology, an output, its bound from above, and whether that is one, where the one from below is withheld.
type Above = (&'static str, u32, FromAbove, bool);

/// Whether the bound of an output of the technology in a file is one.
fn accepts_above(
    rt: &impl Abort,
    alloc: Global,
    file: &str,
    y: u32,
    upper: FromAbove,
) -> Result<bool, Fail> {
    let tech = read_tech(alloc, file.as_bytes())?;
    let asked = asked_of(alloc, &tech)?;
    let lower = Bound::Wide { step: 9 };
    Ok(are_bounds(rt, &tech, &asked, y, upper, lower))
}

/// The bounds from above.
fn check_above(rt: &impl Abort, alloc: Global, cases: &[Above]) -> Result<(), Fail> {
    for i in 0..cases.len() {
        let (file, y, upper, want) = cases[i];
        let accepted = accepts_above(rt, alloc, file, y, upper)?;
        assert!(rt; accepted == want, "row {i}");
    }
    Ok(())
}

const ABOVE: &[Above] = &[
    (TWO, 1, Some((3, 0)), true),
    (TWO, 2, Some((4, 1)), true),
    (TWO, 3, None, true),
    (EQUAL_COSTS, 0, Some((3, 1)), true),
    (TWO, 1, None, false),
    (TWO, 1, Some((4, 1)), false),
    (TWO, 1, Some((3, 1)), false),
    (TWO, 1, Some((2, 0)), false),
    (TWO, 1, Some((3, 2)), false),
    (TWO, 2, Some((3, 0)), false),
    (TWO, 3, Some((4, 1)), false),
];

#[test]
fn bounds_from_above(rt: HostRuntime) -> Result<(), Fail> {
    check_above(&rt, rt.alloc(), ABOVE)
}

/// An output, the numerator and denominator of its bound from below, the denominator of the pair, its entries and its
/// price side, and whether it is one.
type Below = (
    u32,
    (u32, u32),
    u64,
    &'static [(u32, u64)],
    &'static [u64],
    bool,
);

/// Whether the bound of an output of a technology is one. That from above is the true one: 3, and none of the output 3.
fn accepts_below(
    rt: &impl Abort,
    alloc: Global,
    tech: &Tech,
    asked: &Asked,
    case: Below,
) -> Result<bool, Fail> {
    let (y, (num, den), scale, entries, x, _) = case;
    let upper = if y == 3 { None } else { Some((3, 0)) };
    let value = fraction(rt, num, den);
    let pair = pair_of(alloc, scale, entries, x)?;
    let lower = Bound::Shown { value, pair };
    Ok(are_bounds(rt, tech, asked, y, upper, lower))
}

/// The bounds from below.
fn check_below(rt: &impl Abort, alloc: Global, cases: &[Below]) -> Result<(), Fail> {
    let tech = read_tech(alloc, TWO.as_bytes())?;
    let asked = asked_of(alloc, &tech)?;
    for i in 0..cases.len() {
        let (_, _, _, _, _, want) = cases[i];
        let accepted = accepts_below(rt, alloc, &tech, &asked, cases[i])?;
        assert!(rt; accepted == want, "row {i}");
    }
    Ok(())
}

/// The last three have the cost of their price sides as values: a price side that is not feasible, objectives that
/// differ, and a column side that is not feasible.
const BELOW: &[Below] = &[
    (1, (2, 1), 2, &[(0, 1)], &[0, 4], true),
    (3, (10, 3), 3, &[(0, 1), (1, 1)], &[8, 2], true),
    (0, (0, 1), 1, &[], &[0, 0], true),
    // the bound of the output 1 for 0, that of 0 for 1, and that of 1 for 3
    (0, (2, 1), 2, &[(0, 1)], &[0, 4], false),
    (1, (0, 1), 1, &[], &[0, 0], false),
    (3, (2, 1), 2, &[(0, 1)], &[0, 4], false),
    // another value, and a denominator of 0
    (1, (3, 1), 2, &[(0, 1)], &[0, 4], false),
    (1, (0, 1), 2, &[(0, 1)], &[0, 4], false),
    (1, (2, 1), 0, &[(0, 1)], &[0, 4], false),
    // other entries
    (1, (2, 1), 2, &[], &[0, 4], false),
    (1, (2, 1), 2, &[(1, 1)], &[0, 4], false),
    (1, (2, 1), 2, &[(0, 1), (1, 1)], &[0, 4], false),
    (3, (10, 3), 3, &[(1, 1), (0, 1)], &[8, 2], false),
    // another price side
    (1, (2, 1), 2, &[(0, 1)], &[0, 4, 0], false),
    (1, (2, 1), 2, &[(0, 1)], &[4, 0], false),
    (1, (5, 2), 2, &[(0, 1)], &[0, 5], false),
    (1, (4, 1), 2, &[(0, 2)], &[0, 8], false),
];

#[test]
fn bounds_from_below(rt: HostRuntime) -> Result<(), Fail> {
    check_below(&rt, rt.alloc(), BELOW)
}
