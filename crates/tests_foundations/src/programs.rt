//! Tests of linear programs: the run's outcomes on worked programs, at their limits, and at the greatest sizes.
ghost use Rattle.std.specs.Prelude.{◌↔◌, ◌^◌, ◌≤◌, pos, ◌≤ℤ◌, All, IsTrue};
ghost use Rattle.std.specs.Int.RustNames.{unsigned_abs};

use rp_farkas::{Entry, Program, check_pair, check_ray};
use rp_simplex::{Outcome, Tableau, maximize};
use std::alloc::Global;
use std::process::Abort;
use std::test::Fail;

/// Whether each entry is at most 2^51 in size.
fn are_entries(values: &[i64]) -> bool
    ensures { IsTrue result ↔ All (λ z. unsigned_abs z ≤ 2 ^ 51) values.now }
{
    values
        .iter()
        .all(|z| z.unsigned_abs() <= 2_251_799_813_685_248)
}

/// Whether no right side is below 0.
fn are_right_sides(values: &[i64]) -> bool
    ensures { IsTrue result ↔ All (λ z. pos 0 ≤ℤ z) values.now }
{
    values.iter().all(|z| *z >= 0)
}

/// The program of these lists, one row of A after the other.
fn program(rt: &impl Abort, a: Vec<i64>, b: Vec<i64>, c: Vec<i64>) -> Program {
    let rows = b.len();
    let cols = c.len();
    assert!(rt; rows <= 64 && cols <= 8192, "too large");
    assert!(rt; a.len() == rows * cols, "not one entry for each place");
    assert!(rt;
        are_entries(&a) && are_entries(&b) && are_entries(&c),
        "too large"
    );
    assert!(rt; are_right_sides(&b), "below 0");
    Program::make(rows as u32, cols as u32, a, b, c)
}

/// The program of copies of these lists.
pub(crate) fn copied(
    rt: &impl Abort,
    alloc: Global,
    a: &[i64],
    b: &[i64],
    c: &[i64],
) -> Result<Program, Fail> {
    let (a, b, c) = (a.to_vec(alloc)?, b.to_vec(alloc)?, c.to_vec(alloc)?);
    Ok(program(rt, a, b, c))
}

/// An outcome that is wanted: columns with their values, and prices in order.
enum Want {
    /// A denominator, y, and x.
    Optimal(u64, &'static [(u32, u64)], &'static [u64]),
    /// A denominator, a point, and a ray from it.
    Unbounded(u64, &'static [(u32, u64)], &'static [(u32, u64)]),
    /// The step at which the run is withheld.
    Wide(u64),
}

/// Whether a listing has just these columns and values.
fn are_listed(entries: &[Entry], want: &[(u32, u64)]) -> bool {
    if entries.len() != want.len() {
        return false;
    }
    for k in 0..want.len() {
        if entries[k].at != want[k].0 || entries[k].value != want[k].1 {
            return false;
        }
    }
    true
}

/// Whether an outcome is as it is wanted.
fn is_wanted(outcome: &Outcome, want: &Want) -> bool {
    match (outcome, want) {
        (Outcome::Optimal(pair), Want::Optimal(den, y, x)) => {
            pair.den == *den && are_listed(pair.y.as_slice(), y) && pair.x.as_slice() == *x
        }
        (Outcome::Unbounded { den, point, ray }, Want::Unbounded(wanted, from, along)) => {
            den == wanted && are_listed(point.as_slice(), from) && are_listed(ray.as_slice(), along)
        }
        (Outcome::Wide { step }, Want::Wide(wanted)) => step == wanted,
        _ => false,
    }
}

/// Whether the check of an outcome's evidence takes it.
fn is_taken(program: &Program, outcome: &Outcome) -> bool {
    match outcome {
        Outcome::Optimal(pair) => check_pair(program, pair),
        Outcome::Unbounded { den, point, ray } => check_ray(program, *den, point, ray),
        Outcome::Wide { .. } => true,
    }
}

/// Whether the run in one call ends as it is wanted, and the checks take its evidence.
fn ends(alloc: Global, program: &Program, want: &Want) -> Result<bool, Fail> {
    let outcome = maximize(alloc, program)?;
    Ok(is_wanted(&outcome, want) && is_taken(program, &outcome))
}

/// Whether the run from a tableau ends as it is wanted.
fn ends_from_tableau(alloc: Global, program: &Program, want: &Want) -> Result<bool, Fail> {
    let outcome = Tableau::of(alloc, program)?.solve();
    Ok(is_wanted(&outcome, want))
}

/// Asserts the outcome of a row's program, which both calls give, and of which the checks take the evidence.
fn assert_outcome(
    rt: &impl Abort,
    alloc: Global,
    program: &Program,
    want: &Want,
    row: usize,
) -> Result<(), Fail> {
    assert!(rt; ends(alloc, program, want)?, "row {row}");
    assert!(rt;
        ends_from_tableau(alloc, program, want)?,
        "row {row}, from its tableau"
    );
    Ok(())
}

/// The rows of A, one after the other, b, c, and the outcome.
type Case = (&'static [i64], &'static [i64], &'static [i64], Want);

/// Asserts the outcome of each.
fn assert_outcomes(rt: &impl Abort, alloc: Global, cases: &[Case]) -> Result<(), Fail> {
    for (row, (a, b, c, want)) in cases.iter().enumerate() {
        let program = copied(rt, alloc, a, b, c)?;
        assert_outcome(rt, alloc, &program, want, row)?;
    }
    Ok(())
}

const WORKED: [Case; 12] = [
    // once the denominator is 2^50, one entry becomes 2^100 - 2^50 + 1
    (
        &[
            1_125_899_906_842_624,
            1,
            1_125_899_906_842_623,
            1_125_899_906_842_624,
        ],
        &[1, 1],
        &[1, 1],
        Want::Wide(1),
    ),
    (
        &[4, 1, 3, 4],
        &[1, 1],
        &[1, 1],
        Want::Optimal(13, &[(0, 3), (1, 1)], &[1, 3]),
    ),
    (&[-1], &[1], &[1], Want::Unbounded(1, &[], &[(0, 1)])),
    (
        &[1, -1],
        &[1],
        &[1, 1],
        Want::Unbounded(1, &[(0, 1)], &[(0, 1), (1, 1)]),
    ),
    // no columns, no rows, neither
    (&[], &[1], &[], Want::Optimal(1, &[], &[0])),
    (&[], &[], &[1], Want::Unbounded(1, &[], &[(0, 1)])),
    (&[], &[], &[], Want::Optimal(1, &[], &[])),
    (&[1], &[0], &[1], Want::Optimal(1, &[], &[1])),
    (
        &[1, 2, 1, -1, 2, 1, 1, -1],
        &[1, 0],
        &[4, 4, 3, -3],
        Want::Optimal(1, &[(1, 1), (3, 1)], &[1, 2]),
    ),
    // Beale's program, which cycles where ties go to the first row
    (
        &[1, -32, -4, 36, 1, -24, -1, 6, 0, 0, 1, 0],
        &[0, 0, 1],
        &[3, -80, 2, -24],
        Want::Optimal(1, &[(0, 1), (2, 1)], &[0, 3, 5]),
    ),
    // the slack of the last row leaves, and has to enter again
    (
        &[1, 1, 1, 0],
        &[1, 1],
        &[1, 2],
        Want::Optimal(1, &[(1, 1)], &[2, 0]),
    ),
    // equal right sides: the later row is the lexicographically lesser
    (&[1, 1], &[1, 1], &[1], Want::Optimal(1, &[(0, 1)], &[0, 1])),
];

#[test]
fn outcomes_of_worked_programs(rt: HostRuntime) -> Result<(), Fail> {
    assert_outcomes(&rt, rt.alloc(), &WORKED)
}

/// A number of 2^63 - 1 is shown: the value, an entry of the objective row, a denominator, the value after a second
/// pivot. With 2^63 there the run is withheld.
const AT_THE_WIDTH: [Case; 8] = [
    (
        &[1],
        &[153_092_023],
        &[60_247_241_209],
        Want::Optimal(1, &[(0, 153_092_023)], &[60_247_241_209]),
    ),
    (&[1], &[2_147_483_648], &[4_294_967_296], Want::Wide(1)),
    (
        &[1, -153_092_023],
        &[1],
        &[60_247_241_209, 0],
        Want::Unbounded(1, &[(0, 1)], &[(0, 153_092_023), (1, 1)]),
    ),
    (
        &[1, -2_147_483_648],
        &[1],
        &[4_294_967_296, 0],
        Want::Wide(1),
    ),
    (
        &[153_092_023, 0, 0, 60_247_241_209],
        &[1, 1],
        &[1, 1],
        Want::Optimal(
            9_223_372_036_854_775_807,
            &[(0, 60_247_241_209), (1, 153_092_023)],
            &[60_247_241_209, 153_092_023],
        ),
    ),
    (
        &[4_294_967_296, 0, 1, 2_147_483_648],
        &[1, 1],
        &[1, 1],
        Want::Wide(1),
    ),
    (
        &[1, 0, 0, 1],
        &[1_073_741_824, 2_147_483_647],
        &[4_294_967_296, 2_147_483_649],
        Want::Optimal(
            1,
            &[(0, 1_073_741_824), (1, 2_147_483_647)],
            &[4_294_967_296, 2_147_483_649],
        ),
    ),
    (
        &[1, 0, 0, 1],
        &[1_073_741_824, 1_073_741_824],
        &[4_294_967_296, 4_294_967_296],
        Want::Wide(2),
    ),
];

#[test]
fn outcomes_at_the_width(rt: HostRuntime) -> Result<(), Fail> {
    assert_outcomes(&rt, rt.alloc(), &AT_THE_WIDTH)
}

/// Numbers by their places, from 0.
enum By {
    /// 1.
    Ones,
    /// 1, 2, ..
    Rising,
    /// 1 from this place on, and 0 before it.
    From(u32),
    /// 1 and one more for each 8 places before it.
    Eighths,
    /// The entries of so many rows of so many columns, where column j has a 1 in row j modulo the rows, and else 0.
    Columns(u32, u32),
}

/// 1 where this holds, and else 0.
fn one_if(holds: bool) -> i64 {
    if holds { 1 } else { 0 }
}

/// The number at a place.
fn number(by: &By, place: u32) -> i64 {
    match by {
        By::Ones => 1,
        By::Rising => i64::from(place) + 1,
        By::From(first) => one_if(place >= *first),
        By::Eighths => 1 + i64::from(place / 8),
        By::Columns(rows, cols) => {
            let (rows, cols) = ((*rows).max(1), (*cols).max(1));
            one_if(place % cols % rows == place / cols)
        }
    }
}

/// So many numbers.
type Numbers = (u32, By);

/// These numbers.
fn listed(alloc: Global, numbers: &Numbers) -> Result<Vec<i64>, Fail> {
    let (count, by) = numbers;
    let mut all = Vec::new(alloc);
    for place in 0..*count {
        all.push(number(by, place))?;
    }
    Ok(all)
}

/// The program of these numbers.
fn large(
    rt: &impl Abort,
    alloc: Global,
    a: &Numbers,
    b: &Numbers,
    c: &Numbers,
) -> Result<Program, Fail> {
    let (a, b, c) = (listed(alloc, a)?, listed(alloc, b)?, listed(alloc, c)?);
    Ok(program(rt, a, b, c))
}

/// The rows of A, one after the other, b, c, and the outcome.
type LargeCase = (Numbers, Numbers, Numbers, Want);

/// Asserts the outcome of each.
fn assert_large(rt: &impl Abort, alloc: Global, cases: &[LargeCase]) -> Result<(), Fail> {
    for (row, (a, b, c, want)) in cases.iter().enumerate() {
        let program = large(rt, alloc, a, b, c)?;
        assert_outcome(rt, alloc, &program, want, row)?;
    }
    Ok(())
}

const LARGE: [LargeCase; 3] = [
    // the first column alone, in the last row
    (
        (262_144, By::Ones),
        (64, By::Ones),
        (4_096, By::Ones),
        Want::Optimal(
            1,
            &[(0, 1)],
            &[
                0, 0, 0, 0, 0, 0, 0, 0, 0, 0, 0, 0, 0, 0, 0, 0, 0, 0, 0, 0, 0, 0, 0, 0, 0, 0, 0, 0,
                0, 0, 0, 0, 0, 0, 0, 0, 0, 0, 0, 0, 0, 0, 0, 0, 0, 0, 0, 0, 0, 0, 0, 0, 0, 0, 0, 0,
                0, 0, 0, 0, 0, 0, 0, 1,
            ],
        ),
    ),
    // The most rows and columns, of which only the last two columns are worth something: the one best point fills their
    // rows with them, and the one best price of each of these rows is 1.
    (
        (524_288, By::Columns(64, 8_192)),
        (64, By::Rising),
        (8_192, By::From(8_190)),
        Want::Optimal(
            1,
            &[(8_190, 63), (8_191, 64)],
            &[
                0, 0, 0, 0, 0, 0, 0, 0, 0, 0, 0, 0, 0, 0, 0, 0, 0, 0, 0, 0, 0, 0, 0, 0, 0, 0, 0, 0,
                0, 0, 0, 0, 0, 0, 0, 0, 0, 0, 0, 0, 0, 0, 0, 0, 0, 0, 0, 0, 0, 0, 0, 0, 0, 0, 0, 0,
                0, 0, 0, 0, 0, 0, 1, 1,
            ],
        ),
    ),
    // Column j of 8 rows is worth 1 + j / 8, so each column in turn is the first that enters, and takes the place of
    // the column before it in its row: 320 pivots.
    (
        (2_560, By::Columns(8, 320)),
        (8, By::Rising),
        (320, By::Eighths),
        Want::Optimal(
            1,
            &[
                (312, 1),
                (313, 2),
                (314, 3),
                (315, 4),
                (316, 5),
                (317, 6),
                (318, 7),
                (319, 8),
            ],
            &[40, 40, 40, 40, 40, 40, 40, 40],
        ),
    ),
];

#[test]
fn outcomes_of_large_programs(rt: HostRuntime) -> Result<(), Fail> {
    assert_large(&rt, rt.alloc(), &LARGE)
}
