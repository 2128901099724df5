//! Tests of bounds by a tableau over one denominator, on programs whose stated run passes its width and on others.
ghost use Rattle.std.specs.Prelude.{◌↔◌, ◌^◌, ◌≤◌, pos, ◌≤ℤ◌, All, IsTrue};
ghost use Rattle.std.specs.Int.RustNames.{unsigned_abs};

use rp_evidence::Bound;
use rp_farkas::{Entry, Lp, Measure, Program};
use rp_simplex::{Outcome, maximize};
use rp_whole_tableau::whole_bound_of;
use std::alloc::Global;
use std::process::Abort;
use std::test::Fail;

/// Whether each entry is at most 2^51 in size.
fn are_entries(values: &[i64]) -> bool
    ensures { IsTrue result ↔ All (λ z. unsigned_abs z ≤ 2 ^ 51) values.now }
{
    values
        .iter()
        .all(|z| z.unsigned_abs() <= 2_251_799_813_685_248)
}

/// Whether no right side is below 0.
fn are_right_sides(values: &[i64]) -> bool
    ensures { IsTrue result ↔ All (λ z. pos 0 ≤ℤ z) values.now }
{
    values.iter().all(|z| *z >= 0)
}

/// The program of copies of these lists, one row of A after the other.
fn program(
    rt: &impl Abort,
    alloc: Global,
    a: &[i64],
    b: &[i64],
    c: &[i64],
) -> Result<Program, Fail> {
    let (a, b, c) = (a.to_vec(alloc)?, b.to_vec(alloc)?, c.to_vec(alloc)?);
    let rows = b.len();
    let cols = c.len();
    assert!(rt; rows <= 64 && cols <= 8192, "too large");
    assert!(rt; a.len() == rows * cols, "not one entry for each place");
    assert!(rt;
        are_entries(&a) && are_entries(&b) && are_entries(&c),
        "too large"
    );
    assert!(rt; are_right_sides(&b), "below 0");
    Ok(Program::make(rows as u32, cols as u32, a, b, c))
}

/// A bound that is wanted: the value, and the pair by its denominator, columns with their values, and prices.
#[derive(Drop)]
struct Want {
    value: (u128, u128),
    den: u64,
    y: &'static [(u32, u64)],
    x: &'static [u64],
}

/// Whether a listing has just these columns and values.
fn are_listed(entries: &[Entry], want: &[(u32, u64)]) -> bool {
    if entries.len() != want.len() {
        return false;
    }
    for k in 0..want.len() {
        if entries[k].at != want[k].0 || entries[k].value != want[k].1 {
            return false;
        }
    }
    true
}

/// Whether a bound is as it is wanted.
fn is_wanted(found: &Option<Bound>, want: &Want) -> bool {
    match found {
        Some(Bound::Shown { value, pair }) => {
            (value.num(), value.den()) == want.value
                && pair.den == want.den
                && are_listed(pair.y.as_slice(), want.y)
                && pair.x.as_slice() == want.x
        }
        _ => false,
    }
}

/// Whether the stated run is withheld.
fn is_withheld(alloc: Global, program: &Program) -> Result<bool, Fail> {
    Ok(match maximize(alloc, program)? {
        Outcome::Wide { .. } => true,
        _ => false,
    })
}

/// 2^50.
const N: i64 = 1 << 50;

#[test]
fn a_bound_where_the_stated_run_is_withheld(rt: HostRuntime) -> Result<(), Fail> {
    let alloc = rt.alloc();
    // once the denominator is N, the second column has N (N - 1) - 1 below; it does not enter
    let long = program(&rt, alloc, &[N, 1, 1, N - 1], &[1, 1], &[1, -1])?;
    assert!(rt; is_withheld(alloc, &long)?);
    let want = Want {
        value: (1, 1 << 50),
        den: 1 << 50,
        y: &[(0, 1)],
        x: &[1, 0],
    };
    assert!(rt; is_wanted(&whole_bound_of(alloc, &long, Measure::Cost)?, &want));
    Ok(())
}

#[test]
fn bounds_where_the_stated_run_ends(rt: HostRuntime) -> Result<(), Fail> {
    let alloc = rt.alloc();
    let short = program(&rt, alloc, &[4, 1, 3, 4], &[1, 1], &[1, 1])?;
    let cost = Want {
        value: (4, 13),
        den: 13,
        y: &[(0, 3), (1, 1)],
        x: &[1, 3],
    };
    assert!(rt; is_wanted(&whole_bound_of(alloc, &short, Measure::Cost)?, &cost));
    assert!(rt; short.rows() == 2, "a row for each right side");
    let price = Want {
        value: (3, 13),
        ..cost
    };
    assert!(rt; is_wanted(&whole_bound_of(alloc, &short, Measure::Price(1))?, &price));
    Ok(())
}

#[test]
fn no_bound(rt: HostRuntime) -> Result<(), Fail> {
    let alloc = rt.alloc();
    // the pair's denominator is N^2 - N + 1
    let wide = program(&rt, alloc, &[N, 1, N - 1, N], &[1, 1], &[1, 1])?;
    assert!(rt; is_withheld(alloc, &wide)?);
    assert!(rt; is_none(&whole_bound_of(alloc, &wide, Measure::Cost)?));
    // every y is feasible
    let unbounded = program(&rt, alloc, &[-1], &[1], &[1])?;
    assert!(rt; is_none(&whole_bound_of(alloc, &unbounded, Measure::Cost)?));
    Ok(())
}

/// Whether nothing was found.
fn is_none(found: &Option<Bound>) -> bool {
    match found {
        None => true,
        Some(_) => false,
    }
}
