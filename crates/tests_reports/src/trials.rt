//! Reports of `trial`.
ghost use Rattle.std.specs.Prelude.{◌≤◌};

use rp_commands::trial_table;
use std::alloc::Global;
use std::test::Fail;
use tests_support::prints;

/// The prices and the quantities of two goods.
type Drawn = ((u32, u32), (u32, u32));

/// Observation `t` of the table of two goods that the words of a seed give.
fn drawn(alloc: Global, seed: u64, rows: u32, t: u32) -> Result<Drawn, Fail>
    requires some_rows { 1 ≤ rows }
    requires few_rows { rows ≤ 256 }
{
    let table = trial_table(alloc, seed, rows, 2)?;
    if t < table.n() && table.goods() == 2 {
        let prices = (table.price(t, 0), table.price(t, 1));
        let quantities = (table.quantity(t, 0), table.quantity(t, 1));
        Ok((prices, quantities))
    } else {
        Err("no such observation".into())
    }
}

#[test]
fn tables_by_the_words_of_the_reference_generator(rt: HostRuntime) -> Result<(), Fail> {
    for (t, prices, quantities) in [
        (0, (94, 95), (4, 29)),
        (1, (70, 96), (30, 32)),
        (2, (76, 12), (72, 30)),
    ] {
        assert!(rt;
            drawn(rt.alloc(), 42, 3, t)? == (prices, quantities),
            "observation {t}"
        );
    }
    let (_, quantities) = drawn(rt.alloc(), 1666, 1, 0)?;
    assert!(rt; quantities == (1, 0));
    Ok(())
}

#[test]
fn tables_of_the_greatest_seed(rt: HostRuntime) -> Result<(), Fail> {
    for (t, prices, quantities) in [(0, (98, 69), (69, 87)), (1, (17, 37), (97, 19))] {
        let got = drawn(rt.alloc(), 18_446_744_073_709_551_615, 2, t)?;
        assert!(rt; got == (prices, quantities), "observation {t}");
    }
    Ok(())
}

/// What the trials of a seed print, each with its rows and goods.
fn each_is_reported(alloc: Global, seed: &str, cases: &[(&str, &str, &str)]) -> Result<(), Fail> {
    for (rows, goods, out) in cases {
        prints(alloc, &["rp", "trial", seed, rows, goods], &[], out)?;
    }
    Ok(())
}

/// One table breaks the quasilinear test alone, and one breaks all.
const OF_THE_GREATEST_SEED: &[(&str, &str, &str)] = &[
    (
        "3",
        "2",
        "trial 18446744073709551615 rows 3 goods 2\ngarp holds\nefficiency 1 attained yes\nhomothetic holds\nquasilinear violated\n",
    ),
    (
        "7",
        "2",
        "trial 18446744073709551615 rows 7 goods 2\ngarp violated\nefficiency 458/763 attained no\nhomothetic violated\nquasilinear violated\n",
    ),
];

#[test]
fn trials_of_the_greatest_seed(rt: HostRuntime) -> Result<(), Fail> {
    each_is_reported(rt.alloc(), "18446744073709551615", OF_THE_GREATEST_SEED)
}

const OF_THE_MOST_OBSERVATIONS: &[(&str, &str, &str)] = &[
    (
        "256",
        "16",
        "trial 7 rows 256 goods 16\ngarp violated\nefficiency 631/867 attained no\nhomothetic violated\nquasilinear violated\n",
    ),
    (
        "256",
        "2",
        "trial 7 rows 256 goods 2\ngarp violated\nefficiency 229/1023 attained no\nhomothetic violated\nquasilinear violated\n",
    ),
];

#[test]
fn trials_of_the_most_observations(rt: HostRuntime) -> Result<(), Fail> {
    each_is_reported(rt.alloc(), "7", OF_THE_MOST_OBSERVATIONS)
}
