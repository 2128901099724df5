//! Reports of `demand` and `welfare`.
use std::alloc::Global;
use std::test::Fail;
use tests_inputs::tables::{ALONE, APART, CONTRADICTION, MORE_AND_LESS};
use tests_support::{prints, refuses};

/// The tableaus of programs on this table soon pass 2^63 - 1.
const STEEP: &str =
    "p_a,q_a,p_b,q_b,p_c,q_c\n9999999,2,1,2,1,2\n1,1,9999991,1,1,1\n1,1,1,1,9999973,1\n";

/// The words of demand at new prices.
const DEMAND: &[&str] = &["rp", "demand", "t.csv", "n.csv"];

/// Each table and new prices have their text.
fn each_is_reported(
    alloc: Global,
    words: &[&str],
    cases: &[(&str, &str, &str)],
) -> Result<(), Fail> {
    for (table, new, text) in cases {
        prints(alloc, words, &[("t.csv", table), ("n.csv", new)], text)?;
    }
    Ok(())
}

/// The report of demand on a table whose goods can be put in each other's place, where 3 is spent at the prices 1 and
/// 1.
const DEMAND_OF_3: &str =
    "demand prices 1 1 expenditure 3\nbelow 1 2\nstrict none\ninner 2 1 over 1\n\
    good 1 lower 1 upper 2\nlower x 1 2 y 2:1 4:1 over 1\nupper x 2 1 y 1:1 4:1 over 1\n\
    good 2 lower 1 upper 2\nlower x 2 1 y 1:1 4:1 over 1\nupper x 1 2 y 2:1 4:1 over 1\n";

const HEAD_OF_APART: &str = "observations 2 goods 2 places 0 0\ngarp holds\nranks 1 1\n";

/// New prices, and the report on them after the verdict on the axiom.
const DEMANDS: &[(&str, &str)] = &[
    ("p_a,p_b,m\n1,1,3\n", DEMAND_OF_3),
    (
        "p_a,p_b,m\n1,1,4\n",
        "demand prices 1 1 expenditure 4\nbelow 1 2\nstrict 1 2\ninner 3 1 over 1\n\
        good 1 lower 0 upper 4\nlower x 0 4 y none over 1\nupper x 4 0 y none over 1\n\
        good 2 lower 0 upper 4\nlower x 4 0 y none over 1\nupper x 0 4 y none over 1\n",
    ),
    // prices and the expenditure in tenths, and a bundle that buys nothing of the table
    (
        "p_b,obs,p_a,m\n1,one,1.5,2.5\n",
        "demand prices 15 10 expenditure 25\nbelow none\nstrict none\ninner 25 0 over 15\n\
        good 1 lower 0 upper 5/3\nlower x 0 25 y none over 10\nupper x 25 0 y none over 15\n\
        good 2 lower 0 upper 5/2\nlower x 25 0 y none over 15\nupper x 0 25 y none over 10\n",
    ),
];

#[test]
fn demand_has_one_item_a_record(rt: HostRuntime) -> Result<(), Fail> {
    let alloc = rt.alloc();
    for (new, items) in DEMANDS {
        let text = format!(in alloc; "{HEAD_OF_APART}{items}")?;
        prints(
            alloc,
            DEMAND,
            &[("t.csv", APART), ("n.csv", new)],
            text.as_str(),
        )?;
    }
    Ok(())
}

#[test]
fn sixteen_records_have_sixteen_items(rt: HostRuntime) -> Result<(), Fail> {
    let alloc = rt.alloc();
    let mut new = String::from_str(alloc, "p_a,p_b,m\n")?;
    let mut text = String::from_str(alloc, HEAD_OF_APART)?;
    for _ in 0..16u32 {
        new.push_str("1,1,3\n")?;
        text.push_str(DEMAND_OF_3)?;
    }
    let files = &[("t.csv", APART), ("n.csv", new.as_str())];
    prints(alloc, DEMAND, files, text.as_str())?;
    new.push_str("1,1,3\n")?;
    let files = &[("t.csv", APART), ("n.csv", new.as_str())];
    refuses(alloc, DEMAND, files, "rp: n.csv: TooManyRecords\n")
}

const OTHER_DEMANDS: &[(&str, &str, &str)] = &[
    (
        MORE_AND_LESS,
        "p_a,p_b,m\n1,1,6\n",
        "observations 2 goods 2 places 0 0\ngarp holds\nranks 2 1\n\
        demand prices 1 1 expenditure 6\nbelow 2\nstrict 2\ninner 4 2 over 1\n\
        good 1 lower 0 upper 6\nlower x 0 6 y none over 1\nupper x 6 0 y none over 1\n\
        good 2 lower 0 upper 6\nlower x 6 0 y none over 1\nupper x 0 6 y none over 1\n",
    ),
    (
        CONTRADICTION,
        "p_a,p_b,m\n1,1,3\n",
        "observations 2 goods 2 places 0 0\ngarp violated\ncycle 1 2 1\n\
        demand prices 1 1 expenditure 3\nnone\ncycle 1 2 1\n",
    ),
    // less is spent than the only bundle costs, and then more
    (
        ALONE,
        "m,p_a\n3,2\n10,2\n",
        "observations 1 goods 1 places 0 0\ngarp holds\nranks 1\n\
        demand prices 2 expenditure 3\nbelow none\nstrict none\ninner 3 over 2\n\
        good 1 lower 3/2 upper 3/2\nlower x 3 y 1:1 over 2\nupper x 3 y none over 2\n\
        demand prices 2 expenditure 10\nbelow 1\nstrict 1\ninner 10 over 2\n\
        good 1 lower 5 upper 5\nlower x 10 y 2:1 over 2\nupper x 10 y none over 2\n",
    ),
    // each bound is shown or withheld by itself
    (
        STEEP,
        "p_a,p_b,p_c,m\n1,1,1,10000000\n",
        "observations 3 goods 3 places 0 0\ngarp holds\nranks 3 2 2\n\
        demand prices 1 1 1 expenditure 10000000\nbelow 1 2 3\nstrict 1 2 3\n\
        inner 9999996 2 2 over 1\n\
        good 1 lower withheld 2 upper 10000000\nupper x 10000000 0 0 y none over 1\n\
        good 2 lower withheld 2 upper withheld 2\ngood 3 lower withheld 2 upper withheld 2\n",
    ),
];

#[test]
fn demand_of_other_tables(rt: HostRuntime) -> Result<(), Fail> {
    each_is_reported(rt.alloc(), DEMAND, OTHER_DEMANDS)
}

const WELFARES: &[(&str, &str, &str)] = &[
    (
        MORE_AND_LESS,
        "p_a,p_b\n1,2\n",
        "observations 2 goods 2 places 0 0\ngarp holds\nranks 2 1\n\
        welfare prices 1 2 observation 1 lower 8 upper 12 at 1\nlower x 8 0 y 1:1 over 1\n\
        welfare prices 1 2 observation 2 lower 4 upper 6 at 2\nlower x 4 0 y 1:1 over 1\n",
    ),
    (
        APART,
        "p_b,p_a\n1,1\n1,2\n",
        "observations 2 goods 2 places 0 0\ngarp holds\nranks 1 1\n\
        welfare prices 1 1 observation 1 lower 2 upper 3 at 1\nlower x 0 4 y 1:1 over 2\n\
        welfare prices 1 1 observation 2 lower 2 upper 3 at 2\nlower x 4 0 y 1:1 over 2\n\
        welfare prices 2 1 observation 1 lower 2 upper 5 at 1\nlower x 0 4 y 1:1 over 2\n\
        welfare prices 2 1 observation 2 lower 4 upper 4 at 2\nlower x 0 4 y 1:1 over 1\n",
    ),
    (
        CONTRADICTION,
        "p_a,p_b\n1,1\n",
        "observations 2 goods 2 places 0 0\ngarp violated\ncycle 1 2 1\n\
        welfare prices 1 1 observation 1 none\ncycle 1 2 1\n\
        welfare prices 1 1 observation 2 none\ncycle 1 2 1\n",
    ),
    (
        STEEP,
        "p_a,p_b,p_c\n1,1,1\n",
        "observations 3 goods 3 places 0 0\ngarp holds\nranks 3 2 2\n\
        welfare prices 1 1 1 observation 1 lower withheld 2 upper 6 at 1\n\
        welfare prices 1 1 1 observation 2 lower 11111072222247/5555535555569 upper 3 at 2\n\
        lower x 0 99999650000214 99999650000232 y 1:9999972 2:9999990 over 99999640000242\n\
        welfare prices 1 1 1 observation 3 lower 11111072222247/5555535555569 upper 3 at 2\n\
        lower x 0 99999650000214 99999650000232 y 1:9999972 2:9999990 over 99999640000242\n",
    ),
];

#[test]
fn welfare_has_one_item_an_observation(rt: HostRuntime) -> Result<(), Fail> {
    each_is_reported(rt.alloc(), &["rp", "welfare", "t.csv", "n.csv"], WELFARES)
}
