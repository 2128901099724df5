//! Forged certificates on a table.
use std::alloc::Global;
use std::test::Fail;
use tests_inputs::tables::{
    APART, CERTIFICATE, CONTRADICTION, EQUAL, MORE_AND_LESS, certificate_of,
};
use tests_support::{CHECK, joined, rejects};

/// The certificate is rejected on the table with this line.
fn rejects_certificate(
    alloc: Global,
    table: &str,
    certificate: &str,
    line: &str,
) -> Result<(), Fail> {
    rejects(
        alloc,
        CHECK,
        &[("t.csv", table), ("c.json", certificate)],
        line,
    )
}

/// A certificate with these items is rejected on the table, with the item, the reason and the place.
fn rejects_items(alloc: Global, table: &str, items: &str, told: &str) -> Result<(), Fail> {
    let certificate = certificate_of(alloc, items)?;
    let line = format!(in alloc; "rejected item {told}\n")?;
    rejects_certificate(alloc, table, certificate.as_str(), line.as_str())
}

#[test]
fn a_certificate_of_another_table_is_rejected(rt: HostRuntime) -> Result<(), Fail> {
    let line = "rejected item 1 NotWeak place 1\n";
    rejects_certificate(rt.alloc(), APART, CERTIFICATE, line)
}

/// Tables, forged items, and where these fail.
const FORGED: &[(&str, &str, &str)] = &[
    (
        CONTRADICTION,
        "{\"cycle\":[1],\"item\":\"garp\"}",
        "1 Shape place 0",
    ),
    (
        CONTRADICTION,
        "{\"cycle\":[1,2],\"item\":\"garp\"}",
        "1 NotClosed place 0",
    ),
    (
        CONTRADICTION,
        "{\"cycle\":[1,3,1],\"item\":\"garp\"}",
        "1 Number place 2",
    ),
    (
        CONTRADICTION,
        "{\"item\":\"garp\",\"ranks\":[1,1]}",
        "1 Order place 1",
    ),
    (
        EQUAL,
        "{\"cycle\":[1,2,1],\"item\":\"garp\"}",
        "1 NoStrict place 0",
    ),
    (
        MORE_AND_LESS,
        "{\"item\":\"afriat\",\"lambda\":[\"1\",\"0\"],\"utility\":[\"0\",\"-4\"]}",
        "1 Number place 2",
    ),
    (
        CONTRADICTION,
        "{\"above\":[1,2,1],\"at_ranks\":[2,2],\"below\":[1,1],\"item\":\"efficiency\",\"level\":\"0\"}",
        "1 Level place 0",
    ),
    (
        CONTRADICTION,
        "{\"above\":[1,2,1],\"at_ranks\":[2,2],\"below\":[1,1],\"item\":\"efficiency\",\"level\":\"9/10\"}",
        "1 Order place 1",
    ),
    (
        CONTRADICTION,
        "{\"above\":[1,2,1],\"at_ranks\":[2,2],\"below\":[1,1],\"item\":\"efficiency\",\"level\":\"3/4\"}",
        "1 NotWeak place 1",
    ),
    (
        CONTRADICTION,
        "{\"cycle\":[1,2,1],\"item\":\"homothetic\",\"start\":\"0\"}",
        "1 Number place 0",
    ),
    (
        CONTRADICTION,
        "{\"item\":\"homothetic\",\"values\":[\"170141183460469231731687303715884105727\",\"1\"]}",
        "1 Wide place 1",
    ),
    (
        CONTRADICTION,
        "{\"item\":\"quasilinear\",\"values\":[\"0\",\"0\"]}",
        "1 Order place 1",
    ),
    (
        APART,
        "{\"cycle\":[1,2,1],\"item\":\"quasilinear\"}",
        "1 NotLess place 0",
    ),
];

#[test]
fn forged_items_are_told_with_reason_and_place(rt: HostRuntime) -> Result<(), Fail> {
    for (table, item, told) in FORGED {
        rejects_items(rt.alloc(), table, item, told)?;
    }
    Ok(())
}

const SEVERAL: &[(&str, &str)] = &[
    // the last of the five alone
    (
        "{\"cycle\":[1,2,1],\"item\":\"garp\"},{\"cycle\":[1,2,1],\"item\":\"afriat\"},{\"above\":[1,2,1],\"at_ranks\":[2,2],\"below\":[1,1],\"item\":\"efficiency\",\"level\":\"4/5\"},{\"cycle\":[1,2,1],\"item\":\"homothetic\",\"start\":\"1\"},{\"item\":\"quasilinear\",\"values\":[\"0\",\"0\"]}",
        "5 Order place 1",
    ),
    (
        "{\"cycle\":[1,2,1],\"item\":\"garp\"},{\"cycle\":[1,2],\"item\":\"afriat\"},{\"cycle\":[1,2,1],\"item\":\"homothetic\",\"start\":\"0\"}",
        "2 NotClosed place 0",
    ),
    // what is withheld claims nothing, and the next item does
    (
        "{\"item\":\"afriat\",\"withheld\":7},{\"item\":\"homothetic\",\"withheld\":[0,9,9]},{\"item\":\"garp\",\"ranks\":[1,1]}",
        "3 Order place 1",
    ),
];

#[test]
fn the_first_item_that_fails_is_told(rt: HostRuntime) -> Result<(), Fail> {
    for (items, told) in SEVERAL {
        rejects_items(rt.alloc(), CONTRADICTION, items, told)?;
    }
    Ok(())
}

/// An item on the demand of 3 at the prices 1 and 1, with these observations below, this inner demand and this
/// upper bound of the second good.
fn demand(alloc: Global, below: &str, inner: &str, upper: &str) -> Result<String, Fail> {
    joined(
        alloc,
        &[
            "{\"below\":[",
            below,
            "],\"expenditure\":\"3\",\"goods\":[{\"lower\":{\"den\":\"1\",\"value\":\"1\",\"x\":[\"1\",\"2\"],\"y\":[[2,\"1\"],[4,\"1\"]]},\"upper\":{\"den\":\"1\",\"value\":\"2\",\"x\":[\"2\",\"1\"],\"y\":[[1,\"1\"],[4,\"1\"]]}},{\"lower\":{\"den\":\"1\",\"value\":\"1\",\"x\":[\"2\",\"1\"],\"y\":[[1,\"1\"],[4,\"1\"]]},\"upper\":{\"den\":\"1\",\"value\":\"",
            upper,
            "\",\"x\":[\"1\",\"2\"],\"y\":[[2,\"1\"],[4,\"1\"]]}}],\"inner\":{\"den\":\"1\",\"num\":[",
            inner,
            "]},\"item\":\"demand\",\"prices\":[\"1\",\"1\"],\"strict\":[]}",
        ],
    )
}

const RANKS: &str = "{\"item\":\"garp\",\"ranks\":[1,1]},";

/// What stands before the item on demand, the observations below, the inner demand, the upper bound, and what fails.
const FORGED_DEMANDS: &[(&str, &str, &str, &str, &str)] = &[
    ("", "1,2", "\"2\",\"1\"", "2", "1 NoGarp place 0"),
    (RANKS, "1", "\"2\",\"1\"", "2", "2 Set place 1"),
    (RANKS, "1,2", "\"3\",\"1\"", "2", "2 Point place 0"),
    (RANKS, "1,2", "\"0\",\"3\"", "2", "2 Point place 2"),
    (RANKS, "1,2", "\"2\",\"1\"", "3", "2 Bound place 4"),
];

#[test]
fn forged_demands_are_told_with_reason_and_place(rt: HostRuntime) -> Result<(), Fail> {
    let alloc = rt.alloc();
    for (before, below, inner, upper, told) in FORGED_DEMANDS {
        let item = demand(alloc, below, inner, upper)?;
        let items = format!(in alloc; "{before}{item}")?;
        rejects_items(alloc, APART, items.as_str(), told)?;
    }
    Ok(())
}

#[test]
fn a_forged_welfare_is_told_with_reason_and_place(rt: HostRuntime) -> Result<(), Fail> {
    let items =
        "{\"item\":\"garp\",\"ranks\":[2,1]},{\"at\":1,\"item\":\"welfare\",\"lower\":{\"den\":\"1\",\"value\":\"4\",\"x\":[\"4\",\"0\"],\"y\":[[1,\"1\"]]},\"observation\":2,\"prices\":[\"1\",\"2\"],\"upper\":\"12\"}";
    rejects_items(rt.alloc(), MORE_AND_LESS, items, "2 Least place 2")
}
