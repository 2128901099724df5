//! Tables that words draw.
use rp_evidence::Garp;
use rp_garp::garp;
use rp_power::drawn;
use rp_table::{Costs, Table};
use rp_text::read_table;
use std::alloc::Global;
use std::process::Abort;
use std::test::Fail;
use tests_inputs::tables::CONTRADICTION;

/// Whether two tables have the same names, prices, quantities and places.
fn are_same(one: &Table, other: &Table) -> bool {
    if one.n() != other.n() || one.goods() != other.goods() {
        return false;
    }
    for g in 0..one.goods() {
        if one.name(g).as_bytes() != other.name(g).as_bytes() {
            return false;
        }
    }
    for t in 0..one.n() {
        if one.prices(t) != other.prices(t) || one.bundle(t) != other.bundle(t) {
            return false;
        }
    }
    one.price_places() == other.price_places() && one.quantity_places() == other.quantity_places()
}

/// The table of the behaviour that the words draw on the table of a file.
fn table_drawn(rt: &impl Abort, alloc: Global, file: &str, words: &[u32]) -> Result<Table, Fail> {
    let table = read_table(alloc, file.as_bytes())?;
    assert!(rt; !table.levelled());
    let costs = Costs::of(alloc, &table)?;
    assert!(rt; words.len() == table.n() as usize * table.goods() as usize);
    Ok(drawn(alloc, &table, &costs, words)?)
}

/// A table, words, and the table that they draw.
type Case = (&'static str, &'static [u32], &'static str);

const DRAWN: &[Case] = &[
    // all of the 5 for one good each, in one order and in the other
    (
        CONTRADICTION,
        &[0, 1, 1, 0],
        "p_a,q_a,p_b,q_b\n1,0,2,2\n2,2,1,0\n",
    ),
    (
        CONTRADICTION,
        &[101, 0, 100, 7],
        "p_a,q_a,p_b,q_b\n1,5,2,0\n2,0,1,5\n",
    ),
    // shares 99 and 1 of 100, and 1 and 2 of 3
    (
        CONTRADICTION,
        &[4_294_967_199, 1, 1, 4_294_967_202],
        "p_a,q_a,p_b,q_b\n1,4,2,0\n2,0,1,3\n",
    ),
    // all shares 0: all for the first good
    (
        CONTRADICTION,
        &[0, 0, 200, 4_294_967_200],
        "p_a,q_a,p_b,q_b\n1,5,2,0\n2,2,1,0\n",
    ),
    // no share buys a whole unit: one of the first good
    (
        "p_a,q_a,p_b,q_b\n3,0,3,1\n",
        &[1, 1],
        "p_a,q_a,p_b,q_b\n3,1,3,0\n",
    ),
    // 9,999,999 to spend on the first good at the price 1, one more, and the most
    (
        "p_a,q_a,p_b,q_b\n1,9999999,1,0\n",
        &[1, 0],
        "p_a,q_a,p_b,q_b\n1,9999999,1,0\n",
    ),
    (
        "p_a,q_a,p_b,q_b\n1,9999999,1,1\n",
        &[1, 0],
        "p_a,q_a,p_b,q_b\n1,9999999,1,0\n",
    ),
    (
        "p_a,q_a,p_b,q_b\n1,9999999,9999999,9999999\n",
        &[99, 0],
        "p_a,q_a,p_b,q_b\n1,9999999,9999999,0\n",
    ),
    // 1.5 * 2.5 + 0.25 * 3 = 4.5, of which a half each at the scales of prices and of quantities
    (
        "p_long name,q_long name,q_b,p_b\n1.50,2.5,3,0.25\n",
        &[50, 150],
        "p_long name,q_long name,q_b,p_b\n1.50,1.5,9.0,0.25\n",
    ),
];

/// The words draw a table on a table.
fn check_drawn(
    rt: &impl Abort,
    alloc: Global,
    file: &str,
    words: &[u32],
    want: &str,
) -> Result<(), Fail> {
    let got = table_drawn(rt, alloc, file, words)?;
    let wanted = read_table(alloc, want.as_bytes())?;
    assert!(rt; are_same(&got, &wanted), "{file} {want}");
    Ok(())
}

/// The words of each case draw what it says.
fn check_all_drawn(rt: &impl Abort, alloc: Global, cases: &[Case]) -> Result<(), Fail> {
    for (file, words, want) in cases {
        check_drawn(rt, alloc, file, words, want)?;
    }
    Ok(())
}

#[test]
fn tables_of_words(rt: HostRuntime) -> Result<(), Fail> {
    check_all_drawn(&rt, rt.alloc(), DRAWN)
}

/// Whether a table violates the axiom.
pub(crate) fn is_violated(alloc: Global, table: &Table) -> Result<bool, Fail> {
    let costs = Costs::of(alloc, table)?;
    Ok(matches!(&garp(alloc, &costs)?, Garp::Cycle(_)))
}

/// The costs of two observations.
fn four_costs(rt: &impl Abort, alloc: Global, table: &Table) -> Result<[u64; 4], Fail> {
    let costs = Costs::of(alloc, table)?;
    assert!(rt; costs.n() == 2);
    Ok([
        costs.cost(0, 0),
        costs.cost(0, 1),
        costs.cost(1, 0),
        costs.cost(1, 1),
    ])
}

/// The costs on the table that the words draw, and whether it violates the axiom.
fn check_verdict(
    rt: &impl Abort,
    alloc: Global,
    words: &[u32],
    want: [u64; 4],
    fails: bool,
) -> Result<(), Fail> {
    let table = table_drawn(rt, alloc, CONTRADICTION, words)?;
    let all = four_costs(rt, alloc, &table)?;
    assert!(rt; all == want, "{fails}");
    let is_violated = is_violated(alloc, &table)?;
    assert!(rt; is_violated == fails, "{fails}");
    Ok(())
}

/// All for the second good and then all for the first costs 4 and 2, 2 and 4, so each would have been cheaper than what
/// was bought in its place; the other way round it costs 5 and 10, 10 and 5, and neither could have been bought.
#[test]
fn verdicts_on_drawn_tables(rt: HostRuntime) -> Result<(), Fail> {
    check_verdict(&rt, rt.alloc(), &[0, 1, 1, 0], [4, 2, 2, 4], true)?;
    check_verdict(&rt, rt.alloc(), &[101, 0, 100, 7], [5, 10, 10, 5], false)
}
