//! How many behaviours fail the axiom.
ghost use Rattle.std.specs.Prelude.{◌≡◌, []};
ghost use Rattle.rp_table.specs.Cost.{IsCostsOf};

use crate::measures::behaviours::is_violated;
use rp_power::{draw, drawn, generator, power};
use rp_table::{Costs, Table};
use rp_text::read_table;
use std::alloc::Global;
use std::process::Abort;
use std::test::Fail;
use tests_inputs::tables::{ALONE, CONTRADICTION};

/// Budgets that never cross: the second is the first with twice as much to spend.
pub(crate) const PARALLEL: &str = "p_a,q_a,p_b,q_b\n1,2,1,2\n1,4,1,4\n";

/// How many of so many behaviours on the budgets of a file fail the axiom.
fn counted(rt: &impl Abort, alloc: Global, file: &str, seed: u64, draws: u32) -> Result<u32, Fail> {
    let table = read_table(alloc, file.as_bytes())?;
    assert!(rt; !table.levelled());
    let costs = Costs::of(alloc, &table)?;
    Ok(power(alloc, &table, &costs, seed, draws)?)
}

/// A table, a seed, how many draws, and how many fail.
type Case = (&'static str, u64, u32, u32);

/// The counts by another program, over the generator as its authors publish it.
const COUNTS: &[Case] = &[
    (CONTRADICTION, 0, 1, 1),
    (CONTRADICTION, 7, 1, 0),
    (CONTRADICTION, 7, 100, 4),
    (CONTRADICTION, 7, 1000, 69),
    (CONTRADICTION, 8, 100, 11),
    (CONTRADICTION, 8, 1000, 77),
    (CONTRADICTION, 18_446_744_073_709_551_615, 1000, 60),
    (PARALLEL, 0, 1000, 0),
    (PARALLEL, 7, 1000, 0),
    (ALONE, 7, 10, 0),
];

/// Each count.
fn check_counts(rt: &impl Abort, alloc: Global, cases: &[Case]) -> Result<(), Fail> {
    for i in 0..cases.len() {
        let (file, seed, draws, want) = cases[i];
        let count = counted(rt, alloc, file, seed, draws)?;
        assert!(rt; count == want, "row {i}: {count}");
    }
    Ok(())
}

#[test]
fn counts_of_behaviours(rt: HostRuntime) -> Result<(), Fail> {
    check_counts(&rt, rt.alloc(), COUNTS)
}

/// Whether the behaviour that the words draw fails, by the verdict on its table.
fn fails(
    rt: &impl Abort,
    alloc: Global,
    table: &Table,
    costs: &Costs,
    words: &[u32],
) -> Result<bool, Fail>
    requires no_levels { table.now.levels ≡ [] }
    requires of_table { IsCostsOf costs.now table.now }
{
    assert!(rt; words.len() == table.n() as usize * table.goods() as usize);
    let behaviour = drawn(alloc, table, costs, words)?;
    is_violated(alloc, &behaviour)
}

/// How many behaviours fail by the verdict on the table of each: the words of each are those after the words of the
/// one before it.
fn counted_one_by_one(
    rt: &impl Abort,
    alloc: Global,
    table: &Table,
    costs: &Costs,
    seed: u64,
    draws: u32,
) -> Result<u32, Fail>
    requires no_levels { table.now.levels ≡ [] }
    requires of_table { IsCostsOf costs.now table.now }
{
    let mut generator = generator(seed);
    let mut failed = 0u32;
    for _ in 0..draws {
        let mut words = Vec::new(alloc);
        for _ in 0..table.n() * table.goods() {
            words.push(draw(&mut generator))?;
        }
        if fails(rt, alloc, table, costs, words.as_slice())? {
            failed = failed.saturating_add(1);
        }
    }
    Ok(failed)
}

/// Both counts of 10 behaviours on the budgets of a file.
fn both_counts(rt: &impl Abort, alloc: Global, file: &str, seed: u64) -> Result<(u32, u32), Fail> {
    let table = read_table(alloc, file.as_bytes())?;
    assert!(rt; !table.levelled());
    let costs = Costs::of(alloc, &table)?;
    let count = power(alloc, &table, &costs, seed, 10)?;
    let one_by_one = counted_one_by_one(rt, alloc, &table, &costs, seed, 10)?;
    Ok((count, one_by_one))
}

#[test]
fn counts_by_verdicts(rt: HostRuntime) -> Result<(), Fail> {
    for (seed, want) in [(7u64, 1u32), (8, 2), (42, 0)] {
        let counts = both_counts(&rt, rt.alloc(), CONTRADICTION, seed)?;
        let (count, one_by_one) = counts;
        assert!(rt; count == want, "{seed}");
        assert!(rt; one_by_one == want, "{seed}, one by one");
    }
    Ok(())
}
