//! How many random behaviours fail the axiom.
ghost use Rattle.std.specs.Prelude.{◌≡◌, ◌↔◌, ◌*◌, [], All, IfOk, IsTrue, OnOk, length};
ghost use Rattle.rp_power.specs.Words.{after_words, word_after};
ghost use Rattle.rp_evidence.specs.Preference.{IsStrict, IsWeak};
ghost use Rattle.rp_evidence.specs.Garp.{HasSomeViolation};
ghost use Rattle.rp_num.specs.Below.{listed};
ghost use Rattle.rp_power.specs.PowerCount.{IsPowerCount, words_of};
ghost use Rattle.rp_power.specs.InnerSpent.{cost_among, cost_in};
ghost use Rattle.rp_table.specs.Cost.{IsCostsOf};
ghost use Rattle.rp_table.specs.Limits.{IsQuantity};
ghost use Rattle.rp_table.specs.Tables.{records_of};

use crate::behaviour::draw_quantities;
use crate::contradiction::{fill_own_costs, has_contradiction};
use crate::spending::{Spending, fill_costs};
use crate::words::{draw, generator};
use rand_pcg::Lcg64Xsh32;
use rp_garp::meets_garp_over;
use rp_num::NoMemory;
use rp_table::{Costs, Table};
use std::alloc::Global;

/// How many of so many random behaviours on the budgets of a table fail the generalized axiom of revealed preference,
/// each drawn by the next words of the seed's generator. One behaviour at a time is in memory, each where the one
/// before it was.
pub fn power(
    alloc: Global,
    table: &Table,
    costs: &Costs,
    seed: u64,
    draws: u32,
) -> Result<u32, NoMemory>
    requires no_levels { table.now.levels ≡ [] }
    requires of_table { IsCostsOf costs.now table.now }
    ensures { IfOk result (IsPowerCount table.now seed draws) }
{
    let mut generator = generator(seed);
    let mut words = Vec::new(alloc);
    let mut shares = Vec::new(alloc);
    let mut bundle = Vec::new(alloc);
    let mut quantities = Vec::new(alloc);
    let mut own = Vec::new(alloc);
    let mut every = Vec::new(alloc);
    let mut violations = 0;
    for _ in 0..draws {
        draw_words(&mut generator, table.n() * table.goods(), &mut words)?;
        let drawn = words.as_slice();
        draw_quantities(
            table,
            costs,
            drawn,
            &mut shares,
            &mut bundle,
            &mut quantities,
        )?;
        let failed = quantities_fail(alloc, table, quantities.as_slice(), &mut own, &mut every)?;
        violations += u32::from(failed);
    }
    Ok(violations)
}

/// Fills `words` with the next so many words of a generator.
fn draw_words(generator: &mut Lcg64Xsh32, count: u32, words: &mut Vec<u32>) -> Result<(), NoMemory>
    ensures drawn { OnOk result (words.new.items ≡ listed count (word_after generator.old)) }
    ensures moved { OnOk result (generator.new ≡ after_words generator.old count) }
{
    words.clear();
    for _ in 0..count {
        words.push(draw(generator))?;
    }
    Ok(())
}

/// Whether quantities, by observation and then good, fail the axiom at the prices of a table. The costs of bundles where
/// they are bought stand in `own`. Those of all bundles at all prices stand in `every`, where no two bundles contradict
/// each other.
pub fn quantities_fail(
    alloc: Global,
    table: &Table,
    quantities: &[u32],
    own: &mut Vec<u64>,
    every: &mut Vec<u64>,
) -> Result<bool, NoMemory>
    requires all { length quantities.now ≡ words_of table.now }
    requires limits { All IsQuantity quantities.now }
    ensures { IfOk result (λ failed. IsTrue failed ↔ HasSomeViolation (records_of table.now)
        (IsWeak (cost_among table.now quantities.now))
        (IsStrict (cost_among table.now quantities.now))) }
{
    fill_own_costs(table, quantities, own)?;
    if has_contradiction(table, quantities, own.as_slice()) {
        return Ok(true);
    }
    fill_costs(table, quantities, every)?;
    fails(alloc, table, every.as_slice())
}

/// Whether costs, by prices and then bundles, fail the axiom.
fn fails(alloc: Global, table: &Table, costs: &[u64]) -> Result<bool, NoMemory>
    requires { length costs.now ≡ records_of table.now * records_of table.now }
    ensures { IfOk result (λ failed. IsTrue failed ↔ HasSomeViolation (records_of table.now)
        (IsWeak (cost_in (records_of table.now) costs.now))
        (IsStrict (cost_in (records_of table.now) costs.now))) }
{
    let n = table.n();
    let holds = meets_garp_over(alloc, &Spending { n, costs })?;
    Ok(!holds)
}
