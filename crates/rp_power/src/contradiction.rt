//! Two drawn bundles that contradict each other: most random behaviours have such a pair, which a look at few costs
//! finds before the closure of all of them is made.
ghost use Rattle.std.specs.Prelude.{◌≡◌, ◌<◌, All, IsTrue, OnOk, length};
ghost use Rattle.rp_evidence.specs.Garp.{HasSomeViolation};
ghost use Rattle.rp_evidence.specs.Preference.{IsStrict, IsWeak};
ghost use Rattle.rp_num.specs.Below.{listed};
ghost use Rattle.rp_power.specs.InnerSpent.{cost_among, own_cost_among};
ghost use Rattle.rp_power.specs.PowerCount.{words_of};
ghost use Rattle.rp_table.specs.Limits.{IsQuantity};
ghost use Rattle.rp_table.specs.Tables.{records_of};

use crate::spending::drawn_cost;
use rp_num::NoMemory;
use rp_table::Table;

/// Fills `own` with what the bundle of each observation costs at its own prices.
pub(crate) fn fill_own_costs(
    table: &Table,
    quantities: &[u32],
    own: &mut Vec<u64>,
) -> Result<(), NoMemory>
    requires all { length quantities.now ≡ words_of table.now }
    requires limits { All IsQuantity quantities.now }
    ensures { OnOk result (own.new.items ≡ listed (records_of table.now)
        (own_cost_among table.now quantities.now)) }
{
    own.clear();
    for t in 0..table.n() {
        own.push(drawn_cost(table, quantities, t, t))?;
    }
    Ok(())
}

/// Whether any two bundles contradict each other. If they do, the quantities violate the axiom; if none do, they may
/// all the same.
pub(crate) fn has_contradiction(table: &Table, quantities: &[u32], own: &[u64]) -> bool
    requires all { length quantities.now ≡ words_of table.now }
    requires limits { All IsQuantity quantities.now }
    requires own { own.now ≡ listed (records_of table.now) (own_cost_among table.now quantities.now) }
    ensures { IsTrue result → HasSomeViolation (records_of table.now)
        (IsWeak (cost_among table.now quantities.now))
        (IsStrict (cost_among table.now quantities.now)) }
{
    for t in 0..table.n() {
        if contradicts_earlier(table, quantities, own, t) {
            return true;
        }
    }
    false
}

/// Whether the bundle of `t` contradicts that of an observation before it.
fn contradicts_earlier(table: &Table, quantities: &[u32], own: &[u64], t: u32) -> bool
    requires all { length quantities.now ≡ words_of table.now }
    requires limits { All IsQuantity quantities.now }
    requires own { own.now ≡ listed (records_of table.now) (own_cost_among table.now quantities.now) }
    requires observed { t < records_of table.now }
    ensures { IsTrue result → HasSomeViolation (records_of table.now)
        (IsWeak (cost_among table.now quantities.now))
        (IsStrict (cost_among table.now quantities.now)) }
{
    for s in 0..t {
        if contradict(table, quantities, own, s, t) {
            return true;
        }
    }
    false
}

/// Whether of two bundles each costs no more than the other where the other is bought, and one of them less.
fn contradict(table: &Table, quantities: &[u32], own: &[u64], s: u32, t: u32) -> bool
    requires all { length quantities.now ≡ words_of table.now }
    requires limits { All IsQuantity quantities.now }
    requires own { own.now ≡ listed (records_of table.now) (own_cost_among table.now quantities.now) }
    requires first { s < records_of table.now }
    requires second { t < records_of table.now }
    ensures { IsTrue result → HasSomeViolation (records_of table.now)
        (IsWeak (cost_among table.now quantities.now))
        (IsStrict (cost_among table.now quantities.now)) }
{
    let spent = own[s as usize];
    let other = drawn_cost(table, quantities, s, t);
    if other > spent {
        return false;
    }
    let back = drawn_cost(table, quantities, t, s);
    back < own[t as usize] || (other < spent && back == own[t as usize])
}
