//! The preference that a random behaviour reveals.
ghost use Rattle.std.specs.Prelude.{◌≡◌, ◌++◌, ◌+◌, ◌*◌, ◌<◌, ◌≤◌, ℕ, All, OnOk, length, slice_index};
ghost use Rattle.rp_evidence.specs.Preference.{IsStrict, IsWeak};
ghost use Rattle.rp_num.specs.Below.{listed, rows_below};
ghost use Rattle.rp_power.specs.PowerCount.{words_of};
ghost use Rattle.rp_power.specs.InnerSpent.{cost_among, cost_in};
ghost use Rattle.rp_table.specs.Limits.{IsQuantity};
ghost use Rattle.rp_table.specs.Tables.{records_of};
ghost use Rattle.rp_limits.specs.declared.table.TheConstants.{RECORDS};

use rp_num::NoMemory;
use rp_pref::Revealed;
use rp_table::{Table, cost_of_bundle};

/// The preference that costs reveal, by prices and then bundles, where all that is spent counts.
#[derive(Drop)]
pub(crate) struct Spending<'a> {
    pub n: u32,
    pub costs: &'a [u64],
    ghost few: { n ≤ RECORDS },
    ghost all: { length costs.now ≡ n * n },
}

impl Spending<'_> {
    /// What the bundle of `t` costs at the prices of `s`.
    fn cost(&self, s: u32, t: u32) -> u64
        requires prices { s < self.now.n }
        requires bundle { t < self.now.n }
        ensures { result ≡ cost_in self.now.n self.now.costs.now s t }
    {
        self.costs[s as usize * self.n as usize + t as usize]
    }
}

impl Revealed for Spending<'_> {
    ghost use Rattle.rp_evidence.specs.Preference.{IsStrict, IsWeak};
    ghost use Rattle.rp_power.specs.InnerSpent.{cost_in};

    ghost count = { λ b. b.n };

    ghost weak = { λ b. IsWeak (cost_in b.n b.costs.now) };

    ghost strict = { λ b. IsStrict (cost_in b.n b.costs.now) };

    fn n(&self) -> u32 {
        self.n
    }

    fn is_weak(&self, s: u32, t: u32) -> bool {
        self.cost(s, t) <= self.cost(s, s)
    }

    fn is_strict(&self, s: u32, t: u32) -> bool {
        self.cost(s, t) < self.cost(s, s)
    }
}

/// Fills `costs` with what each bundle of the quantities costs at the prices of each observation, by prices and then
/// bundles.
pub(crate) fn fill_costs(
    table: &Table,
    quantities: &[u32],
    costs: &mut Vec<u64>,
) -> Result<(), NoMemory>
    requires all { length quantities.now ≡ words_of table.now }
    requires limits { All IsQuantity quantities.now }
    ensures { OnOk result (costs.new.items ≡ rows_below (records_of table.now)
        (records_of table.now) (cost_among table.now quantities.now)) }
{
    costs.clear();
    for s in 0..table.n() {
        push_costs_at(table, quantities, s, costs)?;
    }
    Ok(())
}

/// Appends what each bundle costs at the prices of observation `s`.
fn push_costs_at(
    table: &Table,
    quantities: &[u32],
    s: u32,
    costs: &mut Vec<u64>,
) -> Result<(), NoMemory>
    requires observed { s < records_of table.now }
    requires all { length quantities.now ≡ words_of table.now }
    requires limits { All IsQuantity quantities.now }
    ensures { OnOk result (costs.new.items ≡ costs.old.items
        ++ listed (records_of table.now) (cost_among table.now quantities.now s)) }
{
    for t in 0..table.n() {
        costs.push(drawn_cost(table, quantities, s, t))?;
    }
    Ok(())
}

/// What the bundle of `t` among quantities costs at the prices of observation `s`, scaled by both scales.
pub(crate) fn drawn_cost(table: &Table, quantities: &[u32], s: u32, t: u32) -> u64
    requires prices { s < records_of table.now }
    requires bundle { t < records_of table.now }
    requires all { length quantities.now ≡ words_of table.now }
    requires limits { All IsQuantity quantities.now }
    ensures { result ≡ cost_among table.now quantities.now s t }
{
    prove!(table.goods() > 0);
    let prices = table.prices(s);
    let bundle = bundle_at(quantities, prices.len(), t);
    cost_of_bundle(prices, bundle)
}

/// The bundle of observation `t` among quantities.
fn bundle_at(quantities: &[u32], goods: usize, t: u32) -> &[u32]
    requires { t * goods + goods ≤ length quantities.now }
    ensures whole { length result.now ≡ goods }
    ensures each { (g : ℕ) → g < goods
        → slice_index result.now g ≡ slice_index quantities.now (t * goods + g) }
    ensures within { All IsQuantity quantities.now → All IsQuantity result.now }
{
    let start = t as usize * goods;
    &quantities[start..start + goods]
}
