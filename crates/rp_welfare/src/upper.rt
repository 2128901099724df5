//! The bound on the money metric from above.
ghost use Rattle.std.specs.Prelude.{◌≡◌, ◌<◌, ◌↔◌, IsTrue, slice_index};
ghost use Rattle.rp_evidence.specs.Input.{input_of_table};
ghost use Rattle.rp_table.specs.Tables.{records_of};
ghost use Rattle.rp_pref.specs.Closure.{IsWeakClosureOf};
ghost use Rattle.rp_welfare.specs.InnerCheapest.{IsBefore, cost_at_prices};
ghost use Rattle.rp_welfare.specs.WelfareVerdict.{IsFirstCheapest};

use rp_pref::Closure;
use rp_table::NewPrices;

/// An observation, and what its bundle costs at the new prices.
#[derive(Clone, Copy)]
pub(crate) struct Cheapest {
    pub(crate) at: u32,
    pub(crate) cost: u64,
}

/// The first observation of least cost among those that equal or reach `t`.
pub(crate) fn first_cheapest(new: &NewPrices, closure: &Closure, t: u32) -> Cheapest
    requires closes { IsWeakClosureOf closure.now (input_of_table new.now.table.now) }
    requires observed { t < records_of new.now.table.now }
    ensures { IsFirstCheapest (input_of_table new.now.table.now) (slice_index new.now.prices.now)
        t result.at result.cost }
{
    let mut best = priced(new, t);
    for s in 0..new.table.n() {
        if closure.equals_or_reaches(s, t) {
            let other = priced(new, s);
            if is_before(other, best) {
                best = other;
            }
        }
    }
    best
}

/// Whether one costs less than the other, or the same and comes before it.
fn is_before(one: Cheapest, other: Cheapest) -> bool
    ensures { IsTrue result ↔ IsBefore one.cost one.at other.cost other.at }
{
    one.cost < other.cost || one.cost == other.cost && one.at < other.at
}

/// The observation `s` with the cost of its bundle.
fn priced(new: &NewPrices, s: u32) -> Cheapest
    requires { s < records_of new.now.table.now }
    ensures at { result.at ≡ s }
    ensures exact { result.cost
        ≡ cost_at_prices new.now.table.now (slice_index new.now.prices.now) s }
{
    Cheapest {
        at: s,
        cost: new.spending(s),
    }
}
