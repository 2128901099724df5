//! What choices spent of the budgets that were offered.
ghost use Rattle.std.specs.Prelude.{◌≡◌, ◌<◌, ◌≤◌, ◌^◌};
ghost use Rattle.rp_limits.specs.declared.table.TheConstants.{LARGEST};
ghost use Rattle.rp_table.specs.Tables.{goods_of, records_of};
ghost use Rattle.rp_offered.specs.Offered.{AreFew, IsSmall, costs_less, costs_more, count_below};
ghost use Rattle.rp_offered.specs.Offered.{halves, least_below, offer_at, offered_of};
ghost use Rattle.rp_offered.specs.Offered.{share_millionths};

use crate::arithmetic::{cost, product, scaled, ten_to};
use rp_table::Table;

/// How many decimal places intercepts have, and how many quantities.
#[derive(Clone, Copy, Debug)]
pub struct Places {
    pub prices: u8,
    pub quantities: u8,
}

/// The intercepts `a` and `b` of two goods, and how much of them was chosen, `x` and `y`: each in halves of the last
/// decimal place.
#[derive(Clone, Copy, Debug)]
pub struct Offer {
    a: u64,
    b: u64,
    x: u64,
    y: u64,
}

/// The least share of the offered budget that a choice spent, in millionths, rounded down; and how many choices cost less,
/// and how many more, than was offered by more than rounding explains.
#[derive(Clone, Copy, Debug)]
pub struct Offered {
    pub least: u128,
    pub below: u32,
    pub over: u32,
}

/// What the choices of a table of two goods spent, where each price is the intercept of the other good, and all numbers of
/// the file have so many decimal places.
pub fn offered_of(places: Places, table: &Table) -> Offered
    requires few { AreFew places }
    requires two { goods_of table.now ≡ 2 }
    ensures { result ≡ offered_of places table.now }
{
    Offered {
        least: least_share(table),
        below: count_less(places, table),
        over: count_more(places, table),
    }
}

/// The least share, in millionths, rounded down.
fn least_share(table: &Table) -> u128
    requires { goods_of table.now ≡ 2 }
    ensures { result ≡ least_below (records_of table.now) (share_millionths table.now) }
{
    prove!(table.n() >= 1);
    let mut least = share(table, 0);
    for t in 0..table.n() {
        least = least.min(share(table, t));
    }
    least
}

/// How many choices cost less than was offered by more than rounding explains.
fn count_less(places: Places, table: &Table) -> u32
    requires few { AreFew places }
    requires two { goods_of table.now ≡ 2 }
    ensures { result ≡ count_below (records_of table.now)
        (λ t. costs_less places (offer_at places table.now t)) }
{
    let mut count = 0;
    for t in 0..table.n() {
        if costs_less(places, offer_at(places, table, t)) {
            count += 1;
        }
    }
    count
}

/// How many choices cost more than was offered by more than rounding explains.
fn count_more(places: Places, table: &Table) -> u32
    requires few { AreFew places }
    requires two { goods_of table.now ≡ 2 }
    ensures { result ≡ count_below (records_of table.now)
        (λ t. costs_more places (offer_at places table.now t)) }
{
    let mut count = 0;
    for t in 0..table.n() {
        if costs_more(places, offer_at(places, table, t)) {
            count += 1;
        }
    }
    count
}

/// The share of what was offered that the choice of observation `t` spent, in millionths, rounded down.
fn share(table: &Table, t: u32) -> u128
    requires two { goods_of table.now ≡ 2 }
    requires observed { t < records_of table.now }
    ensures { result ≡ share_millionths table.now t }
{
    prove!(table.n() >= 1);
    let b = u64::from(table.price(t, 0));
    let a = u64::from(table.price(t, 1));
    let x = u64::from(table.quantity(t, 0));
    let y = u64::from(table.quantity(t, 1));
    let spent = scaled(cost(x, b, y, a), table.price_places()) * 1_000_000;
    spent / scaled(product(a, b), table.quantity_places())
}

/// What was offered and chosen at observation `t`.
fn offer_at(places: Places, table: &Table, t: u32) -> Offer
    requires few { AreFew places }
    requires two { goods_of table.now ≡ 2 }
    requires observed { t < records_of table.now }
    ensures exact { result ≡ offer_at places table.now t }
    ensures small { IsSmall result }
{
    let prices = table.price_places();
    let quantities = table.quantity_places();
    Offer {
        a: halves(places.prices, prices, table.price(t, 1)),
        b: halves(places.prices, prices, table.price(t, 0)),
        x: halves(places.quantities, quantities, table.quantity(t, 0)),
        y: halves(places.quantities, quantities, table.quantity(t, 1)),
    }
}

/// A scaled number in halves of the last of so many decimal places.
fn halves(places: u8, own: u8, n: u32) -> u64
    requires few { places ≤ 6 }
    requires small { n ≤ LARGEST }
    ensures exact { result ≡ halves places own n }
    ensures fits { result ≤ 20000000000000 }
{
    2 * u64::from(n) * ten_to(places.saturating_sub(own))
}

/// Whether a choice cost less than was offered by more than rounding explains.
fn costs_less(places: Places, offer: Offer) -> bool
    requires few { AreFew places }
    requires small { IsSmall offer }
    ensures { result ≡ costs_less places offer }
{
    let a = offer.a.saturating_sub(1);
    let b = offer.b.saturating_sub(1);
    let spent = cost(offer.x + 1, b, offer.y + 1, a);
    scaled(spent, places.prices) < scaled(product(a, b), places.quantities)
}

/// Whether a choice cost more than was offered by more than rounding explains.
fn costs_more(places: Places, offer: Offer) -> bool
    requires few { AreFew places }
    requires small { IsSmall offer }
    ensures { result ≡ costs_more places offer }
{
    let a = offer.a + 1;
    let b = offer.b + 1;
    let spent = cost(offer.x.saturating_sub(1), b, offer.y.saturating_sub(1), a);
    scaled(product(a, b), places.quantities) < scaled(spent, places.prices)
}
