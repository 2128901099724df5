//! Evidence on demand and welfare, of whatever origin.
use crate::checker::items::list;
use rp_evidence::{Bound, DemandPart, GoodBounds, Item, Point, WelfarePart};
use rp_farkas::{Entry, Pair};
use rp_num::{Frac, Seq};
use std::alloc::Global;
use std::test::Fail;

/// A bound with its pair over `den`: y is 1 at the columns, from 0, and 0 at every other.
pub(crate) fn shown(
    alloc: Global,
    value: u32,
    x: &[u64],
    columns: &[u32],
    den: u64,
) -> Result<Bound, Fail> {
    let mut y = Vec::new(alloc);
    for column in columns {
        let at = *column;
        y.push(Entry { at, value: 1 })?;
    }
    let y = Seq::from_vec(y);
    let x = Seq::from_vec(x.to_vec(alloc)?);
    let pair = Pair { den, y, x };
    let value = Frac::new(u128::from(value), 1);
    Ok(Bound::Shown { value, pair })
}

/// The bounds of two goods, the first of which is given: each good is from 1 to 2 where 3 is spent at the prices 1
/// and 1, on costs 4, 5; 5, 4. The values are those of the case, and the pairs true ones.
pub(crate) fn goods(
    alloc: Global,
    first: Bound,
    upper: u32,
    other_lower: u32,
    other_upper: u32,
) -> Result<Seq<GoodBounds>, Fail> {
    let mut goods = Vec::new(alloc);
    let upper = shown(alloc, upper, &[2, 1], &[0, 3], 1)?;
    goods.push(GoodBounds {
        lower: first,
        upper,
    })?;
    let lower = shown(alloc, other_lower, &[2, 1], &[0, 3], 1)?;
    let upper = shown(alloc, other_upper, &[1, 2], &[1, 3], 1)?;
    goods.push(GoodBounds { lower, upper })?;
    Ok(Seq::from_vec(goods))
}

/// The true bounds of both goods.
pub(crate) fn true_goods(alloc: Global) -> Result<Seq<GoodBounds>, Fail> {
    let first = shown(alloc, 1, &[1, 2], &[1, 3], 1)?;
    goods(alloc, first, 2, 1, 2)
}

/// Demand at the prices 1 and 1 and the expenditure 3.
pub(crate) fn demand(
    alloc: Global,
    below: &[u32],
    strict: &[u32],
    inner: &[u64],
    den: u64,
    goods: Seq<GoodBounds>,
) -> Result<Item, Fail> {
    let prices = list(alloc, &[1, 1])?;
    let below = list(alloc, below)?;
    let strict = list(alloc, strict)?;
    let num = Seq::from_vec(inner.to_vec(alloc)?);
    let inner = Point { den, num };
    let part = DemandPart::Bounds {
        below,
        strict,
        inner,
        goods,
    };
    Ok(Item::Demand { prices, m: 3, part })
}

/// A violation in place of demand.
pub(crate) fn no_demand(alloc: Global, prices: &[u32], m: u64, walk: &[u32]) -> Result<Item, Fail> {
    let prices = list(alloc, prices)?;
    let part = DemandPart::NoModel(list(alloc, walk)?);
    Ok(Item::Demand { prices, m, part })
}

/// Welfare of the observation `of`: the upper bound is at `at`.
pub(crate) fn welfare(
    alloc: Global,
    prices: &[u32],
    of: u32,
    upper: u64,
    at: u32,
    lower: Bound,
) -> Result<Item, Fail> {
    let prices = list(alloc, prices)?;
    let part = WelfarePart::Bounds { upper, at, lower };
    Ok(Item::Welfare { prices, of, part })
}

/// A violation in place of welfare.
pub(crate) fn no_welfare(alloc: Global, of: u32, walk: &[u32]) -> Result<Item, Fail> {
    let prices = list(alloc, &[1, 2])?;
    let part = WelfarePart::NoModel(list(alloc, walk)?);
    Ok(Item::Welfare { prices, of, part })
}
