//! Evidence on a table, of whatever origin.
use crate::checker::bound::{demand, goods, no_demand, no_welfare, shown, true_goods, welfare};
use crate::checker::items::{at, list};
use rp_evidence::{AfriatPart, Bound, Efficiency, Garp, Homothetic, Item, Level, Numbers, Quasi};
use rp_num::{Frac, Seq};
use std::alloc::Global;
use std::process::Abort;
use std::test::Fail;

/// A fraction within its width.
fn fraction(rt: &impl Abort, num: u128, den: u128) -> Frac {
    assert!(rt; den >= 1, "not a fraction");
    assert!(rt;
        num < 1 << 127 && den < 1 << 127,
        "past the width of fractions"
    );
    Frac::new(num, den)
}

/// Ranks, or a cycle.
fn garp(alloc: Global, ranks: bool, numbers: &[u32]) -> Result<Item, Fail> {
    Ok(Item::Garp(at(alloc, ranks, numbers)?))
}

/// Afriat numbers: utilities, and multipliers.
fn model(alloc: Global, u: &[i128], lambda: &[u64]) -> Result<Item, Fail> {
    let u = Seq::from_vec(u.to_vec(alloc)?);
    let lambda = Seq::from_vec(lambda.to_vec(alloc)?);
    Ok(Item::Afriat(AfriatPart::Model(Numbers { u, lambda })))
}

/// An index with ranks below it, a walk above it, and what is shown at it.
fn efficiency(
    alloc: Global,
    level: Level,
    below: &[u32],
    above: &[u32],
    at: Garp,
) -> Result<Item, Fail> {
    let below = list(alloc, below)?;
    let above = list(alloc, above)?;
    Ok(Item::Efficiency(Efficiency {
        level,
        below,
        above,
        at,
    }))
}

/// A walk in place of Afriat numbers.
fn no_model(alloc: Global, walk: &[u32]) -> Result<Item, Fail> {
    Ok(Item::Afriat(AfriatPart::NoModel(list(alloc, walk)?)))
}

/// Values of the homothetic test.
fn products(alloc: Global, values: &[Frac]) -> Result<Item, Fail> {
    Ok(Item::Homothetic(Homothetic::Values(Seq::from_vec(values.to_vec(alloc)?))))
}

/// A start, and a walk along which it is to fall.
fn falling(alloc: Global, start: Frac, walk: &[u32]) -> Result<Item, Fail> {
    let steps = list(alloc, walk)?;
    Ok(Item::Homothetic(Homothetic::Cycle { start, steps }))
}

/// Values of the quasilinear test.
fn sums(alloc: Global, values: &[i128]) -> Result<Item, Fail> {
    Ok(Item::Quasi(Quasi::Values(Seq::from_vec(values.to_vec(alloc)?))))
}

/// A walk of a negative sum.
fn negative(alloc: Global, walk: &[u32]) -> Result<Item, Fail> {
    Ok(Item::Quasi(Quasi::Cycle(list(alloc, walk)?)))
}

/// An index at a level, with ranks below it, a walk above it, and ranks or a cycle at it.
fn index(
    alloc: Global,
    level: (u64, u64),
    below: &[u32],
    above: &[u32],
    ranks: bool,
    numbers: &[u32],
) -> Result<Item, Fail> {
    let (num, den) = level;
    let at = at(alloc, ranks, numbers)?;
    efficiency(alloc, Level { num, den }, below, above, at)
}

/// Two values of the homothetic test or none, as numerators and denominators.
fn products_of(rt: &impl Abort, alloc: Global, values: &[(u128, u128)]) -> Result<Item, Fail> {
    let mut fractions = Vec::new(alloc);
    for (num, den) in values {
        fractions.push(fraction(rt, *num, *den))?;
    }
    products(alloc, fractions.as_slice())
}

/// Demand with the first bound of the first good and the values of all four.
fn demand_within(alloc: Global, first: Bound, values: [u32; 4]) -> Result<Item, Fail> {
    let goods = goods(alloc, first, values[1], values[2], values[3])?;
    demand(alloc, &[0, 1], &[], &[2, 1], 1, goods)
}

/// Evidence on a table, by what it says in numbers. Observations are numbered from 0, as in code.
#[derive(Clone, Copy)]
pub(crate) enum Forged {
    Ranks(&'static [u32]),
    /// A walk as a violation.
    Cycle(&'static [u32]),
    /// Utilities and multipliers.
    Model(&'static [i128], &'static [u64]),
    /// A walk in place of Afriat numbers.
    NoModel(&'static [u32]),
    /// The level of an efficiency index, with the other evidence of the index 4/5 of `CONTRADICTION`.
    LevelOf(u64, u64),
    /// The level of an index, ranks below it, a walk above it, and ranks, or a cycle, at it.
    Index((u64, u64), &'static [u32], &'static [u32], bool, &'static [u32]),
    /// Values of the homothetic test, as numerators and denominators.
    Products(&'static [(u128, u128)]),
    /// A start, as numerator and denominator, and a walk along which it is to fall.
    Falling(u128, u128, &'static [u32]),
    /// Values of the quasilinear test.
    Sums(&'static [i128]),
    /// A walk of a negative sum.
    Negative(&'static [u32]),
    /// Observations below, strictly below, the inner point and its denominator, with the true bounds of both goods.
    Points(&'static [u32], &'static [u32], &'static [u64], u64),
    /// The values of the bounds of both goods, the prices of the first one's pair and its denominator.
    Goods([u32; 4], &'static [u64], u64),
    /// The true bounds of both goods, but the first one withheld.
    WideGoods,
    /// No bounds.
    NoGoods,
    /// Prices and expenditure, with a walk in place of demand.
    NoDemand(&'static [u32], u64),
    /// Prices, observation, upper bound and where it is, value and first price of the lower one.
    Welfare(&'static [u32], u32, u64, u32, u32, u64),
    /// The true upper bound, and the lower one withheld.
    WideWelfare,
    /// An observation, with a walk in place of welfare.
    NoWelfare(u32, &'static [u32]),
}

/// The item of a certificate.
pub(crate) fn item_of(rt: &impl Abort, alloc: Global, forged: Forged) -> Result<Item, Fail> {
    match forged {
        Forged::Ranks(ranks) => garp(alloc, true, ranks),
        Forged::Cycle(walk) => garp(alloc, false, walk),
        Forged::Model(u, lambda) => model(alloc, u, lambda),
        Forged::NoModel(walk) => no_model(alloc, walk),
        Forged::LevelOf(num, den) => index(alloc, (num, den), &[1, 1], &[0, 1, 0], true, &[2, 2]),
        Forged::Index(level, below, above, ranks, numbers) => {
            index(alloc, level, below, above, ranks, numbers)
        }
        Forged::Products(values) => products_of(rt, alloc, values),
        Forged::Falling(num, den, walk) => falling(alloc, fraction(rt, num, den), walk),
        Forged::Sums(values) => sums(alloc, values),
        Forged::Negative(walk) => negative(alloc, walk),
        Forged::Points(below, strict, inner, den) => {
            demand(alloc, below, strict, inner, den, true_goods(alloc)?)
        }
        Forged::Goods(values, x, den) => {
            demand_within(alloc, shown(alloc, values[0], x, &[1, 3], den)?, values)
        }
        Forged::WideGoods => demand_within(alloc, Bound::Wide { step: u64::MAX }, [1, 2, 1, 2]),
        Forged::NoGoods => {
            let none = Seq::from_vec(Vec::new(alloc));
            demand(alloc, &[0, 1], &[], &[2, 1], 1, none)
        }
        Forged::NoDemand(prices, m) => no_demand(alloc, prices, m, &[0, 1, 0]),
        Forged::Welfare(prices, of, upper, at, value, first) => {
            let lower = shown(alloc, value, &[first, 0], &[0], 1)?;
            welfare(alloc, prices, of, upper, at, lower)
        }
        Forged::WideWelfare => welfare(alloc, &[1, 2], 0, 12, 0, Bound::Wide { step: 0 }),
        Forged::NoWelfare(of, walk) => no_welfare(alloc, of, walk),
    }
}
