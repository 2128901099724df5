//! Evidence on goodness of fit, of whatever origin.
use rp_evidence::{Efficiency, Garp, Level};
use rp_fit::{
    FitItem, Group, GroupKind, HomotheticLevelPart, KeptPart, Lack, LevelsPart, PumpPart,
    QuasilinearLevelPart, StepsPart, ViolationsPart, WeightedWalk,
};
use rp_num::Seq;
use std::alloc::Global;
use std::test::Fail;

/// The weight of a group, what kind of group it is, and its observations.
pub(crate) type Grouped = (u32, GroupKind, &'static [u32]);

/// The weight of a closed walk, and its observations.
pub(crate) type Weighted = (u64, &'static [u32]);

/// Evidence, by what it says in numbers. Observations are numbered from 0, as in code.
#[derive(Clone, Copy)]
pub(crate) enum Forged {
    /// The pairs that violate GARP, its weak form, WARP and SARP, and the observations in some pair of GARP.
    Violations([u32; 5]),
    /// The level of an efficiency index, ranks below it, a walk above it, and ranks at it.
    Efficiency((u64, u64), &'static [u32], &'static [u32], &'static [u32]),
    /// Kept observations, their ranks, a denominator, groups over it, and how many observations they allow.
    Kept(&'static [u32], &'static [u32], u32, &'static [Grouped], u32),
    /// Whose bundle gives each level, with ranks, a denominator, and walks over it.
    Levels(Lack, &'static [u32], &'static [u32], u64, &'static [Weighted]),
    /// Steps that are taken away, what they cost, ranks, a denominator, and walks over it.
    Steps(&'static [&'static [u32]], u128, &'static [u32], u64, &'static [Weighted]),
    /// A ratio, a walk that has it, and values.
    Pump(u64, u64, &'static [u32], &'static [i128]),
    /// A level, a walk that has it, and values.
    Quasilinear(u64, u64, &'static [u32], &'static [i128]),
    /// Both bounds over 2^40, a walk with a mean of at most the upper one, and values.
    Homothetic(u64, u64, &'static [u32], &'static [u64]),
}

/// A list of numbers.
fn list(alloc: Global, numbers: &[u32]) -> Result<Seq<u32>, Fail> {
    Ok(Seq::from_vec(Vec::from_slice(alloc, numbers)?))
}

/// Numbers of violating pairs.
fn violations(numbers: [u32; 5]) -> FitItem {
    let [garp, weak_garp, warp, sarp, observations] = numbers;
    FitItem::Violations(ViolationsPart {
        garp,
        weak_garp,
        warp,
        sarp,
        observations,
    })
}

/// An efficiency index that is attained.
fn efficiency(
    alloc: Global,
    level: (u64, u64),
    below: &[u32],
    above: &[u32],
    at: &[u32],
) -> Result<FitItem, Fail> {
    let (num, den) = level;
    let below = list(alloc, below)?;
    let above = list(alloc, above)?;
    let at = Garp::Ranks(list(alloc, at)?);
    Ok(FitItem::Efficiency(Efficiency {
        level: Level { num, den },
        below,
        above,
        at,
    }))
}

/// Groups of observations.
fn groups_of(alloc: Global, rows: &[Grouped]) -> Result<Seq<Group>, Fail> {
    let mut groups = Vec::new(alloc);
    for k in 0..rows.len() {
        let (weight, kind, members) = rows[k];
        let members = list(alloc, members)?;
        groups.push(Group {
            weight,
            kind,
            members,
        })?;
    }
    Ok(Seq::from_vec(groups))
}

/// Kept observations.
fn kept(
    alloc: Global,
    observations: &[u32],
    ranks: &[u32],
    den: u32,
    groups: &[Grouped],
    most: u32,
) -> Result<FitItem, Fail> {
    let kept = list(alloc, observations)?;
    let ranks = list(alloc, ranks)?;
    let groups = groups_of(alloc, groups)?;
    Ok(FitItem::Kept(KeptPart {
        kept,
        ranks,
        den,
        groups,
        most,
    }))
}

/// Closed walks with weights.
fn walks_of(alloc: Global, rows: &[Weighted]) -> Result<Seq<WeightedWalk>, Fail> {
    let mut walks = Vec::new(alloc);
    for k in 0..rows.len() {
        let (weight, walk) = rows[k];
        let walk = list(alloc, walk)?;
        walks.push(WeightedWalk { weight, walk })?;
    }
    Ok(Seq::from_vec(walks))
}

/// Levels.
fn levels(
    alloc: Global,
    lack: Lack,
    at: &[u32],
    ranks: &[u32],
    den: u64,
    walks: &[Weighted],
) -> Result<FitItem, Fail> {
    let at = list(alloc, at)?;
    let ranks = list(alloc, ranks)?;
    let walks = walks_of(alloc, walks)?;
    Ok(FitItem::Levels(LevelsPart {
        lack,
        at,
        ranks,
        den,
        walks,
    }))
}

/// For each observation the steps from it that are taken away.
fn rows_of(alloc: Global, rows: &[&[u32]]) -> Result<Seq<Seq<u32>>, Fail> {
    let mut taken = Vec::new(alloc);
    for k in 0..rows.len() {
        taken.push(list(alloc, rows[k])?)?;
    }
    Ok(Seq::from_vec(taken))
}

/// Steps that are taken away.
fn steps(
    alloc: Global,
    rows: &[&[u32]],
    cost: u128,
    ranks: &[u32],
    den: u64,
    walks: &[Weighted],
) -> Result<FitItem, Fail> {
    let taken = rows_of(alloc, rows)?;
    let ranks = list(alloc, ranks)?;
    let walks = walks_of(alloc, walks)?;
    Ok(FitItem::Steps(StepsPart {
        taken,
        cost,
        ranks,
        den,
        walks,
    }))
}

/// A money pump.
fn pump(
    alloc: Global,
    num: u64,
    den: u64,
    cycle: &[u32],
    values: &[i128],
) -> Result<FitItem, Fail> {
    let cycle = list(alloc, cycle)?;
    let values = Seq::from_vec(Vec::from_slice(alloc, values)?);
    Ok(FitItem::Pump(PumpPart {
        num,
        den,
        cycle,
        values,
    }))
}

/// A level of the quasilinear test.
fn quasilinear(
    alloc: Global,
    num: u64,
    den: u64,
    walk: &[u32],
    values: &[i128],
) -> Result<FitItem, Fail> {
    let walk = list(alloc, walk)?;
    let values = Seq::from_vec(Vec::from_slice(alloc, values)?);
    Ok(FitItem::QuasilinearLevel(QuasilinearLevelPart {
        num,
        den,
        walk,
        values,
    }))
}

/// Bounds on the level of the homothetic test.
fn homothetic(
    alloc: Global,
    low: u64,
    high: u64,
    walk: &[u32],
    values: &[u64],
) -> Result<FitItem, Fail> {
    let walk = list(alloc, walk)?;
    let values = Seq::from_vec(Vec::from_slice(alloc, values)?);
    Ok(FitItem::HomotheticLevel(HomotheticLevelPart {
        low,
        high,
        walk,
        values,
    }))
}

/// The item of a certificate.
fn item_of(alloc: Global, forged: Forged) -> Result<FitItem, Fail> {
    match forged {
        Forged::Violations(numbers) => Ok(violations(numbers)),
        Forged::Efficiency(level, below, above, at) => efficiency(alloc, level, below, above, at),
        Forged::Kept(observations, ranks, den, groups, most) => {
            kept(alloc, observations, ranks, den, groups, most)
        }
        Forged::Levels(lack, at, ranks, den, walks) => levels(alloc, lack, at, ranks, den, walks),
        Forged::Steps(rows, cost, ranks, den, walks) => {
            steps(alloc, rows, cost, ranks, den, walks)
        }
        Forged::Pump(num, den, cycle, values) => pump(alloc, num, den, cycle, values),
        Forged::Quasilinear(num, den, walk, values) => quasilinear(alloc, num, den, walk, values),
        Forged::Homothetic(low, high, walk, values) => homothetic(alloc, low, high, walk, values),
    }
}

/// The items of a certificate, in their order.
pub(crate) fn items_of(alloc: Global, all: &[Forged]) -> Result<Vec<FitItem>, Fail> {
    let mut items = Vec::new(alloc);
    for k in 0..all.len() {
        items.push(item_of(alloc, all[k])?)?;
    }
    Ok(items)
}
