//! The evidence of demand and of the money metric at new prices.
ghost use Rattle.std.specs.Prelude.{◌≡◌, sum_by};
ghost use Rattle.rp_evidence.specs.Clauses.{cap};
ghost use Rattle.rp_evidence.specs.DemandEvidence.{withheld_bound, withheld_demand, withheld_good};
ghost use Rattle.rp_evidence.specs.DemandEvidence.{withheld_welfare};

use rp_farkas::Pair;
use rp_num::{Frac, Seq};

/// A bound with the equal pair of its program, or the step at which the run of the program passes its width.
#[derive(Debug, Drop)]
pub enum Bound {
    Shown { value: Frac, pair: Pair },
    Wide { step: u64 },
}

/// What supporting demands have of a good, at least and at most.
#[derive(Debug, Drop)]
pub struct GoodBounds {
    pub lower: Bound,
    pub upper: Bound,
}

/// A bundle of fractions: one numerator for each good, over one denominator.
#[derive(Debug, Drop)]
pub struct Point {
    pub den: u64,
    pub num: Seq<u64>,
}

/// Demand at new prices: the observations below the new budget and those strictly below, from 0; one supporting
/// demand; the bounds of each good. Or a violation of the table, which then supports none.
#[derive(Debug, Drop)]
pub enum DemandPart {
    Bounds {
        below: Seq<u32>,
        strict: Seq<u32>,
        inner: Point,
        goods: Seq<GoodBounds>,
    },
    NoModel(Seq<u32>),
}

/// The money metric at new prices: the least cost of a bundle of the table that is at least as good, where it is first
/// found, and a bound from below. Or a violation of the table.
#[derive(Debug, Drop)]
pub enum WelfarePart {
    Bounds { upper: u64, at: u32, lower: Bound },
    NoModel(Seq<u32>),
}

impl Bound {
    /// 1 where the bound is withheld.
    pub fn withheld(&self) -> u32
        ensures { result ≡ withheld_bound self.now }
    {
        match self {
            Bound::Shown { .. } => 0,
            Bound::Wide { .. } => 1,
        }
    }
}

impl GoodBounds {
    /// How many of the two bounds are withheld.
    fn withheld(&self) -> u32
        ensures { result ≡ withheld_good self.now }
    {
        self.lower.withheld() + self.upper.withheld()
    }
}

impl DemandPart {
    /// How many bounds are withheld, up to 2^32 - 1.
    pub fn withheld(&self) -> u32
        ensures { result ≡ cap (withheld_demand self.now) }
    {
        match self {
            DemandPart::Bounds { goods, .. } => withheld_in_goods(goods.as_slice()),
            DemandPart::NoModel(_) => 0,
        }
    }
}

/// How many bounds of goods are withheld, up to 2^32 - 1.
fn withheld_in_goods(goods: &[GoodBounds]) -> u32
    ensures { result ≡ cap (sum_by withheld_good goods.now) }
{
    let mut total: u32 = 0;
    for bounds in goods {
        total = total.saturating_add(bounds.withheld());
    }
    total
}

impl WelfarePart {
    /// 1 where the lower bound is withheld.
    pub fn withheld(&self) -> u32
        ensures { result ≡ withheld_welfare self.now }
    {
        match self {
            WelfarePart::Bounds { lower, .. } => lower.withheld(),
            WelfarePart::NoModel(_) => 0,
        }
    }
}
