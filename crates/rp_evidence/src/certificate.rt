//! Certificates and their items.
ghost use Rattle.std.specs.Prelude.{◌≡◌, IfOk, sum_by};
ghost use Rattle.rp_evidence.specs.Certificates.{random_certificate, table_certificate};
ghost use Rattle.rp_evidence.specs.Certificates.{version_of};
ghost use Rattle.rp_evidence.specs.Clauses.{cap};
ghost use Rattle.rp_evidence.specs.Withheld.{withheld_in};

use crate::afriat::AfriatPart;
use crate::demand::{DemandPart, WelfarePart};
use crate::efficiency::Efficiency;
use crate::garp::Garp;
use crate::homothetic::Homothetic;
use crate::quasilinear::Quasi;
use crate::random::RandomPart;
use rp_num::{NoMemory, Seq};
use std::alloc::Global;

/// One verdict with its evidence.
#[derive(Debug, Drop)]
pub enum Item {
    Garp(Garp),
    Afriat(AfriatPart),
    Efficiency(Efficiency),
    Homothetic(Homothetic),
    Quasi(Quasi),
    Demand {
        prices: Seq<u32>,
        m: u64,
        part: DemandPart,
    },
    Welfare {
        prices: Seq<u32>,
        of: u32,
        part: WelfarePart,
    },
    Random {
        total: u64,
        part: RandomPart,
    },
}

/// What a certificate is about: a table of prices and bundles, or random choices from budgets.
#[derive(Clone, Copy, Debug, PartialEq, Eq)]
pub enum Kind {
    Table,
    Random,
}

/// Verdicts with their evidence, in the order in which they are printed. Where the observations of the table have
/// levels, these stand here in thousandths, by observation, and the version is 2; else it is 1 and there are none.
#[derive(Debug, Drop)]
pub struct Certificate {
    pub kind: Kind,
    pub version: u32,
    pub levels: Seq<u32>,
    pub items: Seq<Item>,
}

impl Certificate {
    /// The certificate of a table, whose levels are in thousandths, by observation, or none.
    pub fn of_table(
        alloc: Global,
        levels: &[u32],
        items: Vec<Item>,
    ) -> Result<Certificate, NoMemory>
        ensures { IfOk result (λ made. made ≡ table_certificate levels.now items.items) }
    {
        let version = version_of(levels);
        let levels = Vec::from_slice(alloc, levels)?;
        Ok(Certificate {
            kind: Kind::Table,
            version,
            levels: Seq::from_vec(levels),
            items: Seq::from_vec(items),
        })
    }

    /// The certificate of random choices from budgets, whose total of units is the same in each.
    pub fn of_random(alloc: Global, total: u64, part: RandomPart) -> Result<Certificate, NoMemory>
        ensures { IfOk result (λ made. made ≡ random_certificate total part) }
    {
        let mut items = Vec::new(alloc);
        items.push(Item::Random { total, part })?;
        Ok(Certificate {
            kind: Kind::Random,
            version: 1,
            levels: Seq::from_vec(Vec::new(alloc)),
            items: Seq::from_vec(items),
        })
    }
}

/// The version of a certificate with these levels.
fn version_of(levels: &[u32]) -> u32
    ensures { result ≡ version_of levels.now }
{
    if levels.is_empty() { 1 } else { 2 }
}

/// How many values an item leaves out because their computation passed its width, up to 2^32 - 1.
fn withheld_in_item(item: &Item) -> u32
    ensures { result ≡ cap (withheld_in item.now) }
{
    match item {
        Item::Garp(_) => 0,
        Item::Afriat(part) => part.withheld(),
        Item::Efficiency(_) => 0,
        Item::Homothetic(verdict) => verdict.withheld(),
        Item::Quasi(_) => 0,
        Item::Demand { part, .. } => part.withheld(),
        Item::Welfare { part, .. } => part.withheld(),
        Item::Random { part, .. } => part.withheld(),
    }
}

/// The number of values that the certificate leaves out because their computation passed its width, cut off at
/// 2^32 - 1.
pub fn withheld(c: &Certificate) -> u32
    ensures { result ≡ cap (sum_by withheld_in c.now.items) }
{
    let mut total: u32 = 0;
    for item in c.items.as_slice() {
        total = total.saturating_add(withheld_in_item(item));
    }
    total
}
