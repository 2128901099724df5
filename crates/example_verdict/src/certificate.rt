//! A certificate of a table in memory, and its check.
ghost use Rattle.std.specs.Prelude.{◌≡◌, IfOk};
ghost use Rattle.rp_check.specs.declared.verdict.Verdict.TheVariants.{Accepted};
ghost use Rattle.example_verdict.specs.Certified.{IsCertifiedBy, certificate_of};

use rp_afriat::afriat;
use rp_check::{Verdict, check};
use rp_effic::efficiency;
use rp_evidence::{AfriatPart, Certificate, Efficiency, Garp, Item};
use rp_garp::GarpTest;
use rp_num::NoMemory;
use rp_table::Table;
use std::alloc::Global;

/// A certificate, and what the checker says of it.
#[derive(Debug, Drop)]
pub struct Certified {
    pub certificate: Certificate,
    pub outcome: Verdict,
}

/// The verdicts on a table with their evidence, and what the checker says of them from the table and the evidence
/// alone.
pub fn certify(alloc: Global, table: &Table) -> Result<Certified, NoMemory>
    ensures proves { IfOk result (λ made. IsCertifiedBy table.now made.certificate) }
    ensures accepted { IfOk result (λ made. made.outcome ≡ Accepted) }
{
    let tested = GarpTest::of(alloc, table)?;
    let afriat = afriat(alloc, &tested)?;
    let efficiency = efficiency(alloc, &tested.costs)?;
    let certificate = certificate(alloc, table, tested.garp, afriat, efficiency)?;
    let outcome = check(table, &tested.costs, &certificate);
    Ok(Certified {
        certificate,
        outcome,
    })
}

/// The certificate of a table with these three verdicts.
fn certificate(
    alloc: Global,
    table: &Table,
    garp: Garp,
    afriat: AfriatPart,
    efficiency: Efficiency,
) -> Result<Certificate, NoMemory>
    ensures { IfOk result (λ made. made ≡ certificate_of table.now.levels garp afriat efficiency) }
{
    let mut items = Vec::new(alloc);
    items.push(Item::Garp(garp))?;
    items.push(Item::Afriat(afriat))?;
    items.push(Item::Efficiency(efficiency))?;
    Certificate::of_table(alloc, table.levels(), items)
}
