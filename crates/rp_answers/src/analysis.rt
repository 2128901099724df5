//! The answer of `analyse` and `certify`.
ghost use Rattle.std.specs.Prelude.{◌≡◌, IfOk};
ghost use Rattle.rp_evidence.specs.Input.{input_of_table};
ghost use Rattle.rp_answers.specs.AnalysisText.{IsAnalysis, IsAnalysisTextBy, five_items};

use crate::by_costs::{VerdictsByCosts, verdicts_by_costs};
use crate::edition::Edition;
use rp_afriat::afriat;
use rp_evidence::{AfriatPart, Certificate, Item};
use rp_garp::GarpTest;
use rp_num::NoMemory;
use rp_table::Table;
use std::alloc::Global;

/// The report of the verdicts on a table, or their certificate as JSON.
pub fn analysis_text<P: Edition>(
    alloc: Global,
    table: &Table,
    json: bool,
) -> Result<Vec<u8>, NoMemory>
    ensures { IfOk result (λ text. IsAnalysisTextBy P.printed json table.now text.items) }
{
    let certificate = analyse(alloc, table)?;
    let text = P::print_certificate(alloc, table, certificate, json)?;
    Ok(text)
}

/// The certificate of the verdicts on a table.
pub fn analyse(alloc: Global, table: &Table) -> Result<Certificate, NoMemory>
    ensures { IfOk result (IsAnalysis (input_of_table table.now)) }
{
    let tested = GarpTest::of(alloc, table)?;
    let afriat = afriat(alloc, &tested)?;
    let others = verdicts_by_costs(alloc, &tested.costs)?;
    let items = five_items(alloc, tested, afriat, others)?;
    let certificate = Certificate::of_table(alloc, table.levels(), items)?;
    Ok(certificate)
}

/// These five items, in order.
fn five_items(
    alloc: Global,
    tested: GarpTest,
    afriat: AfriatPart,
    others: VerdictsByCosts,
) -> Result<Vec<Item>, NoMemory>
    ensures { IfOk result (λ made. made.items ≡ five_items tested.garp afriat
        others.efficiency others.homothetic others.quasilinear) }
{
    let items = [
        Item::Garp(tested.garp),
        Item::Afriat(afriat),
        Item::Efficiency(others.efficiency),
        Item::Homothetic(others.homothetic),
        Item::Quasi(others.quasilinear),
    ];
    match Vec::from_array(alloc, items) {
        Ok(made) => Ok(made),
        Err(_) => Err(NoMemory),
    }
}
