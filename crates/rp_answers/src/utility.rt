//! The answer of `utility`.
ghost use Rattle.std.specs.Prelude.{◌≡◌, ◌++◌, IfOk, All, codes, length};
ghost use Rattle.std.specs.Fmt.{signed_decimal};
ghost use Rattle.rp_afriat.specs.AfriatVerdict.{IsOwnAfriatVerdict};
ghost use Rattle.rp_report.specs.ReportText.{report_text};
ghost use Rattle.rp_table.specs.Cost.{IsCostsOf, cost_at};
ghost use Rattle.rp_table.specs.Limits.{IsQuantity};
ghost use Rattle.rp_table.specs.Rows.{rows_count};
ghost use Rattle.rp_table.specs.Tables.{goods_of};
ghost use Rattle.rp_answers.specs.UtilityText.{AreUtilityLines, IsUtilityLine, IsUtilityText};
ghost use Rattle.rp_answers.specs.UtilityText.{at_line};
ghost use Rattle.rp_answers.specs.UtilityText.{first_items};

use rp_afriat::{afriat, utility_at};
use rp_evidence::{AfriatPart, Certificate, Garp, Item};
use rp_garp::GarpTest;
use rp_num::NoMemory;
use rp_print::{Ordinal, Signed, push_after, push_line};
use rp_report::report;
use rp_table::{Bundles, Costs, Table};
use std::alloc::Global;

/// The report of the first two verdicts on a table, and the utility of each bundle.
pub fn utility_text(alloc: Global, table: &Table, bundles: &Bundles) -> Result<Vec<u8>, NoMemory>
    requires { bundles.now.goods ≡ goods_of table.now }
    ensures { IfOk result (λ text. IsUtilityText table.now bundles.now text.items) }
{
    let tested = GarpTest::of(alloc, table)?;
    let afriat = afriat(alloc, &tested)?;
    let lines = utility_lines(alloc, table, &tested.costs, &afriat, bundles)?;
    let mut text = first_report(alloc, table, tested, afriat)?;
    text.extend_from_slice(lines.as_slice())?;
    Ok(text)
}

/// The report of the certificate of a table with these two items.
fn first_report(
    alloc: Global,
    table: &Table,
    tested: GarpTest,
    afriat: AfriatPart,
) -> Result<Vec<u8>, NoMemory>
    ensures { IfOk result (λ text. text.items
        ≡ report_text table.now (first_items table.now.levels tested.garp afriat).items) }
{
    let certificate = certificate(alloc, table, tested.garp, afriat)?;
    let text = report(alloc, &certificate, table)?;
    Ok(text)
}

/// The certificate of a table with these two items.
fn certificate(
    alloc: Global,
    table: &Table,
    garp: Garp,
    afriat: AfriatPart,
) -> Result<Certificate, NoMemory>
    ensures { IfOk result (λ made. made ≡ first_items table.now.levels garp afriat) }
{
    let mut items = Vec::new(alloc);
    items.push(Item::Garp(garp))?;
    items.push(Item::Afriat(afriat))?;
    Certificate::of_table(alloc, table.levels(), items)
}

/// A line for each bundle.
fn utility_lines(
    alloc: Global,
    table: &Table,
    costs: &Costs,
    afriat: &AfriatPart,
    bundles: &Bundles,
) -> Result<Vec<u8>, NoMemory>
    requires of_table { IsCostsOf costs.now table.now }
    requires goods { bundles.now.goods ≡ goods_of table.now }
    requires given { IsOwnAfriatVerdict costs.now.n costs.now.levels (cost_at costs.now)
        afriat.now }
    ensures { IfOk result (λ text. AreUtilityLines table.now afriat.now bundles.now
        (rows_count bundles.now.quantities bundles.now.goods) text.items) }
{
    let mut text = Vec::new(alloc);
    for k in 0..bundles.count() {
        let line = utility_line(alloc, table, costs, afriat, k, bundles.row(k))?;
        text.extend_from_slice(line.as_slice())?;
    }
    Ok(text)
}

/// The line of bundle `k`.
fn utility_line(
    alloc: Global,
    table: &Table,
    costs: &Costs,
    afriat: &AfriatPart,
    k: u32,
    bundle: &[u32],
) -> Result<Vec<u8>, NoMemory>
    requires of_table { IsCostsOf costs.now table.now }
    requires given { IsOwnAfriatVerdict costs.now.n costs.now.levels (cost_at costs.now)
        afriat.now }
    requires goods { length bundle.now ≡ goods_of table.now }
    requires limits { All IsQuantity bundle.now }
    ensures { IfOk result (λ line. IsUtilityLine table.now afriat.now k bundle.now line.items) }
{
    match afriat {
        AfriatPart::Model(numbers) => {
            let value = utility_at(table, costs, numbers, bundle);
            let line = value_line(alloc, k, value)?;
            Ok(line)
        }
        AfriatPart::NoModel(_) => word_line(alloc, k, b" none"),
        AfriatPart::Wide { .. } => word_line(alloc, k, b" withheld"),
    }
}

/// `at K value V`, with the bundle counted from 1.
fn value_line(alloc: Global, k: u32, value: i128) -> Result<Vec<u8>, NoMemory>
    ensures { IfOk result (λ line. line.items
        ≡ at_line k (codes " value " ++ signed_decimal value)) }
{
    let mut line = Vec::new(alloc);
    push_after::<Ordinal>(alloc, &mut line, b"at ", k)?;
    push_after::<Signed>(alloc, &mut line, b" value ", value)?;
    line.push(b'\n')?;
    Ok(line)
}

/// A word at a bundle, which is counted from 1.
fn word_line(alloc: Global, k: u32, word: &[u8]) -> Result<Vec<u8>, NoMemory>
    ensures { IfOk result (λ line. line.items ≡ at_line k word.now) }
{
    let mut line = Vec::new(alloc);
    push_after::<Ordinal>(alloc, &mut line, b"at ", k)?;
    push_line(&mut line, word)?;
    Ok(line)
}
