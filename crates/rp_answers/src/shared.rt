//! What the commands share: a certificate that begins with the verdict on the axiom, and the report of a certificate or
//! its JSON.

ghost use Rattle.rp_evidence.specs.Kinds.{IsCertificateOf};
ghost use Rattle.rp_evidence.specs.declared.certificate.Kind.TheVariants.{Table as TableKind};
ghost use Rattle.rp_agreement.specs.ReadBack.{certificate_from};
ghost use Rattle.rp_answers.specs.ReportOrJson.{report_or_json};
ghost use Rattle.std.specs.Prelude.{IfOk, ◌≡◌};

use rp_evidence::{Certificate, Garp, Item};
use rp_json::write;
use rp_num::NoMemory;
use rp_report::report;
use rp_table::Table;
use std::alloc::Global;

/// The certificate of a table that begins with this verdict on the axiom and goes on with these items.
pub(crate) fn certificate_from(
    alloc: Global,
    table: &Table,
    garp: Garp,
    rest: Vec<Item>,
) -> Result<Certificate, NoMemory>
    ensures { IfOk result (λ made. made ≡ certificate_from table.now.levels garp rest.items) }
{
    let mut items = rest;
    items.insert(0, Item::Garp(garp))?;
    Certificate::of_table(alloc, table.levels(), items)
}

/// The text of a certificate on a table: its report, or its JSON.
pub fn report_or_json(
    alloc: Global,
    certificate: &Certificate,
    table: &Table,
    json: bool,
) -> Result<Vec<u8>, NoMemory>
    requires { IsCertificateOf TableKind certificate.now }
    ensures { IfOk result (λ text. text.items ≡ report_or_json json table.now certificate.now) }
{
    if json {
        write(alloc, certificate)
    } else {
        report(alloc, certificate, table)
    }
}
