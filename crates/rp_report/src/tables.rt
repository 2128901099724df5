//! The report of a certificate on a table.
ghost use Rattle.std.specs.Prelude.{◌≡◌, ◌++◌, IfOk, OnOk};
ghost use Rattle.rp_evidence.specs.Kinds.{IsCertificateOf, IsOfKind};
ghost use Rattle.rp_report.specs.ReportText.{item_text, levels_text, report_text, table_text};

use crate::afriat::push_afriat;
use crate::demand::push_demand;
use crate::efficiency::push_efficiency;
use crate::garp::push_garp;
use crate::homothetic::push_homothetic;
use crate::quasilinear::push_quasilinear;
use crate::welfare::push_welfare;
use rp_evidence::{Certificate, Item, Kind};
use rp_num::NoMemory;
use rp_print::{push_head, push_numbers};
use rp_table::Table;
use std::alloc::Global;

/// The report of a certificate on a table: the lines on the table, and then those of each item.
pub fn report(alloc: Global, certificate: &Certificate, table: &Table) -> Result<Vec<u8>, NoMemory>
    requires { IsCertificateOf Kind.Table certificate.now }
    ensures { IfOk result (λ text. text.items ≡ report_text table.now certificate.now.items) }
{
    let mut text = Vec::new(alloc);
    push_table(alloc, &mut text, table)?;
    for item in certificate.items.as_slice() {
        push_item(alloc, &mut text, item)?;
    }
    Ok(text)
}

/// Appends the line on a table, and that of its levels where it has any.
fn push_table(alloc: Global, out: &mut Vec<u8>, table: &Table) -> Result<(), NoMemory>
    ensures { OnOk result (out.new.items ≡ out.old.items ++ table_text table.now) }
{
    push_head(alloc, out, table)?;
    push_levels(alloc, out, table.levels())
}

/// Appends the line of levels, where there are any.
fn push_levels(alloc: Global, out: &mut Vec<u8>, levels: &[u32]) -> Result<(), NoMemory>
    ensures { OnOk result (out.new.items ≡ out.old.items ++ levels_text levels.now) }
{
    if levels.is_empty() {
        return Ok(());
    }
    push_numbers(alloc, out, b"levels ", levels)
}

/// Appends the lines of an item on a table.
fn push_item(alloc: Global, out: &mut Vec<u8>, item: &Item) -> Result<(), NoMemory>
    requires { IsOfKind Kind.Table item.now }
    ensures { OnOk result (out.new.items ≡ out.old.items ++ item_text item.now) }
{
    match item {
        Item::Garp(verdict) => push_garp(alloc, out, verdict),
        Item::Afriat(evidence) => push_afriat(alloc, out, evidence),
        Item::Efficiency(evidence) => push_efficiency(alloc, out, evidence),
        Item::Homothetic(verdict) => push_homothetic(alloc, out, verdict),
        Item::Quasi(verdict) => push_quasilinear(alloc, out, verdict),
        Item::Demand { prices, m, part } => push_demand(alloc, out, prices.as_slice(), *m, part),
        Item::Welfare { prices, of, part } => push_welfare(
            alloc,
            out,
            prices.as_slice(),
            *of,
            part,
        ),
        Item::Random { .. } => unreachable!(),
    }
}
