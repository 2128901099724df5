//! The report of a certificate on goodness of fit.
ghost use Rattle.std.specs.Prelude.{◌≡◌, ◌++◌, IfOk, Ok, OnOk};
ghost use Rattle.rp_check.specs.declared.verdict.Verdict.TheVariants.{Accepted};
ghost use Rattle.rp_check_goodness.specs.FitVerdict.{FitItemFails, IsFitVerdict};
ghost use Rattle.rp_evidence.specs.Input.{input_of_table};
ghost use Rattle.rp_fit_report.specs.FitReportText.{fit_item_text, fit_report_text};

use crate::efficiency::push_efficiency;
use crate::kept::push_kept;
use crate::level_walks::{push_homothetic_level, push_pump_ratio, push_quasilinear_level};
use crate::levels::push_levels;
use crate::steps::push_steps;
use crate::violations::push_violations;
use rp_clauses::input::Input;
use rp_fit::FitItem;
use rp_num::NoMemory;
use rp_print::push_head;
use std::alloc::Global;

/// The report of items that `check_fit` accepts: the line on the table, and then the lines of each item.
pub fn report_fit(alloc: Global, input: &Input<'_>, items: &[FitItem]) -> Result<Vec<u8>, NoMemory>
    requires { IsFitVerdict (input_of_table input.now.table.now) items.now Accepted }
    ensures { IfOk result (λ text. text.items
        ≡ fit_report_text input.now.table.now items.now) }
{
    let mut text = Vec::new(alloc);
    push_head(alloc, &mut text, input.table)?;
    for k in 0..items.len() {
        push_item(alloc, &mut text, input, &items[k])?;
    }
    Ok(text)
}

/// Appends the lines of an item that the checker accepts.
fn push_item(
    alloc: Global,
    out: &mut Vec<u8>,
    input: &Input<'_>,
    item: &FitItem,
) -> Result<(), NoMemory>
    requires { FitItemFails (input_of_table input.now.table.now) item.now (Ok tt) }
    ensures { OnOk result (out.new.items
        ≡ out.old.items ++ fit_item_text input.now.table.now item.now) }
{
    match item {
        FitItem::Violations(part) => push_violations(alloc, out, input.n(), part),
        FitItem::Efficiency(evidence) => push_efficiency(alloc, out, evidence),
        FitItem::Kept(part) => push_kept(alloc, out, input.n(), part),
        FitItem::Levels(part) => push_levels(alloc, out, input, part),
        FitItem::Steps(part) => push_steps(alloc, out, input, part),
        FitItem::Pump(part) => push_pump_ratio(alloc, out, part),
        FitItem::QuasilinearLevel(part) => push_quasilinear_level(alloc, out, part),
        FitItem::HomotheticLevel(part) => push_homothetic_level(alloc, out, part),
    }
}
