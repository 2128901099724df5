//! The check of all items of a certificate on goodness of fit.
ghost use Rattle.std.specs.Prelude.{◌≡◌, All};
ghost use Rattle.rp_check.specs.declared.verdict.Verdict.TheVariants.{Accepted};
ghost use Rattle.rp_check_goodness.specs.FitVerdict.{FitItemFails, IsFitVerdict};
ghost use Rattle.rp_evidence.specs.Input.{input_of_table};
ghost use Rattle.rp_fit.specs.FitItems.{ProvesFit};

use rp_check::Verdict;
use rp_check_fit::{check_kept, check_violations};
use rp_check_levels::{check_levels, check_steps};
use rp_check_walk_levels::{check_homothetic_level, check_pump, check_quasilinear_level};
use rp_clauses::efficiency::check_efficiency;
use rp_clauses::input::Input;
use rp_evidence::{Failure, cap};
use rp_fit::FitItem;

/// The verdict on a certificate on goodness of fit: its first item that fails, by the first of its clauses that fails, or
/// accepted.
pub fn check_fit(input: &Input<'_>, items: &[FitItem]) -> Verdict
    ensures first_failure { IsFitVerdict (input_of_table input.now.table.now) items.now result }
    ensures accepted_proves { result ≡ Accepted
        → All (ProvesFit (input_of_table input.now.table.now)) items.now }
{
    prove!(input.costs.n() > 0);
    for (k, item) in items.iter().enumerate() {
        if let Err(found) = check_item(input, item) {
            return Verdict::Rejected {
                item: cap(k + 1),
                reason: found.reason,
                place: found.place,
            };
        }
    }
    Verdict::Accepted
}

/// Checks an item by the check of its kind.
fn check_item(input: &Input<'_>, item: &FitItem) -> Result<(), Failure>
    ensures { FitItemFails (input_of_table input.now.table.now) item.now result }
{
    match item {
        FitItem::Violations(part) => check_violations(input, part),
        FitItem::Efficiency(evidence) => check_efficiency(input, evidence),
        FitItem::Kept(part) => check_kept(input, part),
        FitItem::Levels(part) => check_levels(input, part),
        FitItem::Steps(part) => check_steps(input, part),
        FitItem::Pump(part) => check_pump(input, part),
        FitItem::QuasilinearLevel(part) => check_quasilinear_level(input, part),
        FitItem::HomotheticLevel(part) => check_homothetic_level(input, part),
    }
}
