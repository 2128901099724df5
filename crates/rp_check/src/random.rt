//! The check of a certificate on random choices.
ghost use Rattle.std.specs.Prelude.{◌≡◌, All};
ghost use Rattle.rp_check.specs.RandomCheckVerdict.{IsRandomCheckVerdict};
ghost use Rattle.rp_check.specs.RandomCheckWithin.{IsRandomCheckVerdictWithin};
ghost use Rattle.rp_check.specs.RandomCheckWithin.{ItemFailsOnPatchesWithin};
ghost use Rattle.rp_check.specs.declared.verdict.Verdict.TheVariants.{Accepted};
ghost use Rattle.rp_evidence.specs.Kinds.{IsCertificateOf};
ghost use Rattle.rp_evidence.specs.declared.certificate.Kind.TheVariants.{Random as RandomKind};
ghost use Rattle.rp_patch.specs.RandomEvidence.{ProvesOnPatches};
ghost use Rattle.rp_patch.specs.RandomFailure.{ItemFailsOnPatches};
ghost use Rattle.rp_persons.specs.SaysRandom.{SaysOnPatches};

use crate::Verdict;
use rp_check_mixture::{check_choices, check_choices_within};
use rp_evidence::{Certificate, Failure, Item, cap};
use rp_limits::table::BUDGETS;
use rp_patch::Patches;

/// Checks an item. One on a table is none on random choices.
fn check_random_item(patches: &Patches, item: &Item) -> Result<(), Failure>
    ensures { ItemFailsOnPatches patches.now item.now result }
{
    match item {
        Item::Random { total, part } => check_choices(patches, *total, part),
        _ => Ok(()),
    }
}

/// The verdict on a certificate on random choices: its first item that fails, by the first of its clauses that fails.
/// What is withheld claims nothing and is passed over. Where all items pass, each also says so of persons.
pub fn check_random(patches: &Patches, certificate: &Certificate) -> Verdict
    requires { IsCertificateOf RandomKind certificate.now }
    ensures first_failure { IsRandomCheckVerdict patches.now certificate.now.items result }
    ensures accepted_proves { result ≡ Accepted
        → All (ProvesOnPatches patches.now) certificate.now.items }
    ensures accepted_says { result ≡ Accepted
        → All (SaysOnPatches patches.now) certificate.now.items }
{
    prove!(patches.budgets() <= BUDGETS);
    for (k, item) in certificate.items.as_slice().iter().enumerate() {
        if let Err(found) = check_random_item(patches, item) {
            return Verdict::Rejected {
                item: cap(k + 1),
                reason: found.reason,
                place: found.place,
            };
        }
    }
    Verdict::Accepted
}

/// Checks an item, within so many steps. One on a table is none on random choices.
fn check_random_item_within(patches: &Patches, item: &Item, steps: u64) -> Result<(), Failure>
    ensures { ItemFailsOnPatchesWithin patches.now item.now steps result }
{
    match item {
        Item::Random { total, part } => check_choices_within(patches, *total, part, steps),
        _ => Ok(()),
    }
}

/// The verdict on a certificate on random choices as `check_random` gives it, but for weights that want a search of
/// more steps than these: they fail by that. What is accepted so is accepted without a limit.
pub fn check_random_within(patches: &Patches, certificate: &Certificate, steps: u64) -> Verdict
    requires { IsCertificateOf RandomKind certificate.now }
    ensures first_failure { IsRandomCheckVerdictWithin patches.now certificate.now.items steps
        result }
    ensures accepted_without { result ≡ Accepted
        → IsRandomCheckVerdict patches.now certificate.now.items Accepted }
    ensures accepted_proves { result ≡ Accepted
        → All (ProvesOnPatches patches.now) certificate.now.items }
    ensures accepted_says { result ≡ Accepted
        → All (SaysOnPatches patches.now) certificate.now.items }
{
    prove!(patches.budgets() <= BUDGETS);
    for (k, item) in certificate.items.as_slice().iter().enumerate() {
        if let Err(found) = check_random_item_within(patches, item, steps) {
            return Verdict::Rejected {
                item: cap(k + 1),
                reason: found.reason,
                place: found.place,
            };
        }
    }
    Verdict::Accepted
}
