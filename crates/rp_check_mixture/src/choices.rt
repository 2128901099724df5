//! The check of evidence on random choices.
ghost use Rattle.std.specs.Prelude.{◌≡◌, ◌<◌, ◌≤◌, ◌*◌, ℕ, All, List, [], ◌∷◌, length};
ghost use Rattle.rp_evidence.specs.Clauses.{InOrder, Unless};
ghost use Rattle.rp_farkas.specs.Limits.{FitsEvidence};
ghost use Rattle.rp_patch.specs.Kinds.{cells_weight, weight_of};
ghost use Rattle.rp_patch.specs.Mixtures.{units_weight};
ghost use Rattle.rp_patch.specs.RandomFailure.{RandomFails};
ghost use Rattle.rp_patch.specs.Types.{IsRationalType};
ghost use Rattle.rp_check_mixture.specs.LightFronts.{HasMoreLightFrontsThan};
ghost use Rattle.rp_check_mixture.specs.RandomWithin.{RandomFailsWithin, RandomPartFailsWithin};
ghost use Rattle.rp_check_mixture.specs.RandomWithin.{ViolationFailsWithin};

use crate::dual::all_weigh_within;
use crate::evidence::{check_evidence, check_partial_mixture, check_weights};
use rp_evidence::{Failure, RandomPart, Reason, Share, fails};
use rp_patch::Patches;

/// Checks evidence on random choices (McFadden and Richter 1990) for the units of these patches.
pub fn check_choices(patches: &Patches, total: u64, evidence: &RandomPart) -> Result<(), Failure>
    ensures { RandomFails patches.now total evidence.now result }
{
    if total != patches.total() {
        return fails(Reason::Units, 0);
    }
    check_evidence(patches, evidence)
}

/// Checks that weights of the patches bound every mixture, within so many steps.
fn check_weights_within(
    patches: &Patches,
    den: u64,
    shares: &[Share],
    weights: &[u64],
    steps: u64,
) -> Result<(), Failure>
    requires shares { All (λ share. FitsEvidence share.weight) shares.now }
    requires one_each { length weights.now ≡ length patches.now.patches }
    ensures { InOrder (
        Unless (¬ HasMoreLightFrontsThan patches.now weights.now den steps) Reason.Steps 0
        ∷ Unless ((type : List ℕ) → IsRationalType patches.now type
        → den ≤ cells_weight weights.now type) Reason.Dual 0
        ∷ Unless (weight_of shares.now ≡ units_weight patches.now weights.now) Reason.Least 0
        ∷ Unless (weight_of shares.now < den * patches.now.total) Reason.NotLess 0
        ∷ []) result }
{
    match all_weigh_within(patches, den, weights, Some(steps)) {
        Some(all) => check_weights(patches, den, shares, weights, all),
        None => fails(Reason::Steps, 0),
    }
}

/// Checks a partial mixture with weights of the patches, within so many steps.
fn check_no_mixture_within(
    patches: &Patches,
    den: u64,
    shares: &[Share],
    weights: &[u64],
    steps: u64,
) -> Result<(), Failure>
    ensures { ViolationFailsWithin patches.now den shares.now weights.now steps result }
{
    check_partial_mixture(patches, den, shares, weights)?;
    check_weights_within(patches, den, shares, weights, steps)
}

/// Checks evidence on the units of these patches, within so many steps.
fn check_evidence_within(
    patches: &Patches,
    evidence: &RandomPart,
    steps: u64,
) -> Result<(), Failure>
    ensures { RandomPartFailsWithin patches.now evidence.now steps result }
{
    match evidence {
        RandomPart::Violated {
            den,
            parts,
            weights,
        } => {
            let shares = parts.as_slice();
            let numbers = weights.as_slice();
            check_no_mixture_within(patches, *den, shares, numbers, steps)
        }
        _ => check_evidence(patches, evidence),
    }
}

/// Checks evidence on random choices as `check_choices` does, where there may be too many types to weigh them all:
/// weights of the patches that want a search of more steps than these fail by that. A step is a light front: a patch
/// of each of some first budgets without a violation, with which some type begins that is too light.
pub fn check_choices_within(
    patches: &Patches,
    total: u64,
    evidence: &RandomPart,
    steps: u64,
) -> Result<(), Failure>
    ensures { RandomFailsWithin patches.now total evidence.now steps result }
{
    if total != patches.total() {
        return fails(Reason::Units, 0);
    }
    check_evidence_within(patches, evidence, steps)
}
