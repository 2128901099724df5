//! The verdict on random choices by generated types.
ghost use Rattle.std.specs.Prelude.{◌≡◌, ◌≤◌, true, false, Err, IfOk, IsErr, Ok};
ghost use Rattle.rp_evidence.specs.declared.failure.Failure.{Failure};
ghost use Rattle.rp_generated.specs.InnerRounds.{EndsWith};
ghost use Rattle.rp_check_mixture.specs.RandomWithin.{RandomFailsWithin};
ghost use Rattle.rp_generated.specs.Steps.{IsMostSteps, IsWithheldAfter, WithheldAt};
ghost use Rattle.rp_limits.specs.declared.generated.TheConstants.{STEPS};
ghost use Rattle.rp_patch.specs.RandomEvidence.{ProvesRandom, ShowsShare};
ghost use Rattle.rp_persons.specs.SaysRandom.{SaysOfChoices};

use crate::rounds::rounds;
use rp_check_mixture::check_choices_within;
use rp_evidence::{Failure, RandomPart};
use rp_limits::generated::STEPS;
use rp_num::NoMemory;
use rp_patch::Patches;
use std::alloc::Global;

/// The most steps that searches can be given, and those where no limit is asked for. They are half of those that may be
/// made: the check looks once more for a type that is too light, in the steps that are left.
pub const SEARCH_STEPS: u64 = STEPS / 2;

/// Whether nothing was found wrong.
fn is_nothing(found: Result<(), Failure>) -> bool
    ensures nothing { result ≡ true → found ≡ Ok tt }
    ensures something { result ≡ false → IsErr found }
{
    match found {
        Ok(()) => true,
        Err(_) => false,
    }
}

/// Whether the checker finds nothing wrong with evidence in the steps that are left.
fn is_taken(patches: &Patches, part: &RandomPart, left: u64) -> bool
    requires { left ≤ STEPS }
    ensures taken { result ≡ true
        → RandomFailsWithin patches.now patches.now.total part.now STEPS (Ok tt) }
    ensures other { result ≡ false → (why : Failure)
        × RandomFailsWithin patches.now patches.now.total part.now left (Err why) }
{
    is_nothing(check_choices_within(patches, patches.total(), part, left))
}

/// The evidence where the checker takes it in the steps that are left after so many, of twice those that the searches
/// may make, and else that the verdict is withheld after these.
fn if_taken(patches: &Patches, found: Option<RandomPart>, steps: u64, most: u64) -> RandomPart
    requires half { IsMostSteps most }
    requires few { steps ≤ most }
    requires ends { EndsWith patches.now most found steps }
    ensures accepted { RandomFailsWithin patches.now patches.now.total result STEPS (Ok tt) }
    ensures steps { WithheldAt result (IsWithheldAfter patches.now most) }
{
    match found {
        Some(part) if is_taken(patches, &part, 2 * most - steps) => part,
        _ => RandomPart::Wide { step: steps },
    }
}

/// Whether some mixture of rational types makes the choices, by types that are generated: a mixture; a partial one of
/// the greatest share with weights of the patches; or, where neither is found, how many steps the searches made, at most
/// `most`. All rational types are meant, however many there are, and what is given says of persons what it does where
/// all are listed. Searches and check together make at most twice as many steps, so `most` bounds the whole time.
pub fn generated(alloc: Global, patches: &Patches, most: u64) -> Result<RandomPart, NoMemory>
    requires { IsMostSteps most }
    ensures proves { IfOk result (ProvesRandom patches.now patches.now.total) }
    ensures share { IfOk result (ShowsShare patches.now) }
    ensures says { IfOk result (SaysOfChoices patches.now) }
    ensures accepted { IfOk result (λ part.
        RandomFailsWithin patches.now patches.now.total part STEPS (Ok tt)) }
    ensures steps { IfOk result (λ part. WithheldAt part (IsWithheldAfter patches.now most)) }
{
    prove!(patches.budgets() >= 1);
    let found = rounds(alloc, patches, most)?;
    Ok(if_taken(patches, found.part, found.steps, most))
}
