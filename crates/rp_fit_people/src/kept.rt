//! What kept observations say of people.
ghost use Rattle.std.specs.Prelude.{◌≤◌, ℕ, List, length};
ghost use Rattle.rp_evidence.specs.Input.{TableInput};
ghost use Rattle.rp_fit.specs.Kept.{IsConsistent, IsSetOfObservations, NoneKeepsMore};
ghost use Rattle.rp_fit.specs.KeptEvidence.{ProvesKept};
ghost use Rattle.rp_fit.specs.declared.kept.KeptPart.{KeptPart};
ghost use Rattle.rp_fit_people.specs.KeptPeople.{FitsKept, HaveConcaveUtility, NoneFitsMore};
ghost use Rattle.rp_people.specs.TableChoices.{IsFullInput};

use rp_people::BundleRelation;

/// The observations of a consistent set are rationalized by the preference of a strictly monotone and concave utility:
/// so are those of accepted evidence.
pub fn kept_observations_are_rationalized()
    ensures set { (input : TableInput) (set : List ℕ) → IsFullInput input
        → IsSetOfObservations input.n set → IsConsistent input.n input.cost set
        → HaveConcaveUtility input set }
    ensures evidence { (input : TableInput) (part : KeptPart) → IsFullInput input
        → ProvesKept input.n input.cost part
        → HaveConcaveUtility input part.kept × NoneFitsMore input part.most }
{}

/// What a locally nonsatiated preference rationalizes, whatever relation it is, is a consistent set: so it rationalizes
/// no more observations than a consistent set has.
pub fn no_preference_keeps_more<P: BundleRelation>()
    ensures consistent { (input : TableInput) (set : List ℕ) → IsFullInput input
        → IsSetOfObservations input.n set → FitsKept input P.prefers set
        → IsConsistent input.n input.cost set }
    ensures most { (input : TableInput) (most : ℕ) (set : List ℕ) → IsFullInput input
        → NoneKeepsMore input.n input.cost most → IsSetOfObservations input.n set
        → FitsKept input P.prefers set → length set ≤ most }
{}
