//! The homothetic test and homothetic preferences (Diewert 1973; Varian 1983).
ghost use Rattle.rp_evidence.specs.Demand.{FractionBundle};
ghost use Rattle.rp_evidence.specs.Homothetic.{MeetsHomotheticTest};
ghost use Rattle.rp_evidence.specs.Input.{TableInput};
ghost use Rattle.rp_people.specs.Choices.{Choices};
ghost use Rattle.rp_people.specs.Fractions.{SignedFraction};
ghost use Rattle.rp_people.specs.Rationalizing.{FitsHomothetically, HasHomogeneousUtility};
ghost use Rattle.rp_people.specs.Rationalizing.{HasHomotheticPreference};
ghost use Rattle.rp_people.specs.Rationalizing.{HasNonsatiatedHomotheticPreference, Rationalizes};
ghost use Rattle.rp_people.specs.TableChoices.{IsFullInput, choices_at};
ghost use Rattle.rp_people.specs.Utilities.{IsHomogeneous, IsMonotone, IsUtilityOfBundles};
ghost use Rattle.rp_people.specs.Utilities.{preference_of};

use crate::relations::BundleRelation;

/// Where some homothetic and locally nonsatiated preference, whatever relation it is, rationalizes the choices of a
/// table, the homothetic test holds.
pub fn homothetic_preferences_meet_test<P: BundleRelation>()
    ensures some { (input : TableInput) → IsFullInput input
        → HasNonsatiatedHomotheticPreference (choices_at input 1 1)
        → MeetsHomotheticTest input.n input.cost }
    ensures each { (input : TableInput) → IsFullInput input
        → FitsHomothetically (choices_at input 1 1) P.prefers
        → MeetsHomotheticTest input.n input.cost }
{}

/// Where the test holds, the preference of a homogeneous, strictly monotone and concave utility rationalizes the
/// choices.
pub fn homothetic_test_gives_utility()
    ensures { (input : TableInput) → IsFullInput input
        → MeetsHomotheticTest input.n input.cost
        → HasHomogeneousUtility (choices_at input 1 1) }
{}

/// The preference of a homogeneous and monotone utility is homothetic.
pub fn homogeneous_utilities_are_homothetic()
    ensures { (choices : Choices) (utility : FractionBundle → SignedFraction)
        → IsUtilityOfBundles choices.goods utility → IsMonotone choices.goods utility
        → IsHomogeneous utility → Rationalizes choices (preference_of utility)
        → HasHomotheticPreference choices }
{}
