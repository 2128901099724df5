//! Afriat's theorem (Afriat 1967; Diewert 1973; Varian 1982) on choices of bundles of fractions.
ghost use Rattle.std.specs.Prelude.{ℕ, ℤ};
ghost use Rattle.rp_evidence.specs.Demand.{FractionBundle};
ghost use Rattle.rp_people.specs.AfriatUtility.{HaveUtility, IsModelOfChoices};
ghost use Rattle.rp_people.specs.Bundles.{HasMoreOfSomeGood, IsBundle};
ghost use Rattle.rp_people.specs.Choices.{AreChoices, Choices, MeetAxiom};
ghost use Rattle.rp_people.specs.Fractions.{SignedFraction};
ghost use Rattle.rp_people.specs.Preferences.{IsBetter, IsNonsatiated, IsNonsatiatedByValue};
ghost use Rattle.rp_people.specs.Preferences.{IsNonsatiatedPreference, IsPreference, IsTransitive};
ghost use Rattle.rp_people.specs.Preferences.{PrefersMore, TreatsAlikeByValue};
ghost use Rattle.rp_people.specs.Rationalizing.{Fits, HasConcaveUtility};
ghost use Rattle.rp_people.specs.Rationalizing.{HasNonsatiatedPreference, HasPreference};
ghost use Rattle.rp_people.specs.Rationalizing.{Rationalizes};
ghost use Rattle.rp_people.specs.Utilities.{IsMonotone, IsStrictlyMonotone, IsUtilityOfBundles};
ghost use Rattle.rp_people.specs.Utilities.{preference_of};

use crate::relations::BundleRelation;

/// Where some locally nonsatiated preference rationalizes choices as they are held, there is no violation: so it is of
/// each such relation, whether or not any test decides it.
pub fn preferences_meet_axiom<P: BundleRelation>()
    ensures some { (choices : Choices)
        → AreChoices choices → HasNonsatiatedPreference choices → MeetAxiom choices }
    ensures each { (choices : Choices)
        → AreChoices choices → Fits choices P.prefers → MeetAxiom choices }
{}

/// A preference by which more of every good is better is locally nonsatiated, however fractions are written. Where
/// bundles that are equal in value are the same, it makes no difference how they are written.
pub fn monotone_preferences_are_nonsatiated<P: BundleRelation>()
    ensures monotone { (goods : ℕ) → PrefersMore goods P.prefers
        → IsNonsatiated goods P.prefers × IsNonsatiatedByValue goods P.prefers }
    ensures by_value { (goods : ℕ) → IsTransitive P.prefers → TreatsAlikeByValue goods P.prefers
        → IsNonsatiated goods P.prefers → IsNonsatiatedByValue goods P.prefers }
    ensures preference { (goods : ℕ)
        → IsPreference goods P.prefers → IsNonsatiatedPreference goods P.prefers }
{}

/// Where there is no violation, an Afriat model exists, and its utility is strictly monotone and concave and
/// rationalizes the choices.
pub fn axiom_gives_utility()
    ensures model { (choices : Choices) → AreChoices choices → MeetAxiom choices
        → (number : ℕ → ℤ) × (multiplier : ℕ → ℕ)
        × IsModelOfChoices choices number multiplier × HaveUtility choices number multiplier }
    ensures utility { (choices : Choices)
        → AreChoices choices → MeetAxiom choices → HasConcaveUtility choices }
{}

/// The utility of every Afriat model of choices is strictly monotone and concave, and its preference rationalizes them.
pub fn models_give_utilities()
    ensures { (choices : Choices) (number : ℕ → ℤ) (multiplier : ℕ → ℕ) → AreChoices choices
        → IsModelOfChoices choices number multiplier → HaveUtility choices number multiplier }
{}

/// The preference of a monotone utility is complete, transitive and monotone, and has bundles that are equal in value
/// as good as each other; that of a strictly monotone one has a bundle with no less of any good and more of one as
/// better.
pub fn utilities_are_preferences()
    ensures preference { (goods : ℕ) (utility : FractionBundle → SignedFraction)
        → IsUtilityOfBundles goods utility → IsMonotone goods utility
        → IsPreference goods (preference_of utility) }
    ensures by_value { (goods : ℕ) (utility : FractionBundle → SignedFraction)
        → IsUtilityOfBundles goods utility → TreatsAlikeByValue goods (preference_of utility) }
    ensures strict { (goods : ℕ) (utility : FractionBundle → SignedFraction)
        → IsUtilityOfBundles goods utility → IsStrictlyMonotone goods utility
        → (x y : FractionBundle) → IsBundle x → IsBundle y → HasMoreOfSomeGood goods x y
        → IsBetter (preference_of utility) x y }
    ensures rationalizing { (choices : Choices) (utility : FractionBundle → SignedFraction)
        → IsUtilityOfBundles choices.goods utility → IsMonotone choices.goods utility
        → Rationalizes choices (preference_of utility) → HasPreference choices }
{}
