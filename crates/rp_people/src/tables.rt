//! Afriat's theorem at the choices that a table tells of: held by levels of the observations' own, and at a common
//! level.
ghost use Rattle.std.specs.Prelude.{◌↔◌, ◌<◌, ℕ, ℤ};
ghost use Rattle.rp_evidence.specs.Afriat.{IsOwnModel};
ghost use Rattle.rp_evidence.specs.Efficiency.{IsEfficiencyIndex};
ghost use Rattle.rp_evidence.specs.Garp.{HasNoViolation, MeetsGarpAt};
ghost use Rattle.rp_evidence.specs.Input.{TableInput, input_of_table};
ghost use Rattle.rp_evidence.specs.Preference.{IsLevel, StrictByLevels, WeakByLevels};
ghost use Rattle.rp_people.specs.AfriatUtility.{HaveUtility};
ghost use Rattle.rp_people.specs.DividedLevels.{DividesLevels};
ghost use Rattle.rp_people.specs.Rationalizing.{Fits, HasConcaveUtility};
ghost use Rattle.rp_people.specs.Rationalizing.{HasNonsatiatedPreference, HasNotBoth, HasPreference};
ghost use Rattle.rp_people.specs.Rationalizing.{NoneHasBoth};
ghost use Rattle.rp_people.specs.TableChoices.{IsFullInput, choices_at, choices_of};
ghost use Rattle.rp_table.specs.Tables.{IsTable, Observations};

use crate::relations::BundleRelation;

/// A table within its limits has observations, goods and prices, and no empty bundle.
pub fn tables_are_full()
    ensures { (table : Observations) → IsTable table → IsFullInput (input_of_table table) }
{}

/// Held by their own levels, or to all that was spent, the choices of a table are rationalized by some locally
/// nonsatiated preference, by a monotone one that takes bundles that are equal in value for the same, and by that of a
/// strictly monotone and concave utility, exactly where no violation exists; and by none, whatever relation it is, where
/// one does.
pub fn rationalized_by_levels<P: BundleRelation>()
    ensures nonsatiated { (input : TableInput) → IsFullInput input
        → HasNonsatiatedPreference (choices_of input) ↔ HasNoViolation input.n
        (WeakByLevels input.levels input.cost) (StrictByLevels input.levels input.cost) }
    ensures preference { (input : TableInput) → IsFullInput input
        → HasPreference (choices_of input) ↔ HasNoViolation input.n
        (WeakByLevels input.levels input.cost) (StrictByLevels input.levels input.cost) }
    ensures utility { (input : TableInput) → IsFullInput input
        → HasConcaveUtility (choices_of input) ↔ HasNoViolation input.n
        (WeakByLevels input.levels input.cost) (StrictByLevels input.levels input.cost) }
    ensures each { (input : TableInput) → IsFullInput input
        → Fits (choices_of input) P.prefers → HasNoViolation input.n
        (WeakByLevels input.levels input.cost) (StrictByLevels input.levels input.cost) }
{}

/// Whose choices a table may be at a level that is common to all observations: of those that `rationalized_by_levels`
/// has, exactly where no violation at that level exists.
pub fn rationalized_at_level<P: BundleRelation>()
    ensures nonsatiated { (input : TableInput) (num den : ℕ)
        → IsFullInput input → IsLevel num den → HasNonsatiatedPreference (choices_at input num den)
        ↔ MeetsGarpAt input.n input.cost num den }
    ensures preference { (input : TableInput) (num den : ℕ) → IsFullInput input → IsLevel num den
        → HasPreference (choices_at input num den) ↔ MeetsGarpAt input.n input.cost num den }
    ensures utility { (input : TableInput) (num den : ℕ) → IsFullInput input → IsLevel num den
        → HasConcaveUtility (choices_at input num den) ↔ MeetsGarpAt input.n input.cost num den }
    ensures each { (input : TableInput) (num den : ℕ) → IsFullInput input → IsLevel num den
        → Fits (choices_at input num den) P.prefers → MeetsGarpAt input.n input.cost num den }
{}

/// The utility of every Afriat model of a table, by the levels of the observations' own where they have them, is
/// strictly monotone and concave, and its preference rationalizes the choices.
pub fn models_of_tables_give_utilities()
    ensures { (input : TableInput) (number : ℕ → ℤ) (multiplier : ℕ → ℕ) → IsFullInput input
        → IsOwnModel input.n input.levels input.cost number multiplier
        → HaveUtility (choices_of input) number multiplier }
{}

/// The critical cost efficiency index divides the levels at which choices can be rationalized from those at which they
/// cannot.
pub fn index_divides_levels()
    ensures { (input : TableInput) (num den : ℕ) → IsFullInput input
        → IsEfficiencyIndex input.n input.cost num den → DividesLevels input num den }
{}

/// By no locally nonsatiated preference, whatever relation it is, are two observations of a table both the best of what
/// they afford, where one is weakly preferred to the other and the other strictly to it.
pub fn contradicting_pairs_survive_no_preference<P: BundleRelation>()
    ensures none { (input : TableInput) (s t : ℕ) → IsFullInput input → s < input.n → t < input.n
        → WeakByLevels input.levels input.cost s t → StrictByLevels input.levels input.cost t s
        → NoneHasBoth (choices_of input) s t }
    ensures each { (input : TableInput) (s t : ℕ) → IsFullInput input → s < input.n → t < input.n
        → WeakByLevels input.levels input.cost s t → StrictByLevels input.levels input.cost t s
        → HasNotBoth (choices_of input) P.prefers s t }
{}
