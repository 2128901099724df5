//! What levels of the observations' own say of people.
ghost use Rattle.std.specs.Prelude.{◌↔◌, ◌*◌, ◌^◌, ℕ};
ghost use Rattle.rp_evidence.specs.Input.{TableInput};
ghost use Rattle.rp_fit.specs.Levels.{AreBelow, AreLevels, LackAtLeast, MeetsGarpAtLevels};
ghost use Rattle.rp_fit.specs.LevelsEvidence.{ProvesLevels, level_den, level_num, power_of};
ghost use Rattle.rp_fit.specs.WeightedWalks.{weight_of_all};
ghost use Rattle.rp_fit.specs.declared.levels.LevelsPart.{LevelsPart};
ghost use Rattle.rp_fit_people.specs.LevelPeople.{choices_at_levels};
ghost use Rattle.rp_people.specs.Rationalizing.{Fits, HasConcaveUtility, HasNonsatiatedPreference};
ghost use Rattle.rp_people.specs.TableChoices.{IsFullInput};

use rp_people::BundleRelation;

/// Where each observation is held to a level of its own, any fraction, some locally nonsatiated preference rationalizes
/// the choices, and that of a strictly monotone and concave utility does, exactly where the axiom holds at the levels;
/// where it does not, none does, whatever relation it is.
pub fn rationalized_at_levels<P: BundleRelation>()
    ensures nonsatiated { (input : TableInput) (num den : ℕ → ℕ) → IsFullInput input
        → AreLevels input.n num den → HasNonsatiatedPreference (choices_at_levels input num den)
        ↔ MeetsGarpAtLevels input.n input.cost num den }
    ensures utility { (input : TableInput) (num den : ℕ → ℕ) → IsFullInput input
        → AreLevels input.n num den → HasConcaveUtility (choices_at_levels input num den)
        ↔ MeetsGarpAtLevels input.n input.cost num den }
    ensures each { (input : TableInput) (num den : ℕ → ℕ) → IsFullInput input
        → AreLevels input.n num den → Fits (choices_at_levels input num den) P.prefers
        → MeetsGarpAtLevels input.n input.cost num den }
{}

/// Accepted evidence on levels: at levels below these a strictly monotone and concave utility rationalizes the choices,
/// and levels at which a locally nonsatiated preference does, whatever relation it is, lack no less than the bound.
pub fn accepted_levels_speak_of_people<P: BundleRelation>()
    ensures below { (input : TableInput) (part : LevelsPart) (num den : ℕ → ℕ) → IsFullInput input
        → ProvesLevels input.n input.cost part → AreLevels input.n num den
        → AreBelow input.n num den (level_num input.cost part) (level_den input.cost)
        → HasConcaveUtility (choices_at_levels input num den) }
    ensures lack { (input : TableInput) (part : LevelsPart) (num den : ℕ → ℕ) → IsFullInput input
        → ProvesLevels input.n input.cost part → AreLevels input.n num den
        → Fits (choices_at_levels input num den) P.prefers
        → LackAtLeast (power_of part.lack) input.n num den (weight_of_all part.walks)
        (part.den * 2 ^ 40 * input.n) }
{}
