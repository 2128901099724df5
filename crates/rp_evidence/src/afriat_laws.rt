//! Laws of Afriat models: when they exist, and the utilities that they give.
ghost use Rattle.std.specs.Prelude.{◌≡◌, ◌↔◌, ◌<◌, ◌≤◌, ◌*◌, ◌⊎◌, [], ℕ, ℤ, List, pos, ◌*ℤ◌};
ghost use Rattle.std.specs.Prelude.{◌≤ℤ◌};
ghost use Rattle.rp_table.specs.OwnLevels.{level_scale, own_by_level};
ghost use Rattle.rp_evidence.specs.Afriat.{HasJustOne, IsAfriatModel, IsOwnModel, IsOwnUtility};
ghost use Rattle.rp_evidence.specs.Afriat.{IsUtility};
ghost use Rattle.rp_evidence.specs.AfriatEvidence.{ProvesAfriat, ProvesOwnAfriat};
ghost use Rattle.rp_evidence.specs.Demand.{FractionBundle};
ghost use Rattle.rp_evidence.specs.Garp.{HasNoViolation, IsViolation};
ghost use Rattle.rp_evidence.specs.Input.{TableInput};
ghost use Rattle.rp_evidence.specs.Preference.{StrictByLevels, WeakByLevels};
ghost use Rattle.rp_evidence.specs.StandardNumbers.{AllFit, AreOwnStandardNumbers};
ghost use Rattle.rp_evidence.specs.StandardNumbers.{AreStandardNumbers, PassWidthFirstAt};
ghost use Rattle.rp_evidence.specs.Welfare.{IsAsGoodAs, IsUtilityOf, IsWorseThan};
ghost use Rattle.rp_evidence.specs.declared.afriat.AfriatPart.{AfriatPart};

/// Where an Afriat model exists, no violation does.
pub fn models_exclude_violations()
    ensures { (n : ℕ) (levels : List ℕ) (c : ℕ → ℕ → ℕ)
        (utility : ℕ → ℤ) (multiplier : ℕ → ℕ) (walk : List ℕ)
        → IsOwnModel n levels c utility multiplier
        → ¬ IsViolation n (WeakByLevels levels c) (StrictByLevels levels c) walk }
{}

/// Where no violation exists, an Afriat model does (Afriat 1967; Varian 1982).
pub fn models_exist()
    ensures { (n : ℕ) (levels : List ℕ) (c : ℕ → ℕ → ℕ)
        → HasNoViolation n (WeakByLevels levels c) (StrictByLevels levels c)
        → (utility : ℕ → ℤ) × (multiplier : ℕ → ℕ)
        × IsOwnModel n levels c utility multiplier }
{}

/// Under every Afriat model the utility at the bundle of an observation (`bundles_have_one_utility`) is at least its
/// number, and is its number where the observation is held to all that it spent.
pub fn observed_utilities()
    ensures at_least { (n t : ℕ) (levels : List ℕ) (c : ℕ → ℕ → ℕ)
        (utility : ℕ → ℤ) (multiplier : ℕ → ℕ) (value : ℤ)
        → IsOwnModel n levels c utility multiplier → t < n
        → IsOwnUtility n levels c utility multiplier 1 (λ s. c s t) value
        → utility t ≤ℤ value }
    ensures exact { (n t : ℕ) (levels : List ℕ) (c : ℕ → ℕ → ℕ)
        (utility : ℕ → ℤ) (multiplier : ℕ → ℕ)
        → IsOwnModel n levels c utility multiplier → t < n
        → own_by_level levels c t ≡ level_scale levels * c t t
        → IsOwnUtility n levels c utility multiplier 1 (λ s. c s t) (utility t) }
{}

/// A bundle that costs no more at the prices of an observation than what that is held to has at most its number as its
/// utility (`bundles_have_one_utility`), under any numbers.
pub fn affordable_utilities()
    ensures { (n den t : ℕ) (levels : List ℕ) (c : ℕ → ℕ → ℕ)
        (utility : ℕ → ℤ) (multiplier cost : ℕ → ℕ) (value : ℤ)
        → t < n → level_scale levels * cost t ≤ den * own_by_level levels c t
        → IsOwnUtility n levels c utility multiplier den cost value
        → value ≤ℤ (pos den *ℤ utility t) }
{}

/// Under any numbers every bundle has a utility, one of fractions too, and one only: the laws that take the utility of a
/// bundle as given speak of this one. So by the numbers each bundle is as good as an observation or worse.
pub fn bundles_have_one_utility()
    ensures by_levels { (n den : ℕ) (levels : List ℕ) (c : ℕ → ℕ → ℕ)
        (utility : ℕ → ℤ) (multiplier cost : ℕ → ℕ) → 1 ≤ n
        → HasJustOne (IsOwnUtility n levels c utility multiplier den cost) }
    ensures of_fractions { (input : TableInput) (utility : ℕ → ℤ) (multiplier : ℕ → ℕ)
        (bundle : FractionBundle) → 1 ≤ input.n
        → HasJustOne (IsUtilityOf input utility multiplier bundle) }
    ensures as_good_or_worse { (input : TableInput) (utility : ℕ → ℤ) (multiplier : ℕ → ℕ)
        (bundle : FractionBundle) (t : ℕ) → 1 ≤ input.n → 0 < bundle.den
        → IsAsGoodAs input utility multiplier bundle t
        ⊎ IsWorseThan input utility multiplier bundle t }
{}

/// The standard numbers exist, without any width.
pub fn standard_numbers_exist()
    ensures { (n : ℕ) (levels : List ℕ) (c : ℕ → ℕ → ℕ)
        → (count : ℕ → ℕ) × (utility : ℕ → ℤ) × (multiplier : ℕ → ℕ)
        × AreOwnStandardNumbers n levels c count utility multiplier }
{}

/// There is one choice of standard numbers.
pub fn standard_numbers_are_unique()
    ensures { (n s : ℕ) (levels : List ℕ) (c : ℕ → ℕ → ℕ) (count count' : ℕ → ℕ)
        (utility utility' : ℕ → ℤ) (multiplier multiplier' : ℕ → ℕ)
        → AreOwnStandardNumbers n levels c count utility multiplier
        → AreOwnStandardNumbers n levels c count' utility' multiplier' → s < n
        → (utility s ≡ utility' s) × (multiplier s ≡ multiplier' s) }
{}

/// Where no violation exists, the standard numbers are an Afriat model.
pub fn standard_numbers_are_a_model()
    ensures { (n : ℕ) (levels : List ℕ) (c : ℕ → ℕ → ℕ) (count : ℕ → ℕ)
        (utility : ℕ → ℤ) (multiplier : ℕ → ℕ)
        → AreOwnStandardNumbers n levels c count utility multiplier
        → HasNoViolation n (WeakByLevels levels c) (StrictByLevels levels c)
        → IsOwnModel n levels c utility multiplier }
{}

/// Numbers that all fit pass their width nowhere.
pub fn fitting_numbers_pass_nowhere()
    ensures { (n t : ℕ) (count : ℕ → ℕ) (utility : ℕ → ℤ) (multiplier : ℕ → ℕ)
        → AllFit n utility multiplier → ¬ PassWidthFirstAt n count utility multiplier t }
{}

/// The standard numbers pass their width first at one place only.
pub fn width_is_passed_first_once()
    ensures { (n s t : ℕ) (levels : List ℕ) (c : ℕ → ℕ → ℕ) (count : ℕ → ℕ)
        (utility : ℕ → ℤ) (multiplier : ℕ → ℕ)
        → AreOwnStandardNumbers n levels c count utility multiplier
        → PassWidthFirstAt n count utility multiplier s
        → PassWidthFirstAt n count utility multiplier t → s ≡ t }
{}

/// Where the observations have no levels of their own, models, standard numbers, utilities and evidence are those at
/// the level 1.
pub fn afriat_without_levels()
    ensures models { (n : ℕ) (c : ℕ → ℕ → ℕ) (utility : ℕ → ℤ) (multiplier : ℕ → ℕ)
        → IsOwnModel n [] c utility multiplier ↔ IsAfriatModel n c utility multiplier }
    ensures standard { (n : ℕ) (c : ℕ → ℕ → ℕ) (count : ℕ → ℕ)
        (utility : ℕ → ℤ) (multiplier : ℕ → ℕ)
        → AreOwnStandardNumbers n [] c count utility multiplier
        ↔ AreStandardNumbers n c count utility multiplier }
    ensures utilities { (n den : ℕ) (c : ℕ → ℕ → ℕ)
        (utility : ℕ → ℤ) (multiplier cost : ℕ → ℕ) (value : ℤ)
        → IsOwnUtility n [] c utility multiplier den cost value
        ↔ IsUtility n c utility multiplier den cost value }
    ensures evidence { (n : ℕ) (c : ℕ → ℕ → ℕ) (part : AfriatPart)
        → ProvesOwnAfriat n [] c part ↔ ProvesAfriat n c part }
{}
