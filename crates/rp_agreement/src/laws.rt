//! Laws, one for each kind of evidence: what a search gives passes the checker and is read back.
ghost use Rattle.std.specs.Prelude.{◌<◌, ◌≤◌, List, length, ℕ};
ghost use Rattle.rp_afriat.specs.AfriatVerdict.{IsOwnAfriatVerdict};
ghost use Rattle.rp_agreement.specs.ItemVerdict.{PassesCheck};
ghost use Rattle.rp_agreement.specs.Limited.{IsLimited};
ghost use Rattle.rp_clauses.specs.AfriatFailure.{AfriatFails};
ghost use Rattle.rp_check.specs.DemandFailure.{DemandFails};
ghost use Rattle.rp_clauses.specs.EfficiencyFailure.{EfficiencyFails};
ghost use Rattle.rp_clauses.specs.GarpFailure.{GarpFails};
ghost use Rattle.rp_clauses.specs.HomotheticFailure.{HomotheticFails};
ghost use Rattle.rp_check.specs.ItemFailure.{shows_garp};
ghost use Rattle.rp_clauses.specs.QuasilinearFailure.{QuasilinearFails};
ghost use Rattle.rp_check.specs.WelfareFailure.{WelfareFails};
ghost use Rattle.rp_effic.specs.EfficiencyVerdict.{IsEfficiencyVerdict};
ghost use Rattle.rp_evidence.specs.AfriatEvidence.{ProvesOwnAfriat};
ghost use Rattle.rp_evidence.specs.DemandEvidence.{ProvesDemand, ProvesWelfare, budget_of};
ghost use Rattle.rp_evidence.specs.Efficiency.{ProvesEfficiency};
ghost use Rattle.rp_evidence.specs.Garp.{ProvesGarp, ProvesOwnGarp};
ghost use Rattle.rp_evidence.specs.Homothetic.{ProvesHomothetic};
ghost use Rattle.rp_evidence.specs.Input.{TableInput, input_of_table};
ghost use Rattle.rp_evidence.specs.Preference.{StrictByLevels, WeakByLevels};
ghost use Rattle.rp_evidence.specs.Quasilinear.{ProvesQuasilinear};
ghost use Rattle.rp_evidence.specs.declared.afriat.AfriatPart.{AfriatPart};
ghost use Rattle.rp_evidence.specs.declared.certificate.Item.TheVariants.{Garp as GarpItem};
ghost use Rattle.rp_evidence.specs.declared.demand.DemandPart.{DemandPart};
ghost use Rattle.rp_evidence.specs.declared.demand.WelfarePart.{WelfarePart};
ghost use Rattle.rp_evidence.specs.declared.efficiency.Efficiency.{Efficiency};
ghost use Rattle.rp_evidence.specs.declared.garp.Garp.{Garp};
ghost use Rattle.rp_evidence.specs.declared.homothetic.Homothetic.{Homothetic};
ghost use Rattle.rp_evidence.specs.declared.quasilinear.Quasi.{Quasi};
ghost use Rattle.rp_evidence.specs.declared.random.RandomPart.{RandomPart};
ghost use Rattle.rp_garp.specs.GarpVerdict.{IsOwnGarpVerdict};
ghost use Rattle.rp_homo.specs.HomotheticVerdict.{IsHomotheticVerdict};
ghost use Rattle.rp_json_tests.specs.Limits.{FitsAfriat, FitsEfficiency, FitsGarp};
ghost use Rattle.rp_json_programs.specs.Limits.{FitsDemand};
ghost use Rattle.rp_json_tests.specs.Limits.{FitsHomothetic, FitsQuasilinear};
ghost use Rattle.rp_json_programs.specs.Limits.{FitsRandom, FitsWelfare};
ghost use Rattle.rp_patch.specs.Patches.{IsPatchList, PatchList};
ghost use Rattle.rp_patch.specs.RandomEvidence.{ProvesRandom};
ghost use Rattle.rp_patch.specs.RandomFailure.{RandomFails};
ghost use Rattle.rp_patch.specs.Types.{AreRationalTypes};
ghost use Rattle.rp_quasi.specs.QuasilinearVerdict.{IsQuasilinearVerdict};
ghost use Rattle.rp_random.specs.RandomVerdict.{IsRandomVerdict};
ghost use Rattle.rp_support.specs.DemandVerdict.{IsDemandVerdict};
ghost use Rattle.rp_table.specs.Limits.{IsExpenditure};
ghost use Rattle.rp_table.specs.NewPrices.{AreNewPrices};
ghost use Rattle.rp_table.specs.Tables.{IsTable, Observations};
ghost use Rattle.rp_limits.specs.declared.patch.TheConstants.{PATCHES};
ghost use Rattle.rp_limits.specs.declared.table.TheConstants.{RECORDS};
ghost use Rattle.rp_limits.specs.declared.types.TheConstants.{TYPES};
ghost use Rattle.rp_welfare.specs.WelfareVerdict.{IsWelfareVerdict};

/// What a table gives is within the limits of tables.
pub fn tables_are_limited()
    ensures { (table : Observations) → IsTable table → IsLimited (input_of_table table) }
{}

/// Nothing is found wrong with evidence that proves a verdict on the generalized axiom, by levels of the observations'
/// own where they have them; as it is given it is within the limits in which evidence is read back.
pub fn garp_agrees()
    ensures accepted { (n : ℕ) (levels : List ℕ) (c : ℕ → ℕ → ℕ) (verdict : Garp)
        → ProvesOwnGarp n levels c verdict
        → PassesCheck (GarpFails n (WeakByLevels levels c) (StrictByLevels levels c) verdict) }
    ensures readable { (n : ℕ) (levels : List ℕ) (c : ℕ → ℕ → ℕ) (verdict : Garp)
        → n ≤ RECORDS → ProvesOwnGarp n levels c verdict → IsOwnGarpVerdict n levels c verdict
        → FitsGarp verdict }
{}

/// So it is with what is given by Afriat's theorem.
pub fn afriat_agrees()
    ensures accepted { (n : ℕ) (levels : List ℕ) (c : ℕ → ℕ → ℕ) (part : AfriatPart)
        → ProvesOwnAfriat n levels c part → IsOwnAfriatVerdict n levels c part
        → PassesCheck (AfriatFails n levels c part) }
    ensures readable { (n : ℕ) (levels : List ℕ) (c : ℕ → ℕ → ℕ) (part : AfriatPart)
        → n ≤ RECORDS → ProvesOwnAfriat n levels c part → IsOwnAfriatVerdict n levels c part
        → FitsAfriat part }
{}

/// So it is with what is given for the efficiency index, its level in lowest terms.
pub fn efficiency_agrees()
    ensures accepted { (n : ℕ) (c : ℕ → ℕ → ℕ) (evidence : Efficiency)
        → ProvesEfficiency n c evidence → IsEfficiencyVerdict n c evidence
        → PassesCheck (EfficiencyFails n c evidence) }
    ensures readable { (n : ℕ) (c : ℕ → ℕ → ℕ) (evidence : Efficiency) → n ≤ RECORDS
        → ProvesEfficiency n c evidence → IsEfficiencyVerdict n c evidence
        → FitsEfficiency evidence }
{}

/// So it is with what is given for the homothetic test, its fractions in lowest terms.
pub fn homothetic_agrees()
    ensures accepted { (n : ℕ) (c : ℕ → ℕ → ℕ) (verdict : Homothetic)
        → ProvesHomothetic n c verdict → IsHomotheticVerdict n c verdict
        → PassesCheck (HomotheticFails n c verdict) }
    ensures readable { (n : ℕ) (c : ℕ → ℕ → ℕ) (verdict : Homothetic) → n ≤ RECORDS
        → ProvesHomothetic n c verdict → IsHomotheticVerdict n c verdict
        → FitsHomothetic verdict }
{}

/// So it is with what is given for the quasilinear test.
pub fn quasilinear_agrees()
    ensures accepted { (n : ℕ) (c : ℕ → ℕ → ℕ) (verdict : Quasi)
        → ProvesQuasilinear n c verdict → IsQuasilinearVerdict n c verdict
        → PassesCheck (QuasilinearFails n c verdict) }
    ensures readable { (n : ℕ) (c : ℕ → ℕ → ℕ) (verdict : Quasi) → n ≤ RECORDS
        → ProvesQuasilinear n c verdict → IsQuasilinearVerdict n c verdict
        → FitsQuasilinear verdict }
{}

/// So it is with what is given on demand at new prices, after the verdict on the axiom that it is given from; its
/// bounds are in lowest terms.
pub fn demand_agrees()
    ensures accepted { (input : TableInput) (verdict : Garp) (prices : List ℕ) (m : ℕ)
        (part : DemandPart)
        → AreNewPrices input.goods prices → IsExpenditure m
        → ProvesDemand input prices m part → IsDemandVerdict input (budget_of prices m) verdict part
        → PassesCheck (DemandFails input (shows_garp (GarpItem verdict)) prices m part) }
    ensures readable { (input : TableInput) (verdict : Garp) (prices : List ℕ) (m : ℕ)
        (part : DemandPart)
        → IsLimited input → AreNewPrices input.goods prices → IsExpenditure m
        → ProvesDemand input prices m part → IsDemandVerdict input (budget_of prices m) verdict part
        → FitsDemand prices m part }
{}

/// So it is with what is given on welfare, after the verdict on the axiom that it is given from; its lower bound is
/// in lowest terms.
pub fn welfare_agrees()
    ensures accepted { (input : TableInput) (verdict : Garp) (prices : List ℕ) (t : ℕ)
        (part : WelfarePart)
        → AreNewPrices input.goods prices → t < input.n → ProvesGarp input.n input.cost verdict
        → ProvesWelfare input prices t part → IsWelfareVerdict input prices t verdict part
        → PassesCheck (WelfareFails input (shows_garp (GarpItem verdict)) prices t part) }
    ensures readable { (input : TableInput) (verdict : Garp) (prices : List ℕ) (t : ℕ)
        (part : WelfarePart)
        → IsLimited input → AreNewPrices input.goods prices → t < input.n
        → ProvesWelfare input prices t part → IsWelfareVerdict input prices t verdict part
        → FitsWelfare prices t part }
{}

/// So it is with what is given for random choices.
pub fn random_agrees()
    ensures accepted { (p : PatchList) (types : List (List ℕ)) (part : RandomPart)
        → IsPatchList p → length p.patches ≤ PATCHES → length types ≤ TYPES
        → AreRationalTypes p types → IsRandomVerdict p types part
        → PassesCheck (RandomFails p p.total part) }
    ensures readable { (p : PatchList) (types : List (List ℕ)) (part : RandomPart)
        → IsPatchList p → ProvesRandom p p.total part → IsRandomVerdict p types part
        → FitsRandom p.total part }
{}
