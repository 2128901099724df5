//! Laws of the evidence that is given.
ghost use Rattle.std.specs.Prelude.{ℕ};
ghost use Rattle.rp_evidence.specs.Preference.{AgreeBelow};
ghost use Rattle.rp_evidence.specs.declared.efficiency.Efficiency.{Efficiency};
ghost use Rattle.rp_effic.specs.EfficiencyVerdict.{IsEfficiencyVerdict};

/// The evidence that is given depends on the costs between observations alone.
pub fn given_evidence_depends_on_observed_costs()
    ensures { (n : ℕ) (c d : ℕ → ℕ → ℕ) (evidence : Efficiency)
        → AgreeBelow n c d → IsEfficiencyVerdict n c evidence → IsEfficiencyVerdict n d evidence }
{}
