//! A law of what the wider edition prints. Its function is empty: its contract is the law.
ghost use Rattle.std.specs.Prelude.{◌≡◌, ℕ, All, Bool, List, sum_by};
ghost use Rattle.rp_answers.specs.CostText.{AreBoundsUnder};
ghost use Rattle.rp_answers.specs.Printed.{as_stated};
ghost use Rattle.rp_cost.specs.AskedOutputs.{AskedOutputs};
ghost use Rattle.rp_cost.specs.Technology.{Technology};
ghost use Rattle.rp_cost.specs.declared.bounds.CostBounds.{CostBounds as BoundsOf};
ghost use Rattle.rp_evidence.specs.DemandEvidence.{withheld_bound};
ghost use Rattle.rp_evidence.specs.Homothetic.{withheld_homothetic};
ghost use Rattle.rp_evidence.specs.Withheld.{withheld_in};
ghost use Rattle.rp_evidence.specs.declared.certificate.Certificate.{Certificate as CertificateOf};
ghost use Rattle.rp_evidence.specs.declared.efficiency.Efficiency.{Efficiency};
ghost use Rattle.rp_evidence.specs.declared.garp.Garp.{Garp};
ghost use Rattle.rp_evidence.specs.declared.homothetic.Homothetic.{Homothetic};
ghost use Rattle.rp_evidence.specs.declared.quasilinear.Quasi.{Quasi};
ghost use Rattle.rp_run_wide.specs.Filling.{as_filled};
ghost use Rattle.rp_table.specs.Tables.{Observations};

/// Where nothing is withheld, what the wider edition prints is what `run` prints.
pub fn nothing_withheld_is_printed_alike()
    ensures certificates { (json : Bool) (table : Observations) (stated : CertificateOf)
        (text : List ℕ) → sum_by withheld_in stated.items ≡ 0
        → as_filled.of_certificate json table stated text
        → as_stated.of_certificate json table stated text }
    ensures costs { (tech : Technology) (asked : AskedOutputs) (stated : List BoundsOf)
        (text : List ℕ) → AreBoundsUnder tech asked stated
        → All (λ bounds. withheld_bound bounds.lower ≡ 0) stated
        → as_filled.of_costs tech asked stated text → as_stated.of_costs tech asked stated text }
    ensures trials { (seed rows goods : ℕ) (garp : Garp) (efficiency : Efficiency)
        (stated : Homothetic) (quasilinear : Quasi) (text : List ℕ)
        → withheld_homothetic stated ≡ 0
        → as_filled.of_trial seed rows goods garp efficiency stated quasilinear text
        → as_stated.of_trial seed rows goods garp efficiency stated quasilinear text }
{}
