//! Items of a certificate on goodness of fit.
use crate::homothetic_level::HomotheticLevelPart;
use crate::kept::KeptPart;
use crate::levels::LevelsPart;
use crate::pump::PumpPart;
use crate::quasilinear_level::QuasilinearLevelPart;
use crate::steps::StepsPart;
use crate::violations::ViolationsPart;
use rp_evidence::Efficiency;

/// One item of a certificate on goodness of fit: an index with its evidence.
#[derive(Debug, Drop)]
pub enum FitItem {
    Violations(ViolationsPart),
    Efficiency(Efficiency),
    Kept(KeptPart),
    Levels(LevelsPart),
    Steps(StepsPart),
    Pump(PumpPart),
    QuasilinearLevel(QuasilinearLevelPart),
    HomotheticLevel(HomotheticLevelPart),
}
