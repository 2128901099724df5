//! Verdicts of tests, without their evidence.
ghost use Rattle.std.specs.Prelude.{◌≡◌};
ghost use Rattle.rp_rows.specs.Words.{garp_verdict, homothetic_verdict, quasilinear_verdict, verdict_word};

use rp_evidence::{Garp, Homothetic, Quasi};

/// The verdict of a test; it is withheld where the computation passes its width.
#[derive(Clone, Copy, Debug, PartialEq, Eq)]
pub enum Verdict {
    Holds,
    Violated,
    Withheld,
}

impl Verdict {
    /// The word of a verdict, as reports have it.
    pub(crate) fn word(self) -> &'static [u8]
        ensures { result.now ≡ verdict_word self }
    {
        match self {
            Verdict::Holds => b"holds",
            Verdict::Violated => b"violated",
            Verdict::Withheld => b"withheld",
        }
    }

    pub(crate) fn of_garp(evidence: &Garp) -> Verdict
        ensures { result ≡ garp_verdict evidence.now }
    {
        match evidence {
            Garp::Ranks(_) => Verdict::Holds,
            Garp::Cycle(_) => Verdict::Violated,
        }
    }

    pub(crate) fn of_homothetic(evidence: &Homothetic) -> Verdict
        ensures { result ≡ homothetic_verdict evidence.now }
    {
        match evidence {
            Homothetic::Values(_) => Verdict::Holds,
            Homothetic::Cycle { .. } => Verdict::Violated,
            Homothetic::Withheld { .. } => Verdict::Withheld,
        }
    }

    pub(crate) fn of_quasilinear(evidence: &Quasi) -> Verdict
        ensures { result ≡ quasilinear_verdict evidence.now }
    {
        match evidence {
            Quasi::Values(_) => Verdict::Holds,
            Quasi::Cycle(_) => Verdict::Violated,
        }
    }
}
