//! The names of the items of this crate, and of measures.
ghost use Rattle.std.specs.Prelude.{codes};

use rp_json_entries::named::Tag;

/// The name of items: numbers of pairs of observations that violate an axiom.
pub struct ViolationsTag;

impl Tag for ViolationsTag {
    ghost tag = { codes "violations" };

    fn name() -> &'static str {
        "violations"
    }
}

/// The name of items: the most observations that are consistent.
pub struct KeptTag;

impl Tag for KeptTag {
    ghost tag = { codes "kept" };

    fn name() -> &'static str {
        "kept"
    }
}

/// The name of items: levels of the observations' own.
pub struct LevelsTag;

impl Tag for LevelsTag {
    ghost tag = { codes "levels" };

    fn name() -> &'static str {
        "levels"
    }
}

/// The name of items: the minimum cost of steps.
pub struct StepsTag;

impl Tag for StepsTag {
    ghost tag = { codes "steps" };

    fn name() -> &'static str {
        "steps"
    }
}

/// The name of items: the maximum money pump ratio.
pub struct PumpTag;

impl Tag for PumpTag {
    ghost tag = { codes "pump" };

    fn name() -> &'static str {
        "pump"
    }
}

/// The name of items: the level of the quasilinear test.
pub struct QuasilinearLevelTag;

impl Tag for QuasilinearLevelTag {
    ghost tag = { codes "quasilinear_level" };

    fn name() -> &'static str {
        "quasilinear_level"
    }
}

/// The name of items: bounds on the level of the homothetic test.
pub struct HomotheticLevelTag;

impl Tag for HomotheticLevelTag {
    ghost tag = { codes "homothetic_level" };

    fn name() -> &'static str {
        "homothetic_level"
    }
}

/// The name of the mean of what levels lack of 1.
pub struct MeanTag;

impl Tag for MeanTag {
    ghost tag = { codes "mean" };

    fn name() -> &'static str {
        "mean"
    }
}

/// The name of the mean of the squares of that.
pub struct SquaresTag;

impl Tag for SquaresTag {
    ghost tag = { codes "squares" };

    fn name() -> &'static str {
        "squares"
    }
}
