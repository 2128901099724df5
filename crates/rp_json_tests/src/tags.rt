//! The names of the items of this crate.
ghost use Rattle.std.specs.Prelude.{codes};

use rp_json_entries::named::Tag;

/// The name of items on the generalized axiom of revealed preference.
pub struct GarpTag;

impl Tag for GarpTag {
    ghost tag = { codes "garp" };

    fn name() -> &'static str {
        "garp"
    }
}

/// The name of items on Afriat's theorem.
pub struct AfriatTag;

impl Tag for AfriatTag {
    ghost tag = { codes "afriat" };

    fn name() -> &'static str {
        "afriat"
    }
}

/// The name of items on the efficiency index.
pub struct EfficiencyTag;

impl Tag for EfficiencyTag {
    ghost tag = { codes "efficiency" };

    fn name() -> &'static str {
        "efficiency"
    }
}

/// The name of items on the homothetic test.
pub struct HomotheticTag;

impl Tag for HomotheticTag {
    ghost tag = { codes "homothetic" };

    fn name() -> &'static str {
        "homothetic"
    }
}

/// The name of items on the quasilinear test.
pub struct QuasilinearTag;

impl Tag for QuasilinearTag {
    ghost tag = { codes "quasilinear" };

    fn name() -> &'static str {
        "quasilinear"
    }
}
