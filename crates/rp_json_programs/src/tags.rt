//! The names of the items of this crate.
ghost use Rattle.std.specs.Prelude.{codes};

use rp_json_entries::named::Tag;

/// The name of items on demand at new prices.
pub struct DemandTag;

impl Tag for DemandTag {
    ghost tag = { codes "demand" };

    fn name() -> &'static str {
        "demand"
    }
}

/// The name of items on the welfare bounds.
pub struct WelfareTag;

impl Tag for WelfareTag {
    ghost tag = { codes "welfare" };

    fn name() -> &'static str {
        "welfare"
    }
}

/// The name of items on random choices.
pub struct RandomTag;

impl Tag for RandomTag {
    ghost tag = { codes "random" };

    fn name() -> &'static str {
        "random"
    }
}
