//! Which choices from budgets are answered.
ghost use Rattle.std.specs.Prelude.{◌≡◌, ◌≤◌};
ghost use Rattle.rp_answers.specs.ChoiceLimits.{most_patches};
ghost use Rattle.rp_limits.specs.declared.generated.TheConstants.{PATCHES as GENERATED_PATCHES};

use rp_limits::{generated, patch};

/// Which choices from budgets are answered.
#[derive(Clone, Copy, Debug, PartialEq, Eq)]
pub enum ChoiceLimits {
    /// Those with few patches, all of whose rational types can be listed.
    Listed,
    /// Those with more patches too, and with types too many to be listed.
    Unlisted,
}

impl ChoiceLimits {
    /// The most patches of choices that are answered.
    pub fn most_patches(self) -> u32
        ensures exact { result ≡ most_patches self }
        ensures within { result ≤ GENERATED_PATCHES }
    {
        match self {
            ChoiceLimits::Listed => patch::PATCHES,
            ChoiceLimits::Unlisted => generated::PATCHES,
        }
    }
}
