//! Which bounds are asked of each household.

/// Which bounds are asked of each household at new prices: of each good, over the demands that the axiom allows when so
/// much is spent; or of each observation, on what it costs to be as well off.
#[derive(Clone, Copy, Debug, PartialEq, Eq)]
pub enum BoundsAsked {
    Demand,
    Welfare,
}
