//! Evidence on pairs of observations that violate an axiom.
/// How many ordered pairs of two observations violate GARP, its weak form, WARP and SARP, and how many observations are
/// in some pair that violates GARP (Swofford and Whitney 1987; Famulari 1995).
#[derive(Clone, Copy, Debug, PartialEq, Eq)]
pub struct ViolationsPart {
    pub garp: u32,
    pub weak_garp: u32,
    pub warp: u32,
    pub sarp: u32,
    pub observations: u32,
}
