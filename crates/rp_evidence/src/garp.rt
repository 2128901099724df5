//! The evidence for a verdict on the generalized axiom.
use rp_num::Seq;

/// Evidence for the generalized axiom of revealed preference: ranks by observation, or a violation as the
/// observations that it walks through, the first again at its end. Observations are numbered from 0.
#[derive(Debug, Drop)]
pub enum Garp {
    Ranks(Seq<u32>),
    Cycle(Seq<u32>),
}
