//! The evidence for the quasilinear test.
use rp_num::Seq;

/// Evidence for the quasilinear test: a value of each observation, or a closed walk with a negative sum as the
/// observations that it goes through, the first again at its end.
#[derive(Debug, Drop)]
pub enum Quasi {
    Values(Seq<i128>),
    Cycle(Seq<u32>),
}
