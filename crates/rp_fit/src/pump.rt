//! Evidence on the money pump.
use rp_num::Seq;

/// The greatest money pump ratio `num/den` (Echenique, Lee and Shum 2011), a closed walk of weak steps that has it, as the observations that it goes
/// through, the first again at its end, and a value of each observation, which show that no closed walk has more.
/// Observations are numbered from 0; the values have the scale of the costs times `den`.
#[derive(Debug, Drop)]
pub struct PumpPart {
    pub num: u64,
    pub den: u64,
    pub cycle: Seq<u32>,
    pub values: Seq<i128>,
}
