//! Evidence on the least cost of strict steps whose removal leaves no closed walk of them.
use crate::weighted::WeightedWalk;
use rp_num::Seq;

/// For each observation, from 0, those to which its strict step is taken away, in increasing order; what all these steps
/// cost; ranks that fall along each strict step that is left; and closed walks of strict steps, with weights over `den`,
/// that show what any choice of steps costs at least (Dean and Martin 2016). Costs are in the units of the table's
/// prices times quantities, times both scales.
#[derive(Debug, Drop)]
pub struct StepsPart {
    pub taken: Seq<Seq<u32>>,
    pub cost: u128,
    pub ranks: Seq<u32>,
    pub den: u64,
    pub walks: Seq<WeightedWalk>,
}
