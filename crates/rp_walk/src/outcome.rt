//! What the computation of least totals comes to.
use rp_num::Seq;

/// What the computation of least totals by rounds comes to.
#[derive(Debug, Drop)]
pub enum Settled<V> {
    /// The least total over the walks of any length that end at each observation.
    Values(Seq<V>),
    /// A closed walk that ends below its start, the total of some walk to its beginning.
    Cycle { start: V, steps: Seq<u32> },
    /// The least total over at most `steps` steps to `from`, taken on to `to`, passes the width.
    Wide { steps: u32, from: u32, to: u32 },
}
