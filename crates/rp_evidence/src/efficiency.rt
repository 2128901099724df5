//! The evidence for an efficiency index.
use crate::garp::Garp;
use crate::level::Level;
use rp_num::Seq;

/// Evidence for the critical cost efficiency index (Afriat 1973): the index; ranks that order the strict steps at it; a
/// closed walk of weak steps at it, empty where it is 1; and ranks that show it attained, or a violation at it.
#[derive(Debug, Drop)]
pub struct Efficiency {
    pub level: Level,
    pub below: Seq<u32>,
    pub above: Seq<u32>,
    pub at: Garp,
}
