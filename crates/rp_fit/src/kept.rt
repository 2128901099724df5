//! Evidence on the most observations that are consistent with each other.
use rp_num::Seq;

/// Why a consistent set has few of a group's observations.
#[derive(Clone, Copy, Debug, PartialEq, Eq)]
pub enum GroupKind {
    /// Each two of them contradict each other: a weak step leads one way and a strict one the other.
    Pairs,
    /// They are a violation, the first again at its end, through no observation twice.
    Cycle,
}

/// A group of observations, from 0, of which a consistent set has few, with its weight.
#[derive(Debug, Drop)]
pub struct Group {
    pub weight: u32,
    pub kind: GroupKind,
    pub members: Seq<u32>,
}

/// A consistent set of observations, in increasing order, with a rank each that shows it; and groups, with weights over
/// `den`, that show that no consistent set has more than `most` (Houtman and Maks 1985).
#[derive(Debug, Drop)]
pub struct KeptPart {
    pub kept: Seq<u32>,
    pub ranks: Seq<u32>,
    pub den: u32,
    pub groups: Seq<Group>,
    pub most: u32,
}
