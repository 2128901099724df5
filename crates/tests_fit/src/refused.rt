//! Evidence on ties and small tables that is accepted, and forged evidence in which one clause fails: the tables and the
//! numbers that several kinds of evidence share.

mod accepted;
mod homothetic_level;
mod kept;
mod levels;
mod pump;
mod quasilinear_level;
mod steps;
mod violations;

use crate::forged::Grouped;
use rp_fit::GroupKind::Pairs;

/// Costs 2, 2; 3, 4: a weak step to the second observation, and a strict step back.
pub(crate) const ONE_WAY: &str = "p_a,q_a,p_b,q_b\n1,1,1,1\n2,2,1,0\n";

/// One bundle twice: costs 5, 5; 4, 4.
pub(crate) const ONE_BUNDLE: &str = "p_a,q_a,p_b,q_b\n1,1,2,2\n2,1,1,2\n";

/// Costs 4, 1; 3, 4: the first step costs 3, the second 1.
pub(crate) const UNEVEN: &str = "p_a,q_a,p_b,q_b\n4,1,1,0\n3,0,4,1\n";

/// Costs 4, 2, 1; 1, 4, 8; 1, 8, 4: the first observation contradicts both others.
pub(crate) const FORK: &str = "p_a,q_a,p_b,q_b,p_c,q_c\n4,1,2,0,1,0\n1,0,4,1,8,0\n1,0,8,0,4,1\n";

/// 2^40, in which levels are counted.
pub(crate) const WHOLE: u64 = 1_099_511_627_776;

/// A tenth of 2^40, rounded down.
pub(crate) const TENTH: u64 = 109_951_162_777;

/// The greatest absolute value of a money pump.
pub(crate) const OF_PUMP: i128 = 1 << 121;

/// The greatest absolute value of a quasilinear level.
pub(crate) const OF_LEVEL: i128 = 1 << 120;

/// The greatest value of a homothetic level.
pub(crate) const OF_MEAN: u64 = 1 << 60;

/// Two observations that contradict each other.
pub(crate) const PAIR: &[Grouped] = &[(1, Pairs, &[0, 1])];

/// The first observation alone.
pub(crate) const FIRST: &[Grouped] = &[(1, Pairs, &[0])];
