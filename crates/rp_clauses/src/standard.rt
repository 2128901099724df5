//! What observations are held to: one level, or their own.
use rp_evidence::Level;

/// What observations are held to.
#[derive(Clone, Copy)]
pub enum Standard {
    /// All to one level.
    At(Level),
    /// Each to the level of its own, or to all that it spent where the table has no levels.
    Own,
}

/// All that was spent counts.
pub const WHOLE: Standard = Standard::At(Level { num: 1, den: 1 });
