//! The reasons for which a checker refuses an item, and the place.
/// Why a checker refuses an item.
#[derive(Clone, Copy, Debug, PartialEq, Eq)]
pub enum Reason {
    Shape,
    Number,
    NotClosed,
    NotWeak,
    NoStrict,
    Order,
    Level,
    NotLess,
    Wide,
    NoGarp,
    Set,
    Point,
    Bound,
    Least,
    Dual,
    Units,
    Irrational,
    Levels,
    Steps,
}

/// What an item of a certificate fails first: the reason, and the place, which is counted from 1; 0 stands for the
/// whole item, and 2^32 - 1 for that place and every greater one.
#[derive(Clone, Copy, Debug, PartialEq, Eq)]
pub struct Failure {
    pub reason: Reason,
    pub place: u32,
}
