//! Entries as evidence lists them, and the width of their numbers.
ghost use Rattle.std.specs.Prelude.{◌↔◌, IsTrue, All};
ghost use Rattle.rp_farkas.specs.Limits.{FitsEvidence};
ghost use Rattle.rp_farkas.specs.Listing.{IsListing};

use crate::entry::Entry;

/// The greatest numerator and the greatest denominator of evidence, 2^63 - 1.
pub const EVIDENCE_WIDTH: u64 = 9_223_372_036_854_775_807;

/// Whether the entries are the listing of a point over so many columns.
pub fn is_listing(cols: u32, entries: &[Entry]) -> bool
    ensures { IsTrue result ↔ IsListing cols entries.now }
{
    let mut low = 0;
    for entry in entries {
        if entry.at < low || entry.at >= cols || entry.value == 0 || entry.value > EVIDENCE_WIDTH {
            return false;
        }
        low = entry.at + 1;
    }
    true
}

/// Whether each number is at most the width.
pub fn all_fit(numbers: &[u64]) -> bool
    ensures { IsTrue result ↔ All FitsEvidence numbers.now }
{
    numbers.iter().all(|v| *v <= EVIDENCE_WIDTH)
}
