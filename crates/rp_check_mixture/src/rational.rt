//! Rational types as kinds of persons, each of whom uses a patch of every budget.
use crate::choosers::Choosers;
use crate::dual::all_weigh;
use crate::types::{is_rational, is_type};
use rp_patch::Patches;

impl Choosers for Patches {
    fn is_formed(&self, list: &[u32]) -> bool {
        is_type(self, list)
    }

    fn is_kind(&self, list: &[u32]) -> bool {
        is_rational(self, list)
    }

    fn uses(&self, list: &[u32], cell: u32) -> bool {
        list.contains(&cell)
    }

    fn all_weigh(&self, least: u64, weights: &[u64]) -> bool {
        all_weigh(self, least, weights)
    }
}
