//! What searches have found, and how many steps they made.
ghost use Rattle.std.specs.Prelude.{◌≡◌, ◌<◌, ◌≤◌, ◌+◌, IfOk, length, true, false};
ghost use Rattle.rp_generated.specs.InnerTypes.{AddsLast};

use rp_num::NoMemory;
use std::alloc::Global;

/// The types that were found, each lighter than the one before it; what the last of them weighs, or else what was asked
/// to be passed below; how many patches all searches of the run looked at for a partial type, and how many they may look
/// at.
#[derive(Drop)]
pub(crate) struct Lightest {
    pub(crate) weight: u128,
    pub(crate) types: Vec<Vec<u32>>,
    pub(crate) steps: u64,
    pub(crate) most: u64,
    ghost few: { steps ≤ most },
}

impl Lightest {
    /// Whether no steps are left.
    pub(crate) fn is_given_up(&self) -> bool
        ensures spent { result ≡ true → self.now.steps ≡ self.now.most }
        ensures left { result ≡ false → self.now.steps < self.now.most }
    {
        self.steps >= self.most
    }

    /// Takes a type that is lighter.
    pub(crate) fn take(
        &mut self,
        alloc: Global,
        numbers: &[u32],
        weight: u128,
    ) -> Result<(), NoMemory>
        ensures steps { self.new.steps ≡ self.old.steps }
        ensures most { self.new.most ≡ self.old.most }
        ensures weight { IfOk result (λ _. self.new.weight ≡ weight) }
        ensures more { IfOk result (λ _.
            length self.new.types.items ≡ length self.old.types.items + 1) }
        ensures last { IfOk result (λ _. AddsLast numbers.now self.old.types.items self.new.types.items) }
    {
        self.types.push(Vec::from_slice(alloc, numbers)?)?;
        self.weight = weight;
        Ok(())
    }
}
