//! Which patches go together in a rational type, two by two.
ghost use Rattle.std.specs.Prelude.{◌≡◌, ◌≢◌, ◌<◌, ◌⊎◌, ℕ, IfOk, length, true, false};
ghost use Rattle.rp_generated.specs.InnerLight.{AreCompatible, Clash, HasAllBut, HasBit, IsIn};
ghost use Rattle.rp_patch.specs.Patches.{PatchList};

use rp_limits::generated::PATCHES;
use rp_num::NoMemory;
use rp_patch::Patches;
use std::alloc::Global;

/// The words of a set, of 64 patches each.
const WORDS: usize = PATCHES as usize / 64;

/// A set of patches, a bit for each.
#[derive(Clone, Copy)]
pub(crate) struct PatchSet {
    words: [u64; WORDS],
}

/// Whether bit `k` of a word is set.
fn has_bit(word: u64, k: u32) -> bool
    requires { k < 64 }
    ensures { result ≡ false → ¬ HasBit word k }
{
    word & (1 << k) != 0
}

/// The word without bit `k`.
fn cleared(word: u64, k: u32) -> u64
    requires { k < 64 }
    ensures { (b : ℕ) → b < 64 → b ≢ k → HasBit word b → HasBit result b }
{
    word & !(1 << k)
}

/// The bits that are set in both words.
fn both(word: u64, other: u64) -> u64
    ensures { (b : ℕ) → HasBit word b → HasBit other b → HasBit result b }
{
    word & other
}

impl PatchSet {
    /// All patches.
    pub(crate) fn all() -> PatchSet
        ensures { (i : ℕ) → i < 256 → IsIn result.words i }
    {
        PatchSet {
            words: [u64::MAX; WORDS],
        }
    }

    /// Whether patch `i` is in the set.
    pub(crate) fn has(&self, i: u32) -> bool
        ensures { result ≡ false → ¬ IsIn self.now.words i }
    {
        match self.words.get(i as usize / 64) {
            Some(word) => has_bit(*word, i % 64),
            None => false,
        }
    }

    /// Takes patch `i` out of the set.
    fn remove(&mut self, i: u32)
        requires { i < 256 }
        ensures { (j : ℕ) → j ≢ i → IsIn self.old.words j → IsIn self.new.words j }
    {
        let place = i as usize / 64;
        self.words[place] = cleared(self.words[place], i % 64);
    }

    /// What is in both sets.
    pub(crate) fn meet(&self, other: &PatchSet) -> PatchSet
        ensures { (i : ℕ) → IsIn self.now.words i → IsIn other.now.words i → IsIn result.words i }
    {
        let mut words = self.words;
        for k in 0..WORDS {
            words[k] = both(words[k], other.words[k]);
        }
        PatchSet { words }
    }
}

/// Of each patch the set of those which make no violation with it alone.
#[derive(Drop)]
pub(crate) struct Compatible {
    sets: Vec<PatchSet>,
}

/// Whether each of two patches lies on or below the budget of the other, and one of them below it.
fn is_violation(patches: &Patches, i: u32, j: u32) -> bool
    requires first { i < length patches.now.patches }
    requires second { j < length patches.now.patches }
    ensures { result ≡ true → Clash patches.now i j }
{
    let one = patches.sign(i, patches.budget_of(j));
    let other = patches.sign(j, patches.budget_of(i));
    one <= 0 && other <= 0 && (one < 0 || other < 0)
}

/// The set of the patches which make no violation with patch `i` alone.
fn compatible_with(patches: &Patches, i: u32) -> PatchSet
    requires { i < length patches.now.patches }
    ensures { HasAllBut patches.now i result.words }
{
    prove!(patches.count() <= PATCHES);
    let mut set = PatchSet::all();
    for j in 0..patches.count() {
        if is_violation(patches, i, j) {
            set.remove(j);
        }
    }
    set
}

impl Compatible {
    /// Which of these patches go together.
    pub(crate) fn make(alloc: Global, patches: &Patches) -> Result<Compatible, NoMemory>
        ensures { IfOk result (AreCompatible patches.now) }
    {
        let mut sets = Vec::new(alloc);
        for i in 0..patches.count() {
            sets.push(compatible_with(patches, i))?;
        }
        Ok(Compatible { sets })
    }

    /// Those of a set which make no violation with patch `i` alone.
    pub(crate) fn among(&self, set: &PatchSet, i: u32) -> PatchSet
        ensures { (p : PatchList) → AreCompatible p self.now → i < length p.patches
            → (j : ℕ) → j < length p.patches → IsIn set.now.words j → IsIn result.words j ⊎ Clash p i j }
    {
        match self.sets.get(i as usize) {
            Some(own) => own.meet(set),
            None => *set,
        }
    }
}
