//! Sets of budgets as words, a bit for each.
ghost use Rattle.std.specs.Prelude.{◌≡◌, ◌<◌, ◌⊎◌, ◌↔◌, ℕ, IsTrue};
ghost use Rattle.rp_patch.specs.Sets.{Has};

/// The set with budget `k` in it.
pub fn with(set: u64, k: u32) -> u64
    requires { k < 64 }
    ensures { (b : ℕ) → Has result b ↔ (Has set b ⊎ (b ≡ k)) }
{
    set | 1 << k
}

/// What is in one of two sets.
pub fn union(a: u64, b: u64) -> u64
    ensures { (k : ℕ) → Has result k ↔ (Has a k ⊎ Has b k) }
{
    a | b
}

/// Whether some budget is in both sets.
pub fn meet(a: u64, b: u64) -> bool
    ensures { IsTrue result ↔ ((k : ℕ) × Has a k × Has b k) }
{
    a & b != 0
}
