//! The search for rational types: a patch of one budget more is taken at each step, and a partial type with a violation
//! is left, since a violation among some budgets stays one when budgets are added.
ghost use Rattle.std.specs.Prelude.{◌≡◌, ◌≢◌, ◌<◌, ◌≤◌, ◌+◌, ◌⊎◌, ◌↔◌, ◌++◌, ◌∷◌, [], ℕ, true, false};
ghost use Rattle.std.specs.Prelude.{IfNone, IfSome, List, length, pos, slice_index, ◌≤ℤ◌, ◌<ℤ◌};
ghost use Rattle.rp_patch.specs.PartialTypes.{Begins, IsPartialType, IsRationalBelow, IsTaken};
ghost use Rattle.rp_patch.specs.PartialTypes.{taken_in};
ghost use Rattle.rp_patch.specs.Patches.{budget_at, sign_at};
ghost use Rattle.rp_patch.specs.Sets.{Has};
ghost use Rattle.rp_patch.specs.Types.{IsRationalType, IsWeakBy};
ghost use Rattle.rp_limits.specs.declared.table.TheConstants.{BUDGETS};

use crate::Patches;
use crate::sets::{meet, union, with};
use rp_limits::table::BUDGETS;

/// A patch of each of the first budgets. For each of these `reached` is a set of budgets, a bit for each: those that
/// walks of weak steps lead to from it, itself among them.
#[derive(Clone, Copy, Debug)]
pub struct PartialType {
    pub taken: u32,
    pub patches: [u32; BUDGETS as usize],
    pub reached: [u64; BUDGETS as usize],
}

/// Whether patch `i` does not lie above budget `k`.
fn is_weak(patches: &Patches, i: u32, k: u32) -> bool
    requires patch { i < length patches.now.patches }
    requires budget { k < patches.now.budgets }
    ensures weak { result ≡ true → sign_at patches.now i k ≤ℤ pos 0 }
    ensures above { result ≡ false → ¬ (sign_at patches.now i k ≤ℤ pos 0) }
{
    patches.sign(i, k) <= 0
}

/// The budgets below `n` that patch `i` does not lie above: what is chosen from them is weakly preferred to it.
fn weak_to(patches: &Patches, i: u32, n: u32) -> u64
    requires patch { i < length patches.now.patches }
    requires budgets { n ≤ patches.now.budgets }
    ensures { (k : ℕ) → Has result k ↔ ((k < n) × (sign_at patches.now i k ≤ℤ pos 0)) }
{
    prove!(patches.budgets() <= BUDGETS);
    let mut set = 0;
    for k in 0..n {
        if is_weak(patches, i, k) {
            set = with(set, k);
        }
    }
    set
}

/// The budgets below `n` that patch `i` lies below: what is chosen from them is strictly preferred to it.
fn strict_to(patches: &Patches, i: u32, n: u32) -> u64
    requires patch { i < length patches.now.patches }
    requires budgets { n ≤ patches.now.budgets }
    ensures { (k : ℕ) → Has result k ↔ ((k < n) × (sign_at patches.now i k <ℤ pos 0)) }
{
    prove!(patches.budgets() <= BUDGETS);
    let mut set = 0;
    for k in 0..n {
        if patches.sign(i, k) < 0 {
            set = with(set, k);
        }
    }
    set
}

impl PartialType {
    /// No patch taken yet.
    pub fn new(patches: &Patches) -> PartialType
        ensures part { IsPartialType patches.now result }
        ensures none { taken_in result ≡ [] }
    {
        PartialType {
            taken: 0,
            patches: [0; BUDGETS as usize],
            reached: [0; BUDGETS as usize],
        }
    }

    /// The patches taken, of the first budgets in order.
    pub fn patches(&self) -> &[u32]
        requires { self.now.taken ≤ BUDGETS }
        ensures { result.now ≡ taken_in self.now }
    {
        &self.patches[..self.taken as usize]
    }

    /// The partial type with patch `i` of the next budget, or none where no rational type begins with that.
    pub fn with(&self, patches: &Patches, i: u32) -> Option<PartialType>
        requires part { IsPartialType patches.now self.now }
        requires patch { i < length patches.now.patches }
        ensures part { IfSome result (IsPartialType patches.now) }
        ensures taken { IfSome result (λ part. part.taken ≡ self.now.taken + 1) }
        ensures longer { IfSome result (λ part. taken_in part ≡ taken_in self.now ++ i ∷ []) }
        ensures excluded { IfNone result ((type : List ℕ) → IsRationalType patches.now type
            → ¬ Begins type (taken_in self.now ++ i ∷ [])) }
        ensures unfit { IfNone result ((budget_at patches.now i ≢ self.now.taken)
            ⊎ (¬ IsRationalBelow patches.now (taken_in self.now ++ i ∷ []))) }
    {
        if patches.budget_of(i) != self.taken {
            return None;
        }
        let next = self.extended(patches, i);
        if next.has_violation(patches) {
            return None;
        }
        Some(next)
    }

    /// The partial type with patch `i` of the next budget.
    fn extended(&self, patches: &Patches, i: u32) -> PartialType
        requires part { IsTaken patches.now self.now }
        requires patch { i < length patches.now.patches }
        requires next { budget_at patches.now i ≡ self.now.taken }
        ensures part { IsTaken patches.now result }
        ensures taken { result.taken ≡ self.now.taken + 1 }
        ensures longer { taken_in result ≡ taken_in self.now ++ i ∷ [] }
    {
        prove!(patches.budgets() <= BUDGETS);
        let d = self.taken;
        let from = self.from_next(patches);
        let into = weak_to(patches, i, d);
        let mut next = *self;
        next.join(into, from);
        next.patches[d as usize] = i;
        next.reached[d as usize] = from;
        next.taken = d + 1;
        next
    }

    /// What the next budget leads to: itself, and what those lead to which it is weakly preferred to.
    fn from_next(&self, patches: &Patches) -> u64
        requires part { IsTaken patches.now self.now }
        requires next { self.now.taken < patches.now.budgets }
        ensures { (t : ℕ) → Has result t ↔ ((t ≡ self.now.taken)
            ⊎ ((j : ℕ) × (j < self.now.taken)
            × IsWeakBy patches.now (taken_in self.now) self.now.taken j
            × Has (slice_index self.now.reached j) t)) }
    {
        prove!(patches.budgets() <= BUDGETS);
        let d = self.taken;
        let mut from = with(0, d);
        for j in 0..d {
            if is_weak(patches, self.patches[j as usize], d) {
                from = union(from, self.reached[j as usize]);
            }
        }
        from
    }

    /// Each budget that leads into one of a set leads on to what is in another.
    fn join(&mut self, into: u64, from: u64)
        requires { self.old.taken ≤ BUDGETS }
        ensures taken { self.new.taken ≡ self.old.taken }
        ensures patches { self.new.patches ≡ self.old.patches }
        ensures count { length self.new.reached ≡ length self.old.reached }
        ensures joined { (k t : ℕ) → k < self.old.taken → Has (slice_index self.new.reached k) t
            ↔ (Has (slice_index self.old.reached k) t ⊎ (((m : ℕ) × Has
            (slice_index self.old.reached k) m × Has into m) × Has from t)) }
    {
        for k in 0..self.taken as usize {
            if meet(self.reached[k], into) {
                self.reached[k] = union(self.reached[k], from);
            }
        }
    }

    /// Whether some budget leads to one that is strictly preferred to it.
    fn has_violation(&self, patches: &Patches) -> bool
        requires { IsTaken patches.now self.now }
        ensures violated { result ≡ true → ¬ IsRationalBelow patches.now (taken_in self.now) }
        ensures rational { result ≡ false → IsRationalBelow patches.now (taken_in self.now) }
    {
        prove!(patches.budgets() <= BUDGETS);
        for j in 0..self.taken {
            let strict = strict_to(patches, self.patches[j as usize], self.taken);
            if meet(self.reached[j as usize], strict) {
                return true;
            }
        }
        false
    }
}
