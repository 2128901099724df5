//! Whether patches are a type, and whether that is rational.
ghost use Rattle.std.specs.Prelude.{◌↔◌, IsTrue};
ghost use Rattle.rp_patch.specs.Types.{IsRationalType, IsType};

use rp_patch::Patches;
use rp_patch::partial_type::PartialType;

/// Whether these are a patch of each budget, in the order of the budgets.
pub fn is_type(patches: &Patches, numbers: &[u32]) -> bool
    ensures { IsTrue result ↔ IsType patches.now numbers.now }
{
    if numbers.len() != patches.budgets() as usize {
        return false;
    }
    for j in 0..patches.budgets() {
        let i = numbers[j as usize];
        if i >= patches.count() || patches.budget_of(i) != j {
            return false;
        }
    }
    true
}

/// Whether a type is rational.
pub fn is_rational(patches: &Patches, numbers: &[u32]) -> bool
    requires { IsType patches.now numbers.now }
    ensures { IsTrue result ↔ IsRationalType patches.now numbers.now }
{
    let mut partial = PartialType::new(patches);
    for i in numbers {
        match partial.with(patches, *i) {
            Some(longer) => partial = longer,
            None => return false,
        }
    }
    true
}
