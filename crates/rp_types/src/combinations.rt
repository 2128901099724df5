//! The limit on combinations of patches.
ghost use Rattle.std.specs.Prelude.{◌≡◌, ◌<◌, ◌≤◌, IfErr, IfOk};
ghost use Rattle.rp_patch.specs.Types.{combinations, patches_on as patches_of_budget};
ghost use Rattle.rp_types.specs.InnerListed.{SaysTooMany};

use crate::TypesFault;
use rp_limits::generated::PATCHES;
use rp_limits::types::COMBINATIONS;
use rp_patch::Patches;

/// How many patches budget `j` has.
fn patches_on(patches: &Patches, j: u32) -> u32
    requires { j < patches.now.budgets }
    ensures exact { result ≡ patches_of_budget patches.now j }
    ensures few { result ≤ PATCHES }
{
    let mut on = 0;
    for i in 0..patches.count() {
        if patches.budget_of(i) == j {
            on += 1;
        }
    }
    on
}

/// Tests that there are no more ways to take a patch of each budget than `COMBINATIONS`.
pub fn test_combinations(patches: &Patches) -> Result<(), TypesFault>
    ensures within { IfOk result
        (λ _. combinations patches.now patches.now.budgets ≤ COMBINATIONS) }
    ensures refused { IfErr result (SaysTooMany patches.now) }
{
    let mut product = 1;
    for j in 0..patches.budgets() {
        product *= patches_on(patches, j);
        if product > COMBINATIONS {
            return Err(TypesFault::TooManyCombinations);
        }
    }
    Ok(())
}
