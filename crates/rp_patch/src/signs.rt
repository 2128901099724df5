//! On which side of each budget the bundle of a choice lies.
ghost use Rattle.std.specs.Prelude.{◌≡◌, ◌<◌, ◌^◌, IfOk, length};
ghost use Rattle.rp_patch.specs.Choices.{AreChoicesFrom, random_input_of};
ghost use Rattle.rp_patch.specs.Signs.{cost_on as cost_of_choice, sign_to as sign_of_choice};
ghost use Rattle.rp_patch.specs.Signs.{signs_of as signs_of_choice};

use rp_limits::table::GOODS;
use rp_num::NoMemory;
use rp_table::{Budgets, Choices, cost_of_bundle};
use std::alloc::Global;
use std::cmp::Ordering;

/// What choice `i` costs at the prices of budget `k`.
fn cost_on(budgets: &Budgets, choices: &Choices, k: u32, i: u32) -> u64
    requires from { AreChoicesFrom budgets.now choices.now }
    requires budget { k < length budgets.now.w }
    requires choice { i < length choices.now.budget }
    ensures exact { result ≡ cost_of_choice (random_input_of budgets.now choices.now) k i }
    ensures below { result < 2 ^ 51 }
{
    prove!(budgets.goods() <= GOODS);
    cost_of_bundle(budgets.row(k), choices.row(i))
}

/// 1 where choice `i`, scaled to cost the income of its budget, costs more than the income of budget `k`, -1 where it
/// costs less, 0 where it costs as much.
fn sign_to(budgets: &Budgets, choices: &Choices, i: u32, k: u32) -> i8
    requires from { AreChoicesFrom budgets.now choices.now }
    requires budget { k < length budgets.now.w }
    requires choice { i < length choices.now.budget }
    ensures { result ≡ sign_of_choice (random_input_of budgets.now choices.now) i k }
{
    let own = choices.budget(i);
    let there = u128::from(budgets.w(own)) * u128::from(cost_on(budgets, choices, k, i));
    let here = u128::from(budgets.w(k)) * u128::from(cost_on(budgets, choices, own, i));
    match there.cmp(&here) {
        Ordering::Less => -1,
        Ordering::Equal => 0,
        Ordering::Greater => 1,
    }
}

/// The signs of choice `i` to all budgets.
pub fn signs_of(
    alloc: Global,
    budgets: &Budgets,
    choices: &Choices,
    i: u32,
) -> Result<Vec<i8>, NoMemory>
    requires from { AreChoicesFrom budgets.now choices.now }
    requires choice { i < length choices.now.budget }
    ensures { IfOk result
        (λ signs. signs.items ≡ signs_of_choice (random_input_of budgets.now choices.now) i) }
{
    let mut signs = Vec::new(alloc);
    for k in 0..budgets.count() {
        signs.push(sign_to(budgets, choices, i, k))?;
    }
    Ok(signs)
}
