//! How many choices fall in each patch of a budget.
ghost use Rattle.std.specs.Prelude.{◌≡◌, ◌<◌, ◌+◌, ◌*◌, ◌==◌, ◌&&◌, [], IfOk, OnOk, length};
ghost use Rattle.std.specs.Prelude.{map, nat_lt, slice_index, slice_index_or};
ghost use Rattle.std.specs.List.{range_with_len};
ghost use Rattle.rp_patch.specs.Choices.{AreChoicesFrom, random_input_of};
ghost use Rattle.rp_patch.specs.Signs.{signs_of as signs_of_choice};
ghost use Rattle.rp_patch.specs.InnerTallies.{AtMost, tallied, tally_of};
ghost use Rattle.rp_patch.specs.Units.{counted};

use crate::signs::signs_of;
use indexmap::IndexMap;
use rp_limits::table::{CHOICES, LARGEST};
use rp_num::{NoMemory, Seq};
use rp_table::{Budgets, Choices};
use std::alloc::Global;

/// The signs of every choice.
pub fn all_signs(
    alloc: Global,
    budgets: &Budgets,
    choices: &Choices,
) -> Result<Vec<Seq<i8>>, NoMemory>
    requires { AreChoicesFrom budgets.now choices.now }
    ensures { IfOk result (λ all. all.items
        ≡ map (signs_of_choice (random_input_of budgets.now choices.now))
        (range_with_len 0 (length choices.now.budget))) }
{
    let mut all = Vec::new(alloc);
    for i in 0..choices.count() {
        all.push(Seq::from_vec(signs_of(alloc, budgets, choices, i)?))?;
    }
    Ok(all)
}

/// Counts so many more choices with these signs.
fn count<'a>(
    tally: &mut IndexMap<&'a [i8], u64>,
    signs: &'a [i8],
    times: u32,
) -> Result<(), NoMemory>
    requires { AtMost (CHOICES * LARGEST) (tallied tally.old.entries) }
    ensures { OnOk result
        (tallied tally.new.entries ≡ counted (tallied tally.old.entries) signs.now times) }
{
    let before = tally.get(signs).copied().unwrap_or(0);
    tally.insert(signs, before + u64::from(times))?;
    Ok(())
}

/// Whether choice `i` was made on budget `j`, at least once.
fn is_on(choices: &Choices, i: u32, j: u32) -> bool
    requires { i < length choices.now.budget }
    ensures { result
        ≡ ((slice_index choices.now.budget i == j) && nat_lt 0 (slice_index choices.now.times i)) }
{
    choices.budget(i) == j && choices.times(i) > 0
}

/// The signs of choice `i`.
fn signs_at(all: &[Seq<i8>], i: usize) -> &[i8]
    requires { i < length all.now }
    ensures { result.now ≡ slice_index_or all.now i [] }
{
    all[i].as_slice()
}

/// The patches on budget `j` with how many choices fell in each, by the first of them.
pub fn tally_on<'a>(
    alloc: Global,
    choices: &Choices,
    all: &'a [Seq<i8>],
    j: u32,
) -> Result<IndexMap<&'a [i8], u64>, NoMemory>
    requires { length all.now ≡ length choices.now.budget }
    ensures { IfOk result (λ tally. tallied tally.entries
        ≡ tally_of all.now choices.now j (length choices.now.budget)) }
{
    let mut tally = IndexMap::new(alloc);
    for i in 0..choices.count() {
        if is_on(choices, i, j) {
            count(&mut tally, signs_at(all, i as usize), choices.times(i))?;
        }
    }
    Ok(tally)
}
