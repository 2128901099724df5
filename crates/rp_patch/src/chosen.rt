//! All patches that were chosen, with how many choices fell in each.
ghost use Rattle.std.specs.Prelude.{◌≡◌, ◌<◌, ◌≤◌, ◌++◌, [], IfErr, IfOk, OnOk, length, map};
ghost use Rattle.std.specs.Prelude.{slice_index_or};
ghost use Rattle.indexmap.specs.IndexMap.{index_map_len};
ghost use Rattle.rp_patch.specs.Choices.{AreChoicesFrom, random_input_of};
ghost use Rattle.rp_patch.specs.InnerTallies.{SaysWhyChosen, tallied};
ghost use Rattle.rp_patch.specs.Units.{all_chosen as chosen_in, chosen_as};
ghost use Rattle.rp_limits.specs.declared.generated.TheConstants.{PATCHES};

use crate::PatchFault;
use crate::tally::{all_signs, tally_on};
use indexmap::IndexMap;
use rp_num::{NoMemory, Seq};
use rp_table::{Budgets, Choices};
use std::alloc::Global;

/// A budget and the signs of a patch on it, and how many choices fell in it.
#[derive(Debug, Drop)]
pub struct Chosen {
    pub budget: u32,
    pub signs: Seq<i8>,
    pub times: u64,
}

/// All patches, at most so many, by budget and then by the first choice that falls in them.
pub fn all_chosen(
    alloc: Global,
    budgets: &Budgets,
    choices: &Choices,
    most: u32,
) -> Result<Vec<Chosen>, PatchFault>
    requires from { AreChoicesFrom budgets.now choices.now }
    requires most { most ≤ PATCHES }
    ensures exact { IfOk result
        (λ chosen. chosen.items ≡ chosen_in (random_input_of budgets.now choices.now)) }
    ensures few { IfOk result (λ chosen. length chosen.items ≤ most) }
    ensures refused { IfErr result (SaysWhyChosen (random_input_of budgets.now choices.now) most) }
{
    let all = all_signs(alloc, budgets, choices)?;
    let mut chosen = Vec::new(alloc);
    for j in 0..budgets.count() {
        let tally = tally_on(alloc, choices, all.as_slice(), j)?;
        if chosen.len() + tally.len() > most as usize {
            return Err(PatchFault::TooManyPatches { budget: j });
        }
        push_chosen(alloc, &mut chosen, &tally, j)?;
    }
    Ok(chosen)
}

/// The patches of budget `j` after the others.
fn push_chosen(
    alloc: Global,
    chosen: &mut Vec<Chosen>,
    tally: &IndexMap<&[i8], u64>,
    j: u32,
) -> Result<(), NoMemory>
    ensures { OnOk result (chosen.new.items
        ≡ chosen.old.items ++ map (chosen_as j) (tallied tally.now.entries)) }
{
    for at in 0..tally.len() {
        chosen.push(chosen_at(alloc, tally, at, j)?)?;
    }
    Ok(())
}

/// The patch at that place of a tally of budget `j`.
fn chosen_at(
    alloc: Global,
    tally: &IndexMap<&[i8], u64>,
    at: usize,
    j: u32,
) -> Result<Chosen, NoMemory>
    requires { at < index_map_len tally.now }
    ensures { IfOk result (λ chosen. chosen
        ≡ chosen_as j (slice_index_or (tallied tally.now.entries) at ([], 0))) }
{
    let (signs, times) = match tally.get_index(at) {
        Some((signs, times)) => (Vec::from_slice(alloc, signs)?, *times),
        None => (Vec::new(alloc), 0),
    };
    Ok(Chosen {
        budget: j,
        signs: Seq::from_vec(signs),
        times,
    })
}
