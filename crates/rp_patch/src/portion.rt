//! How the units of a total are shared out among the places of each group.
ghost use Rattle.std.specs.Prelude.{◌≡◌, ◌<◌, ◌≤◌, ◌↔◌, ℕ, true, All, IfOk, IfSome, IsTrue, length};
ghost use Rattle.std.specs.Prelude.{MatchOption, nat_lt};
ghost use Rattle.rp_patch.specs.Apportionment.{AreGrouped, grouped};
ghost use Rattle.rp_patch.specs.InnerPortions.{ArePortions, AreRoundedUpBelow, ArePortionUnits};
ghost use Rattle.rp_patch.specs.InnerPortions.{AreWholeParts, IsLeft, IsNextUp, IsRoundedUpBy};
ghost use Rattle.rp_patch.specs.InnerPortions.{RoundsUpFirst};
ghost use Rattle.rp_patch.specs.InnerPortions.{portion_at, portion_of as portion_of_place, portions_on};
ghost use Rattle.rp_patch.specs.InnerPortions.{rounded_up_on, portion_units};
ghost use Rattle.rp_patch.specs.InnerPortions.{whole_on as whole_of_group};

use crate::totals::sum_of;
use rp_limits::patch::{PLACES, UNITS};
use rp_num::NoMemory;
use std::alloc::Global;

/// What a place has of its group's units: the whole part of its share, and one more where it is rounded up. The rest is
/// what is left of the share, in parts of a unit of which there are as many as the counts of the group together.
#[derive(Debug, Drop)]
pub struct Portion {
    pub group: u32,
    pub whole: u64,
    pub rest: u64,
    pub rounded_up: bool,
}

/// The portion of a place of a group, with a count of all in the group.
fn portion_of(group: u32, count: u64, all: u64, total: u64) -> Portion
    requires some { 0 < all }
    requires within { count ≤ all }
    requires few { total ≤ UNITS }
    ensures { result ≡ portion_of_place group count all total }
{
    let share = u128::from(count) * u128::from(total);
    Portion {
        group,
        whole: (share / u128::from(all)) as u64,
        rest: (share % u128::from(all)) as u64,
        rounded_up: false,
    }
}

/// The portions of all places, none rounded up yet.
pub fn portions_of(
    alloc: Global,
    groups: &[u32],
    counts: &[u64],
    total: u64,
) -> Result<Vec<Portion>, NoMemory>
    requires grouped { AreGrouped groups.now counts.now }
    requires few { total ≤ UNITS }
    ensures { IfOk result (λ portions. ArePortions (grouped groups.now counts.now) total
        (length groups.now) portions.items) }
{
    let mut portions = Vec::new(alloc);
    for i in 0..groups.len() {
        let all = sum_of(groups, counts, groups[i]);
        portions.push(portion_of(groups[i], counts[i], all, total))?;
    }
    Ok(portions)
}

/// Whether portion `i` has a greater rest than the best so far.
fn is_better(portions: &[Portion], i: usize, best: Option<usize>) -> bool
    requires here { i < length portions.now }
    requires there { IfSome best (λ b. b < length portions.now) }
    ensures { MatchOption best (result ≡ true)
        (λ b. result ≡ nat_lt (portion_at portions.now b).rest (portion_at portions.now i).rest) }
{
    match best {
        Some(best) => portions[best].rest < portions[i].rest,
        None => true,
    }
}

/// Whether portion `i` is of group `j` and not rounded up.
fn is_left(portions: &[Portion], i: usize, j: u32) -> bool
    requires { i < length portions.now }
    ensures { IsTrue result ↔ IsLeft portions.now j i }
{
    portions[i].group == j && !portions[i].rounded_up
}

/// The portion of group `j` with the largest rest of those that are not rounded up, the first of equal ones.
fn next_up(portions: &[Portion], j: u32) -> Option<usize>
    ensures { IsNextUp portions.now j (length portions.now) result }
{
    let mut best = None;
    for i in 0..portions.len() {
        if is_left(portions, i, j) && is_better(portions, i, best) {
            best = Some(i);
        }
    }
    best
}

/// Rounds up so many portions of group `j`.
fn round_up(portions: &mut Vec<Portion>, j: u32, many: u64)
    requires first { RoundsUpFirst portions.old.items }
    requires none_yet { rounded_up_on portions.old.items j ≡ 0 }
    requires enough { many ≤ portions_on portions.old.items j }
    ensures { IsRoundedUpBy portions.old.items portions.new.items j many }
{
    for _ in 0..many {
        if let Some(i) = next_up(portions.as_slice(), j) {
            portions[i].rounded_up = true;
        }
    }
}

/// The whole parts of group `j` together.
fn whole_on(portions: &[Portion], j: u32) -> u64
    requires few { length portions.now ≤ PLACES }
    requires small { All (λ portion. portion.whole ≤ UNITS) portions.now }
    ensures { result ≡ whole_of_group portions.now j }
{
    let mut whole = 0;
    for portion in portions {
        if portion.group == j {
            whole += portion.whole;
        }
    }
    whole
}

/// Rounds up portions of each group until all of the total is given.
pub fn round_all_up(portions: &mut Vec<Portion>, groups: u32, total: u64)
    requires { AreWholeParts portions.old.items groups total }
    ensures { AreRoundedUpBelow portions.old.items portions.new.items groups total }
{
    for j in 0..groups {
        let missing = total - whole_on(portions.as_slice(), j);
        round_up(portions, j, missing);
    }
}

/// The units of a portion.
fn units(portion: &Portion) -> u64
    requires { portion.now.whole ≤ UNITS }
    ensures { result ≡ portion_units portion.now }
{
    portion.whole + u64::from(portion.rounded_up)
}

/// The units of all portions.
pub fn all_units(alloc: Global, portions: &[Portion]) -> Result<Vec<u64>, NoMemory>
    requires { (i : ℕ) → i < length portions.now → (portion_at portions.now i).whole ≤ UNITS }
    ensures { IfOk result (λ units.
        ArePortionUnits portions.now (length portions.now) units.items) }
{
    let mut all = Vec::new(alloc);
    for portion in portions {
        all.push(units(portion))?;
    }
    Ok(all)
}
