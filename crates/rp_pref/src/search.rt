//! A search by breadth for the least numbers of steps.
ghost use Rattle.std.specs.Prelude.{◌≡◌, ◌<◌, ◌≤◌, ◌+◌, ◌*◌, IfOk, false};
ghost use Rattle.std.specs.Prelude.{length, slice_index};
ghost use Rattle.rp_limits.specs.declared.table.TheConstants.{RECORDS};
ghost use Rattle.rp_pref.specs.InnerSearch.{AddsDepth, AreDepths, AreFirst, AreLeastDepths};
ghost use Rattle.rp_pref.specs.InnerSearch.{AreLookedFrom, FindsMore, GoesTo, IsLookedFrom};

use rp_num::NoMemory;
use std::alloc::Global;

/// What a search from one observation found: of each observation the least number of steps in which a walk leads
/// there, or 0 where none does, and the last observation before it on such a walk.
#[derive(Drop)]
pub struct ShortestWalks {
    pub depths: Vec<u32>,
    pub before: Vec<u32>,
}

/// Notes what `u` has a step to and has no depth yet; says whether there was any.
fn look(
    table: &[bool],
    n: usize,
    s: usize,
    u: usize,
    depths: &mut [u32],
    before: &mut [u32],
) -> bool
    requires size { length table.now ≡ n * n }
    requires small { n ≤ RECORDS }
    requires sound { AreDepths table.now n s depths.old before.old }
    requires from { u < n }
    requires walked { 0 < slice_index depths.old u }
    requires fits { slice_index depths.old u ≤ n + 1 }
    ensures sound { AreDepths table.now n s depths.new before.new }
    ensures adds { AddsDepth n (slice_index depths.old u + 1) depths.old depths.new }
    ensures looked { IsLookedFrom table.now n u n depths.new }
    ensures finds { FindsMore result depths.old depths.new }
{
    let depth = depths[u];
    let mut found = false;
    for t in 0..n {
        if table[u * n + t] && depths[t] == 0 {
            depths[t] = depth + 1;
            before[t] = u as u32;
            found = true;
        }
    }
    found
}

/// Looks from every observation of this depth; says whether that gave any other a depth.
fn deepen(
    table: &[bool],
    n: usize,
    s: usize,
    depth: u32,
    depths: &mut [u32],
    before: &mut [u32],
) -> bool
    requires size { length table.now ≡ n * n }
    requires small { n ≤ RECORDS }
    requires sound { AreDepths table.now n s depths.old before.old }
    requires walked { 0 < depth }
    requires fits { depth ≤ n + 1 }
    ensures sound { AreDepths table.now n s depths.new before.new }
    ensures adds { AddsDepth n (depth + 1) depths.old depths.new }
    ensures looked { AreLookedFrom table.now n depth n depths.new }
    ensures finds { FindsMore result depths.old depths.new }
{
    let mut found = false;
    for u in 0..n {
        if depths[u] == depth {
            found = look(table, n, s, u, depths, before) || found;
        }
    }
    found
}

/// The depths of what one step from `s` leads to; 0 for the rest.
fn first_depths(alloc: Global, table: &[bool], n: usize, s: usize) -> Result<Vec<u32>, NoMemory>
    requires size { length table.now ≡ n * n }
    requires small { n ≤ RECORDS }
    requires start { s < n }
    ensures length { IfOk result (λ depths. length depths.items ≡ n) }
    ensures first { IfOk result (λ depths. AreFirst table.now n s n depths.items) }
{
    let mut depths = Vec::new(alloc);
    for t in 0..n {
        depths.push(u32::from(table[s * n + t]))?;
    }
    Ok(depths)
}

/// Deepens the first depths until nothing more is found.
fn deepen_all(table: &[bool], n: usize, s: usize, depths: &mut [u32], before: &mut [u32])
    requires size { length table.now ≡ n * n }
    requires small { n ≤ RECORDS }
    requires start { s < n }
    requires first { GoesTo table.now n s 1 depths.old before.old }
    ensures sound { AreDepths table.now n s depths.new before.new }
    ensures least { AreLeastDepths table.now n s depths.new }
{
    let mut depth = 1;
    while deepen(table, n, s, depth, depths, before) {
        depth += 1;
    }
}

/// The shortest walks of one or more steps from `s`.
pub fn walks_from(
    alloc: Global,
    table: &[bool],
    n: usize,
    s: usize,
) -> Result<ShortestWalks, NoMemory>
    requires size { length table.now ≡ n * n }
    requires small { n ≤ RECORDS }
    requires start { s < n }
    ensures sound { IfOk result (λ found.
        AreDepths table.now n s found.depths.items found.before.items) }
    ensures least { IfOk result (λ found. AreLeastDepths table.now n s found.depths.items) }
{
    let mut depths = first_depths(alloc, table, n, s)?;
    let mut before = vec![in alloc; 0; n]?;
    deepen_all(table, n, s, &mut depths, &mut before);
    Ok(ShortestWalks { depths, before })
}
