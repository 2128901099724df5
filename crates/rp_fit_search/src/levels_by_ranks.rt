//! Levels by ranks: each observation is held to the cheapest bundle to which its steps do not fall.
ghost use Rattle.std.specs.Prelude.{◌≡◌, ◌<◌, ◌+◌, IfOk, Ok, length, vec_len};
ghost use Rattle.rp_check_levels.specs.LevelsFailure.{LevelsFail};
ghost use Rattle.rp_fit_search.specs.InnerByRanks.{AreCheapestBelow, IsCheapestRising, IsCheapestUpTo};
ghost use Rattle.rp_table.specs.Cost.{cost_of};
ghost use Rattle.rp_table.specs.Tables.{records_of};

use rp_clauses::input::Input;
use rp_fit::{Lack, LevelsPart};
use rp_num::{NoMemory, Seq};
use std::alloc::Global;

/// The cheapest bundle so far, or that of `t` where it is cheaper and the rank does not fall there.
#[tactic(auto, using(crate::proofs::LevelsByRanks::cheapest_where_rank_falls, crate::proofs::LevelsByRanks::cheapest_where_not_cheaper, crate::proofs::LevelsByRanks::cheapest_next))]
fn next_cheapest(input: &Input<'_>, ranks: &[u32], s: u32, cheapest: u32, t: u32) -> u32
    requires from { s < records_of input.now.table.now }
    requires to { t < records_of input.now.table.now }
    requires ranks { length ranks.now ≡ records_of input.now.table.now }
    requires so_far { IsCheapestUpTo (records_of input.now.table.now)
        (cost_of input.now.table.now) ranks.now t s cheapest }
    ensures { IsCheapestUpTo (records_of input.now.table.now) (cost_of input.now.table.now)
        ranks.now (t + 1) s result }
{
    if ranks[t as usize] < ranks[s as usize] {
        return cheapest;
    }
    if input.cost(s, cheapest) <= input.cost(s, t) {
        return cheapest;
    }
    t
}

/// The cheapest bundle at the prices of `s`, of those that are cheaper than its own and at which the rank does not fall;
/// its own where there is none.
#[tactic(auto, using(crate::proofs::LevelsByRanks::cheapest_none))]
fn cheapest_rising(input: &Input<'_>, ranks: &[u32], s: u32) -> u32
    requires from { s < records_of input.now.table.now }
    requires ranks { length ranks.now ≡ records_of input.now.table.now }
    ensures { IsCheapestRising (records_of input.now.table.now) (cost_of input.now.table.now)
        ranks.now s result }
{
    let n = input.n();
    let mut cheapest = s;
    for t in 0..n {
        cheapest = next_cheapest(input, ranks, s, cheapest, t);
    }
    cheapest
}

/// That bundle for each observation.
#[tactic(auto, using(crate::proofs::LevelsByRanks::cheapest_below_none))]
fn cheapest_each(alloc: Global, input: &Input<'_>, ranks: &[u32]) -> Result<Vec<u32>, NoMemory>
    requires { length ranks.now ≡ records_of input.now.table.now }
    ensures { IfOk result (λ at. AreCheapestBelow (records_of input.now.table.now)
        (cost_of input.now.table.now) ranks.now (records_of input.now.table.now) at.items) }
{
    let mut at = Vec::new(alloc);
    for s in 0..input.n() {
        at.push(cheapest_rising(input, ranks, s))?;
    }
    Ok(at)
}

/// As many ranks as there are observations.
pub(crate) fn fitted(input: &Input<'_>, ranks: Vec<u32>) -> Result<Vec<u32>, NoMemory>
    ensures { IfOk result (λ fitted. vec_len fitted ≡ records_of input.now.table.now) }
{
    let mut ranks = ranks;
    ranks.resize(input.n() as usize, 0)?;
    Ok(ranks)
}

/// The levels by ranks, with no walks. They pass the check whatever the ranks are.
pub(crate) fn levels_by_ranks(
    alloc: Global,
    input: &Input<'_>,
    lack: Lack,
    ranks: Vec<u32>,
) -> Result<LevelsPart, NoMemory>
    ensures lack { IfOk result (λ part. part.lack ≡ lack) }
    ensures accepted { IfOk result (λ part. LevelsFail (records_of input.now.table.now)
        (cost_of input.now.table.now) part (Ok tt)) }
{
    let ranks = fitted(input, ranks)?;
    let at = cheapest_each(alloc, input, ranks.as_slice())?;
    Ok(LevelsPart {
        lack,
        at: Seq::from_vec(at),
        ranks: Seq::from_vec(ranks),
        den: 1,
        walks: Seq::from_vec(Vec::new(alloc)),
    })
}
