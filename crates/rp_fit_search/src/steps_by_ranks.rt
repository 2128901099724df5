//! Steps by ranks: those strict steps are taken away along which the rank does not fall.
ghost use Rattle.std.specs.Prelude.{◌≡◌, ◌<◌, ◌+◌, IfOk, Ok, length};
ghost use Rattle.rp_check_levels.specs.StepsFailure.{StepsFail};
ghost use Rattle.rp_fit_search.specs.InnerByRanks.{AreRisingBelow, AreRisingSteps, AreRisingUpTo};
ghost use Rattle.rp_table.specs.Cost.{cost_of};
ghost use Rattle.rp_table.specs.Tables.{records_of};

use crate::levels_by_ranks::fitted;
use rp_check_levels::cost_of_taken;
use rp_check_walks::is_strict;
use rp_clauses::input::Input;
use rp_fit::StepsPart;
use rp_num::{NoMemory, Seq};
use std::alloc::Global;

/// Lists `t` where a strict step of `s` leads to it and the rank does not fall.
#[tactic(auto, using(crate::proofs::StepsByRanks::rising_where_rank_falls, crate::proofs::StepsByRanks::rising_where_not_strict))]
fn list_rising(
    input: &Input<'_>,
    ranks: &[u32],
    s: u32,
    t: u32,
    row: &mut Vec<u32>,
) -> Result<(), NoMemory>
    requires from { s < records_of input.now.table.now }
    requires to { t < records_of input.now.table.now }
    requires ranks { length ranks.now ≡ records_of input.now.table.now }
    requires so_far { AreRisingUpTo (records_of input.now.table.now)
        (cost_of input.now.table.now) ranks.now t s row.old.items }
    ensures { IfOk result (λ _. AreRisingUpTo (records_of input.now.table.now)
        (cost_of input.now.table.now) ranks.now (t + 1) s row.new.items) }
{
    if ranks[t as usize] < ranks[s as usize] {
        return Ok(());
    }
    if !is_strict(input, s, t) {
        return Ok(());
    }
    row.push(t)?;
    Ok(())
}

/// The observations to which strict steps of `s` lead along which the rank does not fall.
#[tactic(auto, using(crate::proofs::StepsByRanks::rising_none))]
fn rising_from(
    alloc: Global,
    input: &Input<'_>,
    ranks: &[u32],
    s: u32,
) -> Result<Vec<u32>, NoMemory>
    requires from { s < records_of input.now.table.now }
    requires ranks { length ranks.now ≡ records_of input.now.table.now }
    ensures { IfOk result (λ row. AreRisingSteps (records_of input.now.table.now)
        (cost_of input.now.table.now) ranks.now s row.items) }
{
    let n = input.n();
    let mut row = Vec::new(alloc);
    for t in 0..n {
        list_rising(input, ranks, s, t, &mut row)?;
    }
    Ok(row)
}

/// Those observations for each one.
#[tactic(auto, using(crate::proofs::StepsByRanks::rising_below_none))]
fn rising_each(alloc: Global, input: &Input<'_>, ranks: &[u32]) -> Result<Vec<Seq<u32>>, NoMemory>
    requires { length ranks.now ≡ records_of input.now.table.now }
    ensures { IfOk result (λ rows. AreRisingBelow (records_of input.now.table.now)
        (cost_of input.now.table.now) ranks.now (records_of input.now.table.now) rows.items) }
{
    let mut rows = Vec::new(alloc);
    for s in 0..input.n() {
        rows.push(Seq::from_vec(rising_from(alloc, input, ranks, s)?))?;
    }
    Ok(rows)
}

/// The steps by ranks, with no walks. They pass the check whatever the ranks are.
pub(crate) fn steps_by_ranks(
    alloc: Global,
    input: &Input<'_>,
    ranks: Vec<u32>,
) -> Result<StepsPart, NoMemory>
    ensures { IfOk result (λ part. StepsFail (records_of input.now.table.now)
        (cost_of input.now.table.now) part (Ok tt)) }
{
    let ranks = fitted(input, ranks)?;
    let taken = rising_each(alloc, input, ranks.as_slice())?;
    let cost = cost_of_taken(input, taken.as_slice());
    Ok(StepsPart {
        taken: Seq::from_vec(taken),
        cost,
        ranks: Seq::from_vec(ranks),
        den: 1,
        walks: Seq::from_vec(Vec::new(alloc)),
    })
}
