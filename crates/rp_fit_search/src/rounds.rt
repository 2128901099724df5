//! Weighted closed walks by a linear program: a walk is worth 1 and loads its steps, the program is solved on integers,
//! and walks that are cheaper by its prices than the denominator are added, until there is none (Ford and Fulkerson
//! 1958; Gilmore and Gomory 1961).
ghost use Rattle.std.specs.Prelude.{◌≡◌, IfOk, vec_len};
ghost use Rattle.rp_fit_search.specs.Looked.{HasLooked};

use crate::cheapest::{Sought, cheapest_closed_walk};
use crate::graph::{Graph, narrow};
use crate::looks::Looks;
use crate::packing::Load;
use crate::rows::Rows;
use rp_farkas::{Entry, Pair};
use rp_fit::WeightedWalk;
use rp_num::{NoMemory, Seq};
use rp_whole_tableau::Grown;
use std::alloc::Global;

/// The most rounds of a search.
const MOST_ROUNDS: u32 = 64;

/// The most rows of a program. Its tableau has as many columns.
const MOST_ROWS: usize = 512;

/// What a program shows: walks with weights over `den`, and the length of each step by its prices. A closed walk whose
/// steps have the length `den` together is not cheap.
#[derive(Drop)]
pub(crate) struct Solution {
    pub(crate) den: u64,
    pub(crate) walks: Vec<WeightedWalk>,
    pub(crate) lengths: Graph,
    pub(crate) price: u64,
}

impl Solution {
    /// The steps from `s` that are shorter than half of what a walk may be: 1 for each, 0 for any other.
    fn write_carrying_from(&self, prices: &Graph, s: u32, carrying: &mut Graph) {
        for t in 0..prices.count() {
            if prices.at(s, t) > 0 && self.lengths.at(s, t) < self.price / 2 + self.price % 2 {
                carrying.set(s, t, 1);
            }
        }
    }

    /// Those steps from each observation. Where each length is 0 or at least `price`, no closed walk is left of them.
    pub(crate) fn carrying(&self, alloc: Global, prices: &Graph) -> Result<Graph, NoMemory> {
        let mut carrying = Graph::blank(alloc, prices.count())?;
        for s in 0..prices.count() {
            self.write_carrying_from(prices, s, &mut carrying);
        }
        Ok(carrying)
    }
}

/// Adds the walk of an entry with its weight.
fn add_weighted(
    alloc: Global,
    walks: &[Vec<u32>],
    entry: &Entry,
    weighted: &mut Vec<WeightedWalk>,
) -> Result<(), NoMemory> {
    if let Some(walk) = walks.get(entry.at as usize) {
        weighted.push(WeightedWalk {
            weight: entry.value,
            walk: Seq::from_vec(Vec::from_slice(alloc, walk.as_slice())?),
        })?;
    }
    Ok(())
}

/// The walks of which a point has some.
fn weighted(
    alloc: Global,
    walks: &[Vec<u32>],
    entries: &[Entry],
) -> Result<Vec<WeightedWalk>, NoMemory> {
    let mut weighted = Vec::new(alloc);
    for k in 0..entries.len() {
        add_weighted(alloc, walks, &entries[k], &mut weighted)?;
    }
    Ok(weighted)
}

/// What a solved program shows; none where a number passes a word.
fn shown(
    alloc: Global,
    rows: &Rows<'_>,
    program: &Grown,
    walks: &[Vec<u32>],
) -> Result<Option<Solution>, NoMemory> {
    let Some(Pair { den, y, .. }) = program.point(alloc)? else {
        return Ok(None);
    };
    let Ok(price) = u64::try_from(program.den()) else {
        return Ok(None);
    };
    Ok(Some(Solution {
        den,
        walks: weighted(alloc, walks, y.as_slice())?,
        lengths: rows.lengths(alloc, program)?,
        price,
    }))
}

/// Solves the program of these walks, where a look for each row is left. None where none is, where it has too many rows
/// or where a number passes its width.
fn solved(
    alloc: Global,
    load: Load,
    prices: &Graph,
    walks: &[Vec<u32>],
    looks: &mut Looks,
) -> Result<Option<Solution>, NoMemory>
    ensures { IfOk result (λ _. HasLooked looks.old looks.new) }
{
    let rows = Rows::of(alloc, load, prices, walks)?;
    if rows.count() > MOST_ROWS || !looks.take_many(rows.count() as u64) {
        return Ok(None);
    }
    let mut program = rows.program(alloc, walks)?;
    if !program.solve(alloc, u64::MAX)? {
        return Ok(None);
    }
    shown(alloc, &rows, &program, walks)
}

/// Adds walks that are cheap by a solution: from each observation the cheapest through none before it. Whether there is
/// one.
fn add_cheap(
    alloc: Global,
    prices: &Graph,
    solution: &Solution,
    walks: &mut Vec<Vec<u32>>,
    looks: &mut Looks,
) -> Result<bool, NoMemory>
    ensures { IfOk result (λ _. HasLooked looks.old looks.new) }
{
    let mut closed = Vec::new(alloc);
    closed.resize(prices.count() as usize, false)?;
    let mut is_added = false;
    for s in 0..closed.len() {
        let sought = Sought {
            start: narrow(s),
            first: 1,
            below: solution.price,
        };
        let lengths = &solution.lengths;
        let walk = cheapest_closed_walk(alloc, prices, lengths, sought, closed.as_slice(), looks)?;
        if let Some(walk) = walk {
            walks.push(walk)?;
            is_added = true;
        }
        closed[s] = true;
    }
    Ok(is_added)
}

/// The last solution of the rounds that begin with these walks, where there is one. Its walks keep to what the steps
/// carry, whichever round it is of.
pub(crate) fn rounds(
    alloc: Global,
    load: Load,
    prices: &Graph,
    walks: Vec<Vec<u32>>,
    looks: &mut Looks,
) -> Result<Option<Solution>, NoMemory>
    ensures { IfOk result (λ _. HasLooked looks.old looks.new) }
{
    let mut walks = walks;
    let mut last = None;
    for _round in 0..MOST_ROUNDS {
        let Some(solution) = solved(alloc, load, prices, walks.as_slice(), looks)? else {
            return Ok(last);
        };
        let is_added = add_cheap(alloc, prices, &solution, &mut walks, looks)?;
        last = Some(solution);
        if !is_added {
            return Ok(last);
        }
    }
    Ok(last)
}
