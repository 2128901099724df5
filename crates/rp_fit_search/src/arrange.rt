//! Better orders of the observations: each is moved to the place where the steps against the order cost least.
ghost use Rattle.rp_fit_search.specs.Looked.{HasLooked};

use crate::graph::{Graph, entry, narrow};
use crate::looks::Looks;
use crate::order::{Order, rank_of};
use crate::packing::Load;
use rp_fit::WeightedWalk;

/// How many looks the moves of one observation make for each of them, at most: each exchange makes four.
const LOOKS_EACH: u64 = 16;

/// What the steps of a row cost that do not fall: all together, or the dearest.
fn cost_of_row(row: &[u64], ranks: &[u32], own: u32, load: Load) -> u64 {
    let mut cost: u64 = 0;
    for t in 0..narrow(row.len()) {
        if rank_of(ranks, t) > own {
            let price = entry(row, t);
            cost = match load {
                Load::Alone => cost.saturating_add(price),
                Load::AllDearer => cost.max(price),
            };
        }
    }
    cost
}

/// The weight of all walks together.
fn weight_of(walks: &[WeightedWalk]) -> i128 {
    let mut weight: i128 = 0;
    for k in 0..walks.len() {
        weight = weight.saturating_add(i128::from(walks[k].weight));
    }
    weight
}

/// An order that is being improved.
#[derive(Drop)]
pub(crate) struct Arranging<'a> {
    pub(crate) prices: &'a Graph,
    pub(crate) load: Load,
}

impl Arranging<'_> {
    /// What the steps from `s` cost that do not fall; none where no look is left.
    fn cost_from(&self, order: &Order, s: u32, looks: &mut Looks) -> Option<i128>
        ensures { HasLooked looks.old looks.new }
    {
        let row = self.prices.row(s, looks)?;
        let own = rank_of(order.ranks.as_slice(), s);
        Some(i128::from(cost_of_row(row, order.ranks.as_slice(), own, self.load)))
    }

    /// What the steps from the observations of a rank and the next cost that do not fall.
    fn cost_at(&self, order: &Order, rank: u32, looks: &mut Looks) -> Option<i128>
        ensures { HasLooked looks.old looks.new }
    {
        let low = self.cost_from(order, order.of_rank(rank), looks)?;
        let high = self.cost_from(order, order.of_rank(rank.saturating_add(1)), looks)?;
        Some(low.saturating_add(high))
    }

    /// Exchanges the observations of a rank and the next. How much more the order then costs; none where no look is left.
    fn exchange(&self, order: &mut Order, rank: u32, looks: &mut Looks) -> Option<i128>
        ensures { HasLooked looks.old looks.new }
    {
        let before = self.cost_at(order, rank, looks)?;
        order.exchange(rank);
        let after = self.cost_at(order, rank, looks)?;
        Some(after.saturating_sub(before))
    }

    /// What all steps cost that do not fall; none where no look is left.
    fn cost(&self, order: &Order, looks: &mut Looks) -> Option<i128>
        ensures { HasLooked looks.old looks.new }
    {
        let mut cost: i128 = 0;
        for s in 0..self.prices.count() {
            cost = cost.saturating_add(self.cost_from(order, s, looks)?);
        }
        Some(cost)
    }

    /// Whether the steps that do not fall cost no more than walks with weights over `den` show; no where no look is
    /// left.
    pub(crate) fn is_met(
        &self,
        order: &Order,
        den: u64,
        walks: &[WeightedWalk],
        looks: &mut Looks,
    ) -> bool
        ensures { HasLooked looks.old looks.new }
    {
        match self.cost(order, looks) {
            Some(cost) => weight_of(walks) > i128::from(den).saturating_mul(cost.saturating_sub(1)),
            None => false,
        }
    }

    /// Whether the steps that do not fall cost less by one order than by another; no where no look is left.
    pub(crate) fn is_cheaper(&self, one: &Order, other: &Order, looks: &mut Looks) -> bool
        ensures { HasLooked looks.old looks.new }
    {
        match (self.cost(one, looks), self.cost(other, looks)) {
            (Some(less), Some(more)) => less < more,
            _ => false,
        }
    }

    /// Moves the observation of a rank up to another. The change at the best rank on the way, and that rank.
    fn up(&self, order: &mut Order, from: u32, to: u32, looks: &mut Looks) -> Option<Best>
        ensures { HasLooked looks.old looks.new }
    {
        let mut best = Best::at(from);
        for rank in from..to {
            let change = self.exchange(order, rank, looks)?;
            best.goes_on(change, rank.saturating_add(1));
        }
        Some(best)
    }

    /// Moves the observation of a rank down to another. The change at the best rank on the way, and that rank.
    fn down(&self, order: &mut Order, from: u32, to: u32, looks: &mut Looks) -> Option<Best>
        ensures { HasLooked looks.old looks.new }
    {
        let mut best = Best::at(from);
        for k in 0..from.saturating_sub(to) {
            let rank = from.saturating_sub(k).saturating_sub(1);
            let change = self.exchange(order, rank, looks)?;
            best.goes_on(change, rank);
        }
        Some(best)
    }

    /// Moves an observation to its best rank, where a step of its own goes against the order. Whether that costs less than
    /// before; none where no look is left.
    fn settle(&self, order: &mut Order, s: u32, looks: &mut Looks) -> Option<bool>
        ensures { HasLooked looks.old looks.new }
    {
        let count = self.prices.count();
        if !looks.are_left(u64::from(count) * LOOKS_EACH) {
            return None;
        }
        if self.cost_from(order, s, looks)? == 0 {
            return Some(false);
        }
        let last = count.saturating_sub(1);
        let from = rank_of(order.ranks.as_slice(), s);
        let above = self.up(order, from, last, looks)?;
        let below = self.down(order, last, 0, looks)?;
        let best = above.least.min(above.so_far.saturating_add(below.least));
        let to = if above.least <= best {
            above.rank
        } else {
            below.rank
        };
        self.up(order, 0, to, looks)?;
        Some(best < 0)
    }

    /// Moves each observation to its best rank, one after the other. Whether one move made it cheaper.
    fn settle_each(&self, order: &mut Order, looks: &mut Looks) -> Option<bool>
        ensures { HasLooked looks.old looks.new }
    {
        let mut is_better = false;
        for s in 0..self.prices.count() {
            let moved = self.settle(order, s, looks)?;
            is_better = is_better || moved;
        }
        Some(is_better)
    }

    /// Moves observations until no move makes the order cheaper, or no look is left.
    pub(crate) fn improve(&self, order: &mut Order, looks: &mut Looks)
        ensures { HasLooked looks.old looks.new }
    {
        for _turn in 0..looks.limit {
            match self.settle_each(order, looks) {
                Some(true) => {}
                _ => return,
            }
        }
    }
}

/// How much more the order costs after some moves, and the rank at which it cost least.
#[derive(Drop)]
struct Best {
    so_far: i128,
    least: i128,
    rank: u32,
}

impl Best {
    /// Nothing moved yet.
    fn at(rank: u32) -> Best {
        Best {
            so_far: 0,
            least: 0,
            rank,
        }
    }

    /// One move more.
    fn goes_on(&mut self, change: i128, rank: u32) {
        self.so_far = self.so_far.saturating_add(change);
        if self.so_far < self.least {
            self.least = self.so_far;
            self.rank = rank;
        }
    }
}
