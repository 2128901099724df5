//! Weighted closed walks: as much of each shortest one as its steps still carry, until none is left (local ratios as in
//! Bar-Yehuda and Even 1985).
ghost use Rattle.std.specs.Prelude.{IfOk};
ghost use Rattle.rp_fit_search.specs.Looked.{HasLooked};

use crate::graph::{Graph, narrow};
use crate::looks::Looks;
use crate::shortest::shortest_closed_walk;
use rp_fit::WeightedWalk;
use rp_num::{NoMemory, Seq};
use std::alloc::Global;

/// What a step loads: itself alone, or each step from the same observation that is at least as dear to take away.
#[derive(Clone, Copy)]
pub(crate) enum Load {
    Alone,
    AllDearer,
}

/// What each step costs to take away, what it still carries, and the walks so far with their weights.
#[derive(Drop)]
pub(crate) struct Packing {
    load: Load,
    prices: Graph,
    left: Graph,
    pub(crate) walks: Vec<WeightedWalk>,
}

impl Packing {
    /// No walks yet.
    pub(crate) fn new(alloc: Global, load: Load, prices: Graph) -> Result<Packing, NoMemory> {
        let left = prices.copied(alloc)?;
        Ok(Packing {
            load,
            prices,
            left,
            walks: Vec::new(alloc),
        })
    }

    /// What is left of each step.
    pub(crate) fn left(&self) -> &Graph {
        &self.left
    }

    /// What each step costs.
    pub(crate) fn prices(&self) -> &Graph {
        &self.prices
    }

    /// How much each step of a walk still carries.
    fn least_left(&self, walk: &[u32]) -> u64 {
        let mut least = u64::MAX;
        for k in 1..walk.len() {
            least = least.min(self.left.at(walk[k - 1], walk[k]));
        }
        least
    }

    /// Loads the step from `s` to `t`, and what it loads with it.
    fn load_step(&mut self, s: u32, t: u32, weight: u64) {
        let left = self.left.at(s, t).saturating_sub(weight);
        let price = self.prices.at(s, t);
        match self.load {
            Load::Alone => self.left.set(s, t, left),
            Load::AllDearer => self.load_dearer(s, price, weight, left),
        }
    }

    /// Loads the steps from `s` that cost so much or more; a cheaper one carries no more than what is left of them.
    fn load_dearer(&mut self, s: u32, price: u64, weight: u64, least: u64) {
        for u in 0..self.left.count() {
            let left = self.left.at(s, u);
            if self.prices.at(s, u) >= price {
                self.left.set(s, u, left.saturating_sub(weight));
            } else {
                self.left.set(s, u, left.min(least));
            }
        }
    }

    /// Gives a walk as much weight as its steps carry. Whether that is some.
    fn take(&mut self, walk: Vec<u32>, looks: &mut Looks) -> Result<bool, NoMemory>
        ensures { IfOk result (λ _. HasLooked looks.old looks.new) }
    {
        let weight = self.least_left(walk.as_slice());
        if weight == 0 || !looks.take() {
            return Ok(false);
        }
        for k in 1..walk.len() {
            self.load_step(walk[k - 1], walk[k], weight);
        }
        self.walks.push(WeightedWalk {
            weight,
            walk: Seq::from_vec(walk),
        })?;
        Ok(true)
    }

    /// Takes the walks of two steps from `s`.
    fn take_pairs(&mut self, alloc: Global, s: u32, looks: &mut Looks) -> Result<(), NoMemory>
        ensures { IfOk result (λ _. HasLooked looks.old looks.new) }
    {
        for t in s.saturating_add(1)..self.left.count() {
            if self.left.at(s, t) > 0 && self.left.at(t, s) > 0 {
                let walk = vec![in alloc; s, t, s]?;
                self.take(walk, looks)?;
            }
        }
        Ok(())
    }

    /// Takes the shortest walks from `s` until none is left, among those that are not closed off.
    fn take_from(
        &mut self,
        alloc: Global,
        s: u32,
        closed: &[bool],
        looks: &mut Looks,
    ) -> Result<(), NoMemory>
        ensures { IfOk result (λ _. HasLooked looks.old looks.new) }
    {
        for _turn in 0..looks.limit {
            let Some(walk) = shortest_closed_walk(alloc, &self.left, s, 1, closed, looks)? else {
                return Ok(());
            };
            if !self.take(walk, looks)? {
                return Ok(());
            }
        }
        Ok(())
    }

    /// Takes the walks of two steps.
    fn fill_pairs(&mut self, alloc: Global, looks: &mut Looks) -> Result<(), NoMemory>
        ensures { IfOk result (λ _. HasLooked looks.old looks.new) }
    {
        for s in 0..self.left.count() {
            self.take_pairs(alloc, s, looks)?;
        }
        Ok(())
    }

    /// Takes walks until none is left, or no look is.
    pub(crate) fn fill(&mut self, alloc: Global, looks: &mut Looks) -> Result<(), NoMemory>
        ensures { IfOk result (λ _. HasLooked looks.old looks.new) }
    {
        self.fill_pairs(alloc, looks)?;
        let mut closed = Vec::new(alloc);
        closed.resize(self.left.count() as usize, false)?;
        for s in 0..closed.len() {
            self.take_from(alloc, narrow(s), closed.as_slice(), looks)?;
            closed[s] = true;
        }
        Ok(())
    }
}
