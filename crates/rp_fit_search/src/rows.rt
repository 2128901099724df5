//! The rows of the program of walks: the steps that its walks go by.
use crate::graph::Graph;
use crate::packing::Load;
use rp_num::NoMemory;
use rp_whole_tableau::Grown;
use std::alloc::Global;

/// The rows of a program: a step each, with what it costs to take away as the side. `numbers` has the row of each step,
/// counted from 1.
#[derive(Drop)]
pub(crate) struct Rows<'a> {
    load: Load,
    prices: &'a Graph,
    sides: Vec<u64>,
    numbers: Graph,
}

impl Rows<'_> {
    /// No rows yet.
    fn none<'a>(alloc: Global, load: Load, prices: &'a Graph) -> Result<Rows<'a>, NoMemory> {
        Ok(Rows {
            load,
            prices,
            sides: Vec::new(alloc),
            numbers: Graph::blank(alloc, prices.count())?,
        })
    }

    /// The rows of the steps that these walks go by.
    pub(crate) fn of<'a>(
        alloc: Global,
        load: Load,
        prices: &'a Graph,
        walks: &[Vec<u32>],
    ) -> Result<Rows<'a>, NoMemory> {
        let mut rows = Rows::none(alloc, load, prices)?;
        for k in 0..walks.len() {
            rows.add_walk(walks[k].as_slice())?;
        }
        Ok(rows)
    }

    /// Adds the steps of a walk.
    fn add_walk(&mut self, walk: &[u32]) -> Result<(), NoMemory> {
        for k in 1..walk.len() {
            self.add_step(walk[k - 1], walk[k])?;
        }
        Ok(())
    }

    /// Adds a step, where it has no row yet.
    fn add_step(&mut self, s: u32, t: u32) -> Result<(), NoMemory> {
        if self.numbers.at(s, t) == 0 {
            self.sides.push(self.prices.at(s, t))?;
            self.numbers.set(s, t, self.sides.len() as u64);
        }
        Ok(())
    }

    /// How many rows there are.
    pub(crate) fn count(&self) -> usize {
        self.sides.len()
    }

    /// The row of the step from `s` to `u`, where it has one and the step from `s` to `t` loads it.
    fn loaded(&self, s: u32, t: u32, u: u32) -> Option<u32> {
        let is_loaded = match self.load {
            Load::Alone => t == u,
            Load::AllDearer => self.prices.at(s, u) >= self.prices.at(s, t),
        };
        if !is_loaded {
            return None;
        }
        u32::try_from(self.numbers.at(s, u)).ok()?.checked_sub(1)
    }

    /// Lists the rows that the step from `s` to `t` loads.
    fn list_loaded(&self, s: u32, t: u32, column: &mut Vec<u32>) -> Result<(), NoMemory> {
        for u in 0..self.prices.count() {
            if let Some(row) = self.loaded(s, t, u) {
                column.push(row)?;
            }
        }
        Ok(())
    }

    /// The rows that a walk loads.
    fn column(&self, alloc: Global, walk: &[u32]) -> Result<Vec<u32>, NoMemory> {
        let mut column = Vec::new(alloc);
        for k in 1..walk.len() {
            self.list_loaded(walk[k - 1], walk[k], &mut column)?;
        }
        Ok(column)
    }

    /// The program of these rows with a column for each walk.
    pub(crate) fn program(&self, alloc: Global, walks: &[Vec<u32>]) -> Result<Grown, NoMemory> {
        let mut program = Grown::of_sides(alloc, self.sides.as_slice())?;
        for k in 0..walks.len() {
            let column = self.column(alloc, walks[k].as_slice())?;
            program.add(alloc, column.as_slice())?;
        }
        Ok(program)
    }

    /// The sum of the prices of the rows that the step from `s` to `t` loads.
    fn length(&self, program: &Grown, s: u32, t: u32) -> u64 {
        let mut length: u64 = 0;
        for u in 0..self.prices.count() {
            if let Some(row) = self.loaded(s, t, u) {
                let price = u64::try_from(program.price(row as usize)).unwrap_or(u64::MAX);
                length = length.saturating_add(price);
            }
        }
        length
    }

    /// Writes the lengths of the steps from `s`.
    fn write_lengths_from(&self, program: &Grown, s: u32, lengths: &mut Graph) {
        for t in 0..self.prices.count() {
            if self.prices.at(s, t) > 0 {
                lengths.set(s, t, self.length(program, s, t));
            }
        }
    }

    /// The length of each step by the prices of a program.
    pub(crate) fn lengths(&self, alloc: Global, program: &Grown) -> Result<Graph, NoMemory> {
        let mut lengths = Graph::blank(alloc, self.prices.count())?;
        for s in 0..self.prices.count() {
            self.write_lengths_from(program, s, &mut lengths);
        }
        Ok(lengths)
    }
}
