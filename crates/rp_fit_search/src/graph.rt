//! A number for each two observations.
ghost use Rattle.rp_fit_search.specs.Looked.{HasLooked};

use crate::looks::Looks;
use rp_num::NoMemory;
use std::alloc::Global;

/// A number for each ordered pair of observations, 0 where no step leads from the first to the second.
#[derive(Drop)]
pub(crate) struct Graph {
    rows: Vec<Vec<u64>>,
}

/// The entry at a place, or 0 past the end.
pub(crate) fn entry(row: &[u64], place: u32) -> u64 {
    match row.get(place as usize) {
        Some(entry) => *entry,
        None => 0,
    }
}

/// Writes the entry at a place, where there is one.
fn write(row: &mut [u64], place: u32, number: u64) {
    if (place as usize) < row.len() {
        row[place as usize] = number;
    }
}

/// A number of observations. There are at most 512, so none is lost.
pub(crate) fn narrow(count: usize) -> u32 {
    u32::try_from(count).unwrap_or(u32::MAX)
}

impl Graph {
    /// These rows.
    pub(crate) fn of(rows: Vec<Vec<u64>>) -> Graph {
        Graph { rows }
    }

    /// The number 0 for each two of so many observations.
    pub(crate) fn blank(alloc: Global, count: u32) -> Result<Graph, NoMemory> {
        let mut rows = Vec::new(alloc);
        for _ in 0..count {
            let mut row = Vec::new(alloc);
            row.resize(count as usize, 0)?;
            rows.push(row)?;
        }
        Ok(Graph { rows })
    }

    /// A copy of these numbers.
    pub(crate) fn copied(&self, alloc: Global) -> Result<Graph, NoMemory> {
        let mut rows = Vec::new(alloc);
        for k in 0..self.rows.len() {
            rows.push(Vec::from_slice(alloc, self.rows[k].as_slice())?)?;
        }
        Ok(Graph { rows })
    }

    /// How many observations there are.
    pub(crate) fn count(&self) -> u32 {
        narrow(self.rows.len())
    }

    /// The numbers of the steps from `s`, which is a look; none where no look is left.
    pub(crate) fn row<'a>(&'a self, s: u32, looks: &mut Looks) -> Option<&'a [u64]>
        ensures { HasLooked looks.old looks.new }
    {
        if !looks.take() {
            return None;
        }
        match self.rows.get(s as usize) {
            Some(row) => Some(row.as_slice()),
            None => None,
        }
    }

    /// The number of the step from `s` to `t`.
    pub(crate) fn at(&self, s: u32, t: u32) -> u64 {
        match self.rows.get(s as usize) {
            Some(row) => entry(row.as_slice(), t),
            None => 0,
        }
    }

    /// Writes the number of the step from `s` to `t`.
    pub(crate) fn set(&mut self, s: u32, t: u32, number: u64) {
        if let Some(row) = self.rows.get_mut(s as usize) {
            write(row.as_mut_slice(), t, number);
        }
    }

    /// Writes the number of each step to `t`.
    pub(crate) fn set_to(&mut self, t: u32, number: u64) {
        for s in 0..self.count() {
            self.set(s, t, number);
        }
    }
}
