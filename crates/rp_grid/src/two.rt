//! Two rows of a grid at once: one is read while the other is written.
ghost use Rattle.std.specs.Prelude.{◌≡◌, ◌≢◌, ◌<◌, get_or, length};
ghost use Rattle.rp_grid.specs.Rows.{row_of, with_cell};

use crate::grid::Grid;

/// Two rows of one grid, which is lent meanwhile. Only row `into` can change.
#[derive(Drop)]
pub struct Two<'a, C: Copy> {
    grid: &'a mut Grid<C>,
    into: u32,
    from: u32,
    ghost into_there: { into < length grid.now.rows },
    ghost from_there: { from < length grid.now.rows },
    ghost apart: { into ≢ from },
}

impl<C: Copy> Grid<C> {
    /// Rows `into` and `from`. The grid ends as the loan leaves it.
    pub fn two(&mut self, into: u32, from: u32) -> Two<'_, C>
        requires into { into < length self.old.rows }
        requires from { from < length self.old.rows }
        requires apart { into ≢ from }
        ensures same_grid { result.grid.ghost_name ≡ self.entry.ghost_name }
        ensures unchanged { result.grid.now ≡ self.old }
        ensures into { result.into ≡ into }
        ensures from { result.from ≡ from }
    {
        Two {
            grid: self,
            into,
            from,
        }
    }
}

impl<'a, C: Copy> Two<'a, C> {
    /// The element of row `from` in column `c`.
    pub fn from_at(&self, c: u32) -> C
        requires { c < self.now.grid.now.cols }
        ensures { result ≡ get_or (row_of self.now.grid.now self.now.from) c result }
    {
        self.grid.row(self.from)[c as usize]
    }

    /// The element of row `into` in column `c`.
    pub fn into_at(&self, c: u32) -> C
        requires { c < self.now.grid.now.cols }
        ensures { result ≡ get_or (row_of self.now.grid.now self.now.into) c result }
    {
        self.grid.row(self.into)[c as usize]
    }

    /// Writes the element of row `into` in column `c`.
    pub fn set(&mut self, c: u32, v: C)
        requires { c < self.old.grid.now.cols }
        ensures same_grid { self.new.grid.ghost_name ≡ self.old.grid.ghost_name }
        ensures written { self.new.grid.now ≡ with_cell self.old.grid.now self.old.into c v }
        ensures into { self.new.into ≡ self.old.into }
        ensures from { self.new.from ≡ self.old.from }
    {
        self.grid.row_mut(self.into)[c as usize] = v;
    }
}
