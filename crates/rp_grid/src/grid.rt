//! The grid.
ghost use Rattle.std.specs.Prelude.{◌≡◌, ◌<◌, ◌≤◌, ◌*◌, ◌^◌, List, Some, None, IfOk, length};
ghost use Rattle.std.specs.Prelude.{replicate};
ghost use Rattle.std.specs.Borrow.{sem};
ghost use Rattle.std.specs.Mem.{type_size};
ghost use Rattle.rp_grid.specs.Rows.{AreEqual, exchanged, filled, row_of, written};

use crate::block::{Base, Deed, Places, allocate, deallocate};
use rp_num::NoMemory;
use std::alloc::Global;
use std::marker::Model;

/// Rows of equal length in one block, which is freed at the end of the value.
pub struct Grid<C: Copy> {
    rows: u32,
    cols: u32,
    base: Base<C>,
    places: Places<C>,
    deed: Deed<C, Global>,
    alloc: Global,
}

impl<C: Copy> Model for Grid<C> {
    ghost use Rattle.rp_grid.specs.Rows.{Rows, rows_code};

    ghost Value = { Rows C };

    ghost coded = { rows_code C.code };

    ghost use Rattle.rp_grid.specs.Held.{IsHeld, held};

    ghost view = { λ g. held g.rows g.cols g.places };

    ghost invariant = { λ g. IsHeld g.rows g.cols g.base g.places g.deed g.alloc };
}

impl<C: Copy> Drop for Grid<C> {
    fn drop(self) {
        let Grid {
            rows,
            cols,
            base,
            places,
            deed,
            alloc,
        } = self;
        let len = rows as usize * cols as usize;
        deallocate(&alloc, base, len, places, deed);
    }
}

/// Fills every place of the block.
fn fill_all<C: Copy>(places: &mut Places<C>, base: Base<C>, len: usize, fill: C)
    requires at { base.ptr ≡ places.old.at }
    requires empty { places.old.slots ≡ replicate len None }
    ensures at { places.new.at ≡ places.old.at }
    ensures full { places.new.slots ≡ replicate len (Some fill) }
{
    for index in 0..len {
        places.write(base, index, fill);
    }
}

impl<C: Copy> Grid<C> {
    ghost use Rattle.rp_grid.specs.GridLends.{lends_row};

    /// A grid with `fill` everywhere; it may have no row or no column.
    pub fn new(alloc: Global, rows: u32, cols: u32, fill: C) -> Result<Grid<C>, NoMemory>
        requires size { rows * cols ≤ 2 ^ 26 }
        requires narrow { type_size C.row ≤ 16 }
        ensures { IfOk result (λ grid. grid ≡ filled rows cols fill) }
    {
        let len = rows as usize * cols as usize;
        let (base, mut places, deed) = allocate(&alloc, len)?;
        fill_all(&mut places, base, len, fill);
        Ok(Grid {
            rows,
            cols,
            base,
            places,
            deed,
            alloc,
        })
    }
    /// The number of rows.
    pub fn rows(&self) -> u32
        ensures count { result ≡ length self.now.rows }
        ensures equal { AreEqual self.now }
    {
        self.rows
    }

    /// The number of columns.
    pub fn cols(&self) -> u32
        ensures count { result ≡ self.now.cols }
        ensures equal { AreEqual self.now }
    {
        self.cols
    }

    /// Row `r`.
    pub fn row(&self, r: u32) -> &[C]
        requires { r < length self.now.rows }
        ensures row { result.now ≡ row_of self.now r }
        ensures length { length result.now ≡ self.now.cols }
    {
        let cols = self.cols as usize;
        self.places.slice(self.base, r as usize * cols, cols)
    }

    /// Row `r`, to be written.
    pub fn row_mut(&mut self, r: u32) -> &mut [C]
        requires { r < length self.old.rows }
        ensures* writes_back { sem 𝓛 (lends_row C.row self.entry r result) }
        ensures row { result.now ≡ row_of self.old r }
        ensures length { length result.now ≡ self.old.cols }
        ensures kept { (xs : List C) → length xs ≡ self.old.cols → written self.old r xs ≡ xs }
    {
        let (base, cols) = (self.base, self.cols as usize);
        self.places.slice_mut(base, r as usize * cols, cols)
    }

    /// Exchanges rows `a` and `b`.
    pub fn swap(&mut self, a: u32, b: u32)
        requires first { a < length self.old.rows }
        requires second { b < length self.old.rows }
        ensures { self.new ≡ exchanged self.old a b }
    {
        if a == b {
            return;
        }
        for c in 0..self.cols() as usize {
            let (of_a, of_b) = (self.row(a)[c], self.row(b)[c]);
            self.row_mut(a)[c] = of_b;
            self.row_mut(b)[c] = of_a;
        }
    }
}
