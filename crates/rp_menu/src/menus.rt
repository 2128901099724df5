//! Menus with their cells, in the order of the records.
ghost use Rattle.std.specs.Prelude.{◌≡◌, ◌<◌, ◌≤◌, length, slice_index};
ghost use Rattle.rp_patch.specs.Apportionment.{AreGrouped};
ghost use Rattle.rp_menu.specs.MenuLists.{IsMenuList};

use rp_limits::menu::{CELLS, LETTERS};
use std::marker::Model;

/// The menus from which something was chosen, by the first record of each, and the cells on them: a menu with a letter
/// that was chosen from it, by menu and then by first record.
#[derive(Debug, Drop)]
pub struct Menus {
    letters: u32,
    menus: Vec<u32>,
    groups: Vec<u32>,
    chosen: Vec<u32>,
    counts: Vec<u64>,
}

impl Model for Menus {
    ghost use Rattle.rp_menu.specs.MenuLists.{IsMenuList, MenuList};

    ghost Value = { MenuList };

    ghost view = { λ m. record {
      letters = m.letters;
      menus = m.menus.items;
      groups = m.groups.items;
      chosen = m.chosen.items;
      counts = m.counts.items;
    } };

    ghost invariant = { λ m. IsMenuList
        (record {
          letters = m.letters;
          menus = m.menus.items;
          groups = m.groups.items;
          chosen = m.chosen.items;
          counts = m.counts.items;
        }) };
}

impl Menus {
    /// So many letters, menus as numbers, and of each cell the place of its menu, its letter and its count.
    pub(crate) fn make(
        letters: u32,
        menus: Vec<u32>,
        groups: Vec<u32>,
        chosen: Vec<u32>,
        counts: Vec<u64>,
    ) -> Menus
        requires { IsMenuList (record {
          letters = letters;
          menus = menus.items;
          groups = groups.items;
          chosen = chosen.items;
          counts = counts.items;
        }) }
        ensures { result ≡ record {
          letters = letters;
          menus = menus.items;
          groups = groups.items;
          chosen = chosen.items;
          counts = counts.items;
        } }
    {
        Menus {
            letters,
            menus,
            groups,
            chosen,
            counts,
        }
    }

    /// How many letters there are: the number, from 1, of the greatest in a menu of any record.
    pub fn letters(&self) -> u32
        ensures exact { result ≡ self.now.letters }
        ensures few { result ≤ LETTERS }
        ensures valid { IsMenuList self.now }
    {
        self.letters
    }

    /// How many menus there are.
    pub fn count(&self) -> u32
        ensures exact { result ≡ length self.now.menus }
        ensures few { result ≤ CELLS }
    {
        self.menus.len() as u32
    }

    /// Menu `i`, from 0, as the sum of 1, 2, 4 and so on for its letters a, b, c and so on.
    pub fn menu(&self, i: u32) -> u32
        requires { i < length self.now.menus }
        ensures { result ≡ slice_index self.now.menus i }
    {
        self.menus[i as usize]
    }

    /// How many cells there are.
    pub fn cells(&self) -> u32
        ensures exact { result ≡ length self.now.groups }
        ensures few { result ≤ CELLS }
    {
        self.groups.len() as u32
    }

    /// The place of each cell's menu, from 0.
    pub fn groups(&self) -> &[u32]
        ensures exact { result.now ≡ self.now.groups }
        ensures grouped { AreGrouped self.now.groups self.now.counts }
    {
        self.groups.as_slice()
    }

    /// The letter of a cell, both from 0.
    pub fn letter(&self, cell: u32) -> u32
        requires { cell < length self.now.groups }
        ensures exact { result ≡ slice_index self.now.chosen cell }
        ensures within { result < self.now.letters }
    {
        self.chosen[cell as usize]
    }

    /// How many times each cell was chosen.
    pub fn counts(&self) -> &[u64]
        ensures { result.now ≡ self.now.counts }
    {
        self.counts.as_slice()
    }
}
