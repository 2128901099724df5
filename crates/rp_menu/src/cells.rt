//! The menus, and the cells on them, that records of choices come to.
ghost use Rattle.std.specs.Prelude.{◌≡◌, ◌<◌, ◌≤◌, ◌*◌, ℕ, None, All, IfOk, OnOk};
ghost use Rattle.std.specs.Prelude.{length, true, false};
ghost use Rattle.rp_menu.specs.Cells as Cells;
ghost use Rattle.rp_menu.specs.Cells.{cell_at, cells_below, cells_with, counted, menu_row_at};
ghost use Rattle.rp_menu.specs.Cells.{menus_below, menus_with};
ghost use Rattle.rp_menu.specs.Denotation.{RefusedAt, cells_stage};
ghost use Rattle.rp_menu.specs.InnerCells.{is_seat};

use crate::MenuFault;
use crate::menu_row::MenuRow;
use rp_forms::number_of;
use rp_limits::menu::CELLS;
use rp_limits::table::{CHOICES, LARGEST};
use rp_num::NoMemory;
use std::alloc::Global;

/// The place of a menu, a letter that was chosen from it, both from 0, and how many times.
#[derive(Clone, Copy, Debug)]
pub struct Cell {
    pub group: u32,
    pub letter: u32,
    pub count: u64,
}

/// What records come to: menus as numbers, and the cells on them.
#[derive(Drop)]
pub struct Tally {
    pub menus: Vec<u32>,
    pub cells: Vec<Cell>,
}

/// Where a menu stands among some: its place, or that of one more.
fn place_in(menus: &[u32], menu: u32) -> usize
    ensures exact { result ≡ Cells.place_in menus.now menu }
    ensures within { result ≤ length menus.now }
{
    for i in 0..menus.len() {
        if menus[i] == menu {
            return i;
        }
    }
    menus.len()
}

/// Whether a cell has the menu and the letter of another, or a later menu.
fn is_seat(cell: &Cell, new: &Cell) -> bool
    ensures { result ≡ is_seat cell.now new.now }
{
    new.group < cell.group || (cell.group == new.group && cell.letter == new.letter)
}

/// The first such cell's place, or that of one more.
fn seat_of(cells: &[Cell], new: &Cell) -> usize
    ensures within { result ≤ length cells.now }
    ensures first { (k : ℕ) → k < result → is_seat (cell_at cells.now k) new.now ≡ false }
    ensures there { result < length cells.now
        → is_seat (cell_at cells.now result) new.now ≡ true }
{
    for i in 0..cells.len() {
        if is_seat(&cells[i], new) {
            return i;
        }
    }
    cells.len()
}

/// Counts one more among the cells.
fn count_in(cells: &mut Vec<Cell>, new: Cell) -> Result<(), NoMemory>
    requires bounded { All (λ (cell : Cell). cell.count ≤ CHOICES * LARGEST) cells.old.items }
    requires few { new.count ≤ LARGEST }
    ensures { OnOk result (cells.new.items ≡ counted cells.old.items new) }
{
    let seat = seat_of(cells.as_slice(), &new);
    if seat < cells.len() && cells[seat].group == new.group {
        cells[seat].count += new.count;
    } else {
        cells.insert(seat, new)?;
    }
    Ok(())
}

/// Counts the choices of one record more.
fn count(menus: &mut Vec<u32>, cells: &mut Vec<Cell>, menu_row: &MenuRow) -> Result<(), NoMemory>
    requires few { length menus.old.items ≤ CHOICES }
    requires bounded { All (λ (cell : Cell). cell.count ≤ CHOICES * LARGEST) cells.old.items }
    requires small { menu_row.now.times ≤ LARGEST }
    ensures menus { OnOk result (menus.new.items ≡ menus_with menus.old.items menu_row.now) }
    ensures cells { OnOk result
        (cells.new.items ≡ cells_with menus.old.items cells.old.items menu_row.now) }
{
    if menu_row.times == 0 {
        return Ok(());
    }
    let place = place_in(menus.as_slice(), menu_row.menu);
    if place == menus.len() {
        menus.push(menu_row.menu)?;
    }
    count_in(
        cells,
        Cell {
            group: place as u32,
            letter: menu_row.letter,
            count: menu_row.times,
        },
    )
}

/// The menus and the cells that records make, by the first record of each.
pub fn tally_of(alloc: Global, menu_rows: &[MenuRow]) -> Result<Tally, MenuFault>
    requires few { length menu_rows.now ≤ CHOICES }
    requires bounded { (t : ℕ) → t < length menu_rows.now
        → (menu_row_at menu_rows.now t).times ≤ LARGEST }
    ensures menus { IfOk result
        (λ tally. tally.menus.items ≡ menus_below menu_rows.now (length menu_rows.now)) }
    ensures cells { IfOk result
        (λ tally. tally.cells.items ≡ cells_below menu_rows.now (length menu_rows.now)) }
    ensures faultless { IfOk result (λ _. cells_stage menu_rows.now ≡ None) }
    ensures refused { RefusedAt result (cells_stage menu_rows.now) }
{
    let mut menus = Vec::new(alloc);
    let mut cells = Vec::new(alloc);
    for t in 0..menu_rows.len() {
        count(&mut menus, &mut cells, &menu_rows[t])?;
        if cells.len() > CELLS as usize {
            return Err(MenuFault::TooManyCells { row: number_of(t) });
        }
    }
    Ok(Tally { menus, cells })
}
