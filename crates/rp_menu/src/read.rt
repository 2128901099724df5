//! What a file of choices from menus denotes.
ghost use Rattle.std.specs.Prelude.{◌≡◌, ◌<◌, ◌≤◌, ℕ, None, Ok, IfOk, OnOk, length, map};
ghost use Rattle.rp_num.specs.Below.{listed};
ghost use Rattle.rp_sheet.specs.Fields.{rows_in};
ghost use Rattle.rp_sheet.specs.Headers.{headers_of};
ghost use Rattle.rp_menu.specs.Cells.{menu_row_at, letters_of, listed_menus, top_of};
ghost use Rattle.rp_menu.specs.Denotation.{RefusedAs, RefusedAt, denoted_menus, menu_rows_in};
ghost use Rattle.rp_menu.specs.Denotation.{menu_row_of, menus_in, menus_stage, sheet_fault};
ghost use Rattle.rp_menu.specs.InnerCells.{IsMenuRow};
ghost use Rattle.rp_menu.specs.MenuLists.{IsMenuList};

use crate::cells::{Cell, Tally, tally_of};
use crate::menu_row::MenuRow;
use crate::menu_rows::{MenuRecord, choice_at, menu_at};
use crate::menu_texts::{has_letter, letter_in, number_of_menu};
use crate::{MenuFault, Menus};
use rp_forms::Form;
use rp_limits::menu::LETTERS;
use rp_limits::table::CHOICES;
use rp_num::NoMemory;
use rp_sheet::{
    Columns, Records, check_count, check_goods, column_numbers, read_columns, read_records,
    read_sizes,
};
use std::alloc::Global;

/// Reads columns `menu` of letters from a to f in strictly increasing order, `choice` of one letter of the menu, `n` of
/// counts and possibly `obs`, which says nothing. Menus and what was chosen are taken with the blanks round them.
pub fn read_menus(alloc: Global, bytes: &[u8]) -> Result<Menus, MenuFault>
    ensures denoted { IfOk result (λ menus. menus_in bytes.now ≡ Ok menus) }
    ensures refused { RefusedAs result (menus_in bytes.now) }
    ensures valid { IfOk result IsMenuList }
{
    let records = Records::of(alloc, bytes, CHOICES as usize + 2)?;
    menus_from(alloc, &records)
}

/// The menus in these records.
fn menus_from(alloc: Global, records: &Records) -> Result<Menus, MenuFault>
    ensures denoted { IfOk result (λ menus. denoted_menus records.now ≡ Ok menus) }
    ensures refused { RefusedAs result (denoted_menus records.now) }
    ensures valid { IfOk result IsMenuList }
{
    let menu_rows = read_menu_rows(alloc, records)?;
    check_times(menu_rows.as_slice())?;
    let tally = tally_of(alloc, menu_rows.as_slice())?;
    Ok(fill_menus(alloc, letters_of(menu_rows.as_slice()), tally)?)
}

/// What the records say, through all stages of a sheet.
fn read_menu_rows(alloc: Global, records: &Records) -> Result<Vec<MenuRow>, MenuFault>
    ensures read { IfOk result
        (λ menu_rows. menu_rows.items ≡ menu_rows_in (headers_of records.now) records.now) }
    ensures few { IfOk result (λ menu_rows. length menu_rows.items ≤ CHOICES) }
    ensures sound { IfOk result (λ menu_rows. (t : ℕ) → t < length menu_rows.items
        → IsMenuRow (menu_row_at menu_rows.items t)) }
    ensures faultless { IfOk result (λ _. sheet_fault records.now ≡ None) }
    ensures refused { RefusedAt result (sheet_fault records.now) }
{
    if records.len() == 0 {
        return Err(MenuFault::Empty);
    }
    let form = Form::menus();
    let columns = read_columns(alloc, &form, records)?;
    check_goods(alloc, &[], &columns)?;
    check_count(&form, records)?;
    let figures = read_records::<MenuRecord>(alloc, &columns, records)?;
    let sizes = read_sizes(alloc, &columns, figures.as_slice())?;
    let times = column_numbers(alloc, &columns, b"n", sizes.as_slice())?;
    Ok(list_menu_rows(alloc, &columns, records, times.as_slice())?)
}

/// What the records say, under these counts.
fn list_menu_rows(
    alloc: Global,
    columns: &Columns<'_>,
    records: &Records,
    times: &[u64],
) -> Result<Vec<MenuRow>, NoMemory>
    requires { 0 < length records.now }
    ensures { IfOk result (λ menu_rows. menu_rows.items ≡ listed (rows_in records.now)
        (menu_row_of columns.now.headers records.now times.now)) }
{
    let mut menu_rows = Vec::new(alloc);
    for t in 0..records.len() - 1 {
        menu_rows.push(MenuRow {
            menu: number_of_menu(menu_at(columns, records, t)),
            letter: letter_in(choice_at(columns, records, t)),
            times: times.get(t).copied().unwrap_or(0),
        })?;
    }
    Ok(menu_rows)
}

/// Looks for a count that is positive.
fn check_times(menu_rows: &[MenuRow]) -> Result<(), MenuFault>
    ensures fine { OnOk result (menus_stage menu_rows.now ≡ None) }
    ensures refused { RefusedAt result (menus_stage menu_rows.now) }
{
    for t in 0..menu_rows.len() {
        if menu_rows[t].times > 0 {
            return Ok(());
        }
    }
    Err(MenuFault::NoMenus)
}

/// The number, from 1, of the greatest letter of a menu.
fn top_of(menu: u32) -> u32
    ensures exact { result ≡ top_of menu }
    ensures few { result ≤ LETTERS }
{
    let mut top = 0;
    for x in 0..LETTERS {
        if has_letter(menu, x) {
            top = x + 1;
        }
    }
    top
}

/// The number, from 1, of the greatest letter of all records.
fn letters_of(menu_rows: &[MenuRow]) -> u32
    ensures { result ≡ letters_of menu_rows.now }
{
    let mut letters = 0;
    for t in 0..menu_rows.len() {
        letters = letters.max(top_of(menu_rows[t].menu));
    }
    letters
}

/// The menu of each cell, by its place.
fn groups_of(alloc: Global, cells: &[Cell]) -> Result<Vec<u32>, NoMemory>
    ensures { IfOk result
        (λ groups. groups.items ≡ map (λ (cell : Cell). cell.group) cells.now) }
{
    let mut groups = Vec::new(alloc);
    for cell in cells {
        groups.push(cell.group)?;
    }
    Ok(groups)
}

/// The letter of each cell.
fn chosen_in(alloc: Global, cells: &[Cell]) -> Result<Vec<u32>, NoMemory>
    ensures { IfOk result
        (λ chosen. chosen.items ≡ map (λ (cell : Cell). cell.letter) cells.now) }
{
    let mut chosen = Vec::new(alloc);
    for cell in cells {
        chosen.push(cell.letter)?;
    }
    Ok(chosen)
}

/// The count of each cell.
fn counts_of(alloc: Global, cells: &[Cell]) -> Result<Vec<u64>, NoMemory>
    ensures { IfOk result
        (λ counts. counts.items ≡ map (λ (cell : Cell). cell.count) cells.now) }
{
    let mut counts = Vec::new(alloc);
    for cell in cells {
        counts.push(cell.count)?;
    }
    Ok(counts)
}

/// The menus that were counted, with so many letters.
fn fill_menus(alloc: Global, letters: u32, tally: Tally) -> Result<Menus, NoMemory>
    requires { IsMenuList (listed_menus letters tally.menus.items tally.cells.items) }
    ensures { IfOk result
        (λ menus. menus ≡ listed_menus letters tally.menus.items tally.cells.items) }
{
    let groups = groups_of(alloc, tally.cells.as_slice())?;
    let chosen = chosen_in(alloc, tally.cells.as_slice())?;
    let counts = counts_of(alloc, tally.cells.as_slice())?;
    Ok(Menus::make(letters, tally.menus, groups, chosen, counts))
}
