//! What a file of choices from menus comes to, in a line.
use crate::menus::evidence::assert_unit;
use rp_menu::{MenuFault, Menus, read_menus};
use rp_patch::apportionment::Units;
use rp_patch::{ApportionFault, apportion};
use std::alloc::{AllocError, Global};
use std::process::Abort;
use std::test::Fail;

/// A number after words.
pub(crate) fn push(
    alloc: Global,
    text: &mut String,
    words: &str,
    number: u64,
) -> Result<(), AllocError> {
    text.push_str(words)?;
    text.push_str(format!(in alloc; "{number}")?.as_str())
}

/// The record and the column of a fault.
fn push_place(alloc: Global, text: &mut String, row: u32, column: u32) -> Result<(), AllocError> {
    push(alloc, text, " record ", u64::from(row))?;
    push(alloc, text, " column ", u64::from(column))
}

/// A fault with its places.
fn push_fault(alloc: Global, text: &mut String, fault: MenuFault) -> Result<(), AllocError> {
    text.push_str(fault.to_string(alloc)?.as_str())?;
    match fault {
        MenuFault::BadHeader { column }
        | MenuFault::TwiceNamed { column }
        | MenuFault::Unpaired { column } => push(alloc, text, " column ", u64::from(column)),
        MenuFault::BadNumber { row, column }
        | MenuFault::TooManyDecimals { row, column }
        | MenuFault::TooLarge { row, column } => push_place(alloc, text, row, column),
        MenuFault::Ragged { row }
        | MenuFault::BadMenu { row }
        | MenuFault::BadChoice { row }
        | MenuFault::TooManyCells { row } => push(alloc, text, " record ", u64::from(row)),
        _ => Ok(()),
    }
}

/// A cell: the menu, the letter and the count.
fn push_cell(
    alloc: Global,
    text: &mut String,
    group: u32,
    letter: u32,
    count: u64,
) -> Result<(), AllocError> {
    push(alloc, text, " ", u64::from(group))?;
    push(alloc, text, ":", u64::from(letter))?;
    push(alloc, text, ":", count)
}

/// The letters, the menus as numbers, and the cells: the menu from 0, the letter from 0, and the count.
fn push_menus(alloc: Global, text: &mut String, menus: &Menus) -> Result<(), AllocError> {
    push(alloc, text, "", u64::from(menus.letters()))?;
    text.push_str(" letters, menus")?;
    for i in 0..menus.count() {
        push(alloc, text, " ", u64::from(menus.menu(i)))?;
    }
    text.push_str(", cells")?;
    for cell in 0..menus.cells() {
        let (letter, place) = (menus.letter(cell), cell as usize);
        let group = menus.groups().get(place).copied().unwrap_or(0);
        let count = menus.counts().get(place).copied().unwrap_or(0);
        push_cell(alloc, text, group, letter, count)?;
    }
    Ok(())
}

/// What a file comes to: its menus, or the fault with its places.
pub(crate) fn told_menus(alloc: Global, file: &str) -> Result<String, Fail> {
    let mut text = String::new(alloc);
    match read_menus(alloc, file.as_bytes()) {
        Ok(menus) => push_menus(alloc, &mut text, &menus)?,
        Err(fault) => push_fault(alloc, &mut text, fault)?,
    }
    Ok(text)
}

/// The units of the cells and their total.
fn push_units(alloc: Global, text: &mut String, made: &Units) -> Result<(), AllocError> {
    for units in made.units.as_slice() {
        push(alloc, text, "", u64::from(*units))?;
        text.push_str(" ")?;
    }
    push(alloc, text, "of ", u64::from(made.total))
}

/// Why there are none, with the menu that needs a unit.
fn push_need(alloc: Global, text: &mut String, fault: ApportionFault) -> Result<(), AllocError> {
    text.push_str(fault.to_string(alloc)?.as_str())?;
    match fault {
        ApportionFault::NeedUnit { group } => push(alloc, text, " ", u64::from(group)),
        ApportionFault::NoMemory => Ok(()),
    }
}

/// The units of the cells and their total, or the fault.
pub(crate) fn told_units(
    rt: &impl Abort,
    alloc: Global,
    file: &str,
    unit: Option<u32>,
) -> Result<String, Fail> {
    assert_unit(rt, unit);
    let menus = read_menus(alloc, file.as_bytes())?;
    let mut text = String::new(alloc);
    match apportion(alloc, menus.groups(), menus.counts(), unit) {
        Ok(made) => push_units(alloc, &mut text, &made)?,
        Err(fault) => push_need(alloc, &mut text, fault)?,
    }
    Ok(text)
}
