//! Both sides of the limits of menus.
use crate::menus::cases::assert_text;
use crate::menus::given::told_menus;
use std::alloc::{AllocError, Global};
use std::process::Abort;
use std::test::Fail;

/// The letter of that number, from 0.
fn letter_of(x: u32) -> &'static str {
    match x {
        0 => "a",
        1 => "b",
        2 => "c",
        3 => "d",
        4 => "e",
        _ => "f",
    }
}

/// A menu by its number.
fn push_menu(text: &mut String, menu: u32) -> Result<(), AllocError> {
    for x in 0..6 {
        if (menu >> x) % 2 == 1 {
            text.push_str(letter_of(x))?;
        }
    }
    Ok(())
}

/// A record with the letter of that number chosen once from a menu.
fn push_record(text: &mut String, menu: u32, x: u32) -> Result<(), AllocError> {
    push_menu(text, menu)?;
    text.push_str(",")?;
    text.push_str(letter_of(x))?;
    text.push_str(",1\n")
}

/// A file with every letter of so many menus chosen once, the menus by number from 1.
fn all_cells(alloc: Global, cells: u32) -> Result<String, AllocError> {
    let mut text = String::new(alloc);
    text.push_str("menu,choice,n\n")?;
    let mut made = 0;
    for menu in 1..64u32 {
        for x in 0..6 {
            if made < cells && (menu >> x) % 2 == 1 {
                push_record(&mut text, menu, x)?;
                made += 1;
            }
        }
    }
    Ok(text)
}

/// A file with so many records of one cell.
fn records(alloc: Global, count: u32) -> Result<String, AllocError> {
    let mut text = String::new(alloc);
    text.push_str("menu,choice,n\n")?;
    for _ in 0..count {
        text.push_str("ab,a,9999999\n")?;
    }
    Ok(text)
}

/// What a file with so many cells comes to.
fn told_of_cells(alloc: Global, cells: u32) -> Result<String, Fail> {
    let file = all_cells(alloc, cells)?;
    told_menus(alloc, file.as_str())
}

/// What a file with so many records comes to.
fn told_of_records(alloc: Global, count: u32) -> Result<String, Fail> {
    let file = records(alloc, count)?;
    told_menus(alloc, file.as_str())
}

/// Asserts what a file with 64 cells comes to, at both ends.
fn assert_most(rt: &impl Abort, told: &str) {
    assert!(rt; told.starts_with("5 letters, menus 1 2 3 4 5"));
    assert!(rt; told.ends_with(":1"));
}

/// 64 cells are taken, and the record with the 65th is refused.
#[test]
fn cells_up_to_their_limit(rt: HostRuntime) -> Result<(), Fail> {
    let alloc = rt.alloc();
    assert_most(&rt, told_of_cells(alloc, 64)?.as_str());
    let more = told_of_cells(alloc, 65)?;
    assert_text(&rt, 65, more.as_str(), "TooManyCells record 65");
    Ok(())
}

/// 4,096 records are taken, and one more is refused.
#[test]
fn records_up_to_their_limit(rt: HostRuntime) -> Result<(), Fail> {
    let alloc = rt.alloc();
    let most = told_of_records(alloc, 4096)?;
    assert_text(
        &rt,
        4096,
        most.as_str(),
        "2 letters, menus 3, cells 0:0:40959995904",
    );
    let more = told_of_records(alloc, 4097)?;
    assert_text(&rt, 4097, more.as_str(), "TooManyRecords");
    Ok(())
}
