//! Menus, and what is chosen from them, as texts.
ghost use Rattle.std.specs.Prelude.{◌≡◌, ◌<◌, length};
ghost use Rattle.rp_menu.specs.MenuLists as MenuLists;
ghost use Rattle.rp_menu.specs.MenuTexts as MenuTexts;
ghost use Rattle.rp_menu.specs.MenuTexts.{has_byte, is_choice, is_letter, is_menu, is_wrong_at};
ghost use Rattle.rp_menu.specs.MenuTexts.{number_of_menu};

use rp_limits::menu::LETTERS;

/// Whether a text is a menu: one letter or more from a to f, in strictly increasing order.
pub fn is_menu(text: &[u8]) -> bool
    ensures { result ≡ is_menu text.now }
{
    for k in 0..text.len() {
        if is_wrong_at(text, k) {
            return false;
        }
    }
    !text.is_empty()
}

/// Whether no letter from a to f stands at place `k`, or one that does not come after that before it.
fn is_wrong_at(text: &[u8], k: usize) -> bool
    requires { k < length text.now }
    ensures { result ≡ is_wrong_at text.now k }
{
    !is_letter(text[k]) || (k > 0 && text[k] <= text[k - 1])
}

/// Whether a byte is a letter from a to f.
fn is_letter(byte: u8) -> bool
    ensures { result ≡ is_letter byte }
{
    b'a' <= byte && byte < b'a' + LETTERS as u8
}

/// Whether a byte stands in a text.
fn has_byte(text: &[u8], byte: u8) -> bool
    ensures { result ≡ has_byte text.now byte }
{
    text.iter().any(|other| *other == byte)
}

/// The number of a menu: the sum of 1, 2, 4 and so on for its letters a, b, c and so on.
pub fn number_of_menu(text: &[u8]) -> u32
    ensures { result ≡ number_of_menu text.now }
{
    let mut number = 0;
    for x in 0..LETTERS {
        if has_byte(text, b'a' + x as u8) {
            number += 1 << x;
        }
    }
    number
}

/// Whether what was chosen is one letter of the menu.
pub fn is_choice(menu: &[u8], text: &[u8]) -> bool
    ensures { result ≡ is_choice menu.now text.now }
{
    text.len() == 1 && has_byte(menu, text[0])
}

/// The letter that was chosen, from 0.
pub fn letter_in(text: &[u8]) -> u32
    ensures { result ≡ MenuTexts.letter_in text.now }
{
    match text.first() {
        Some(letter) => u32::from(letter.saturating_sub(b'a')),
        None => 0,
    }
}

/// Whether the menu with that number has letter `x`, from 0.
pub fn has_letter(menu: u32, x: u32) -> bool
    ensures { result ≡ MenuLists.has_letter menu x }
{
    x < u32::BITS && (menu >> x) % 2 == 1
}
