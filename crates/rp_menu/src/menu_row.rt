//! One record of a file of choices from menus.
/// What a record says: the menu as its number, the letter that was chosen, from 0, and how many times.
#[derive(Clone, Copy, Debug)]
pub struct MenuRow {
    pub menu: u32,
    pub letter: u32,
    pub times: u64,
}
