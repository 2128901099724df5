//! What the programs say to help their users beside results: hints after errors, help pages, and the version.
#![tactic(auto)]

mod codes;
mod hints;
mod pages;
mod telling;
mod texts;

pub use codes::{check_code, code_of_line, note_code};
pub use hints::{HINTS, Hint, hint_text};
pub use pages::{panel_page, wide_page};
pub use telling::{give_page, tell_note, tell_with_hint};
