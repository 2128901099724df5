//! A call from a program that has bytes alone: how it hands over words and files, which files it does not give, and where
//! texts go in its room.
#![tactic(auto)]

mod files;
mod handed;
mod names;
mod parts;
mod pieces;
mod rooms;
mod text_sink;
mod texts;

pub use files::first_missing;
pub use handed::{FrameFault, Handed, read_frame};
pub use names::end_names;
pub use rooms::fill;
pub use text_sink::TextSink;
