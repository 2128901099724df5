//! Tests of the call over files in memory: its frame, its statuses, and the room for its texts.

mod calls;
mod editions;
mod endings;
mod names;
mod rooms;
