//! The outside of the program: files that are read by name, places that text goes to, and every
//! failure of them counted.
#![tactic(auto)]

mod desks;
mod drip_desk;
mod drip_sink;
mod file_desk;
mod listing_desk;
mod loading;
mod memory_desk;
mod memory_files;
mod memory_sink;
mod planned;
mod pouring;
mod sinks;
mod streams;
mod sure;

pub use desks::{Desk, DeskFault};
pub use drip_desk::DripDesk;
pub use drip_sink::DripSink;
pub use file_desk::FileDesk;
pub use listing_desk::{AskedRead, ListingDesk};
pub use loading::{LoadFault, load};
pub use memory_desk::MemDesk;
pub use memory_files::MemFile;
pub use memory_sink::MemSink;
pub use pouring::{WriteFault, pour};
pub use sinks::{Failed, Sink};
pub use streams::StdSink;
pub use sure::{SureDesk, SureSink};
