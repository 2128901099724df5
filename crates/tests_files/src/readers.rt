//! Tests of the readers of files: what was read, the faults, and both sides of each limit.

mod faults;
mod levels;
mod limits;
mod readers;
mod reading;
mod sheets;
