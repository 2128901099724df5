//! Tests of long files: what each household's records denote, what is refused, and both sides of each limit.

mod files;
mod households;
mod limits;
mod reading;
