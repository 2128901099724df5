//! Tests of `run` on choices: `random` and `checkrandom` with their reports, certificates and limits, and forged
//! certificates; the text of `patches`; what `menus` prints and refuses.

mod certificates;
mod choice_reports;
mod forged;
mod limits;
mod lines;
mod menus;
mod patches;
mod six_letters;
