//! Tests of what files say: tables, prices, budgets and choices; long files with the tables of their households; and
//! rows, one for each household of a long file.
#![tactic(auto)]

#[cfg(test)]
mod long_files;
#[cfg(test)]
mod readers;
#[cfg(test)]
mod rows;
