//! The homothetic test by products that are rounded down where they get long, for tables on which the exact ones pass
//! their width. Whatever is found is given only where the checker finds nothing wrong with it.
#![tactic(auto)]

mod classes;
mod evidence;
mod last_improvements;
mod leading;
mod product;
mod rounds;
mod shortened;

pub use evidence::rounded_homothetic;
