//! The wider edition of the program: what it withholds is answered where the searches past the widths find evidence that
//! the checker takes. And the call of the program `rp-wide`, with help pages and hints.
#![tactic(auto)]

mod edition;
mod fitting;
mod helping;
mod hinting;
mod laws;
mod running;

pub use edition::Filled;
pub use helping::run_wide_with_help;
pub use laws::nothing_withheld_is_printed_alike;
pub use running::run_wide;
