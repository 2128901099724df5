//! The report that a certificate on goodness of fit is printed as.
#![tactic(auto)]

mod cycles;
mod efficiency;
mod kept;
mod laws;
mod level_walks;
mod levels;
mod mean;
mod report;
mod steps;
mod violations;

pub use cycles::push_cycles;
pub use efficiency::push_efficiency;
pub use kept::push_kept;
pub use laws::{printed_upper_bound_holds, printed_upper_bound_is_the_mean};
pub use level_walks::{push_homothetic_level, push_pump_ratio, push_quasilinear_level};
pub use levels::push_levels;
pub use report::report_fit;
pub use steps::push_steps;
pub use violations::push_violations;
