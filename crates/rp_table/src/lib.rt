//! Tables of prices and quantities within their limits, and what each bundle costs at each price.
#![tactic(auto)]

mod budgets;
mod bundles;
mod choices;
mod costs;
mod name;
mod new_prices;
mod prices;
mod rows;
mod spending;
mod table;

pub use budgets::Budgets;
pub use bundles::Bundles;
pub use choices::Choices;
pub use costs::Costs;
pub use name::Name;
pub use new_prices::{NewBudget, NewPrices};
pub use prices::Prices;
pub use spending::{cost_of_bundle, cost_of_numerators};
pub use table::Table;
