//! Evidence that was altered in one way: what the checks of a money pump, of choices from menus and of bounds on cost
//! say of it, beside an answer that was worked out by the definitions apart from them.

mod altered_costs;
mod altered_menus;
mod altered_pumps;
mod costs;
mod menus;
mod numbers;
mod pumps;
