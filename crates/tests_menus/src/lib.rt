//! Tests of choices from menus with what is asked of them, and of `run` on these and on choices from budgets.
#![tactic(auto)]

#[cfg(test)]
mod choices;
#[cfg(test)]
mod menus;
