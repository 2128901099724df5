//! Tests of random choices, from their patches to their mixtures, and of forged evidence on these; and of evidence on a
//! money pump, on menus and on cost that was altered in one way.
#![tactic(auto)]

#[cfg(test)]
mod altered;
#[cfg(test)]
mod mixtures;
