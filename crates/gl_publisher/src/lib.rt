//! The publisher's dependency order: listeners and lists are numbers, and each is told after all that
//! it depends on. `order` gives the one order in which the least number that may come next always does,
//! or the first cycle of dependencies.
#![tactic(auto)]

mod cycle;
mod dependency_order;
mod distances;
mod fault;
mod least;
mod neighbours;
mod numbers;
#[cfg(test)]
mod tests;
mod waiting;

pub use dependency_order::order;
pub use fault::{Memory, OrderFault};
pub use numbers::Numbers;
