//! A sorted list: the elements of a list in the order of their keys. It keeps the sorted arrangement of its list, and
//! follows a change in work that goes by what changed; an updated element stays where its order against all others does.
#![tactic(auto)]

mod kernel;
mod leaving;
mod merged;
mod replaced;
mod sorted;
#[cfg(test)]
mod tests;

pub use gl_lang::Order;
pub use gl_value::Memory;
pub use sorted::{Sorted, SortedUndo};
