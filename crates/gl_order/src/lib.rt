//! The sorted arrangement of a list, kept while elements are put into the list and taken out of it.
//!
//! It tells the sorted place of a source place, the source place of a sorted one, and whether neighbours have the same
//! key, each in logarithmic time.
#![tactic(auto)]

mod placed;
mod prefix;
mod search;
mod spot;
#[cfg(test)]
mod tests;
mod tree;

pub use gl_value::Memory;
pub use spot::Spot;
pub use tree::OrderTree;
