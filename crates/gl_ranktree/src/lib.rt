//! A balanced tree whose nodes stand in one vector and are named by their slots in it.
//!
//! It is a list in which the place of an entry, the entry at a place and the sum of the entries
//! before it are found in logarithmic time, and in which an entry keeps its slot.
#![tactic(auto)]

mod descent;
mod edit;
mod find;
mod join;
mod measure;
mod node;
mod seek;
mod slots;
mod summary;
#[cfg(test)]
mod tests;
mod tree;

pub use descent::Descent;
pub use measure::Measure;
pub use seek::Sought;
pub use summary::Summary;
pub use tree::RankTree;
