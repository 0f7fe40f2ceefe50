//! A list of a few colours, kept as a balanced tree of its maximal runs of one colour.
//!
//! How many places before a place have a colour of some set, and the place of the k-th of them, are
//! one descent; an edit costs the runs that it covers times a logarithm of their number.
#![tactic(auto)]

mod ask;
mod counts;
mod edit;
mod row;
mod run;
mod runs;
#[cfg(test)]
mod tests;

pub use runs::Runs;
pub use std::alloc::AllocError as Memory;
