//! What a new matcher does to what a filter shows: more of its list, less, all, nothing, or neither can be said.
//! The answer spares a filter the elements whose place in it can't change.
#![tactic(auto)]

mod editor;
#[cfg(test)]
mod tests;

pub use editor::kind;
