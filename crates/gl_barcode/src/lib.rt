//! A list of places of which some are shown, as a filter shows some elements of its list.
//!
//! How many places before a place are shown, and the place of the k-th of them, are found in time
//! logarithmic in the number of stretches of shown and of hidden places.
#![tactic(auto)]

mod barcode;
#[cfg(test)]
mod tests;

pub use barcode::Barcode;
pub use std::alloc::AllocError as Memory;
