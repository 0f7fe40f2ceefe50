//! A range: a slice of a list, whose ends count from the head or from the tail. It keeps its bounds and the length of
//! its list alone, and follows a change in work that goes by what changed and by what crosses its ends.
#![tactic(auto)]

mod follow;
mod keeps;
mod kernel;
mod range;
mod slice;
#[cfg(test)]
mod tests;

pub use gl_value::Memory;
pub use range::{RangeKernel, RangeUndo};
