//! A filter: the elements of a list that a matcher accepts. It keeps which elements are shown, and follows a change of
//! its list or of its matcher in work that goes by what changed.
#![tactic(auto)]

mod change;
mod filter;
mod follow;
mod kernel;
mod marks;
#[cfg(test)]
mod tests;

pub use filter::{Filter, FilterUndo};
pub use gl_editor::kind;
pub use gl_value::Memory;
