//! A source: the list at the start of a plan, which writers edit. Each edit tells its delta, and hands out the undo
//! that takes it back without memory.
#![tactic(auto)]

mod edit;
mod fault;
mod log;
mod refusal;
mod source;
mod telling;
#[cfg(test)]
mod tests;

pub use edit::Edit;
pub use fault::{EditFault, OpenFault};
pub use gl_value::Memory;
pub use source::{SourceList, SourceUndo};
