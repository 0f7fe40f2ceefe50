//! What the lists that follow others are made of: lists that a log of edits changes and changes back without memory, and
//! the building of the deltas that they tell. Each edit that is made leaves after the one that takes it back.
#![tactic(auto)]

mod barcodes;
mod editable;
mod kernel;
mod list;
mod log;
mod log_step;
mod plan;
mod telling;

pub use editable::Editable;
pub use gl_delta::{Delta, Deltas, Find};
pub use gl_value::Memory;
pub use kernel::Kernel;
pub use list::ValueList;
pub use log::{apply, take_back};
pub use log_step::LogStep;
pub use plan::{Plan, element};
pub use telling::{tell, tell_delete, tell_insert, tell_kept, tell_update};
