//! What lines of plan texts mean together: the plan that they make, and the first fault of lines that make none.
//! Definitions and their laws, with the plain types that they speak of and no code.
//! Lines come as they were read; how they are written stands apart.
#![tactic(auto)]

mod class;
mod fault;
mod part;

pub use class::ListClass;
pub use fault::{FaultAt, NameFault};
pub use part::Part;
