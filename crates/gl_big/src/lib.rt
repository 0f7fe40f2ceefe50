//! The large plan of a size, for measuring: its lines are made as data, without their text, and the plan of them.
//! What plan that is stands in `spec_reports`.
#![tactic(auto)]

mod lines;
mod lists;
mod numbered;
mod parts;
mod plan;
mod sections;

pub use gl_plan::{Memory, Plan};
pub use plan::big_plan;
