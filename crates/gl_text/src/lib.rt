//! Texts of values, of the lines of plans, and of plans: each is read by `read_value`, `read_line` or `read_plan`, and
//! written in its one spelling by `write_value`, `write_line` or `write_plan`. What bytes spell is defined in
//! `spec_syntax`, `spec_lines` and `spec_plan_texts`. Blocks of CSV records are read with `csv`.
#![tactic(auto)]

mod block;
mod command;
mod list;
mod listener;
mod name;
mod plan_reader;
mod plan_writer;
mod reading;
mod records;
mod shared_names;
mod stop;
#[cfg(test)]
mod tests;

pub use gl_line_reader::read_line;
pub use gl_line_writer::write_line;
pub use gl_plan::{Plan, PlanFault};
pub use gl_syntax::{ReadFault, read_value, write_value};
pub use gl_value::{Bytes, Memory, Value};
pub use plan_reader::{into_plan, read_plan};
pub use plan_writer::write_plan;
