//! A function list: a function of each element of a list. It keeps what the function made of them, and follows a change
//! of its list in work that goes by what changed.
#![tactic(auto)]

mod change;
mod follow;
mod function;
mod kernel;
#[cfg(test)]
mod tests;

pub use function::{Function, FunctionUndo};
pub use gl_value::Memory;
