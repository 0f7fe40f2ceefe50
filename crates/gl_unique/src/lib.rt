//! A unique list: of each class of elements of equal key the first one in its list. It keeps the classes of its list, and
//! follows a change in work that goes by the touched classes.
#![tactic(auto)]

mod kernel;
mod replaced;
#[cfg(test)]
mod tests;
mod told;
mod unique;

pub use gl_value::Memory;
pub use unique::{Unique, UniqueUndo};
