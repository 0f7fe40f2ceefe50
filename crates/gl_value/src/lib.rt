//! Values: numbers, texts and lists of values. A copy costs the same however large the value, since lists and texts
//! are shared by reference counts; contracts see a value as its tree, a text as its bytes and a list as its values.
#![tactic(auto)]

mod bytes;
pub mod compare;
pub mod items;
mod name;
mod name_order;
pub mod order;
pub mod shelf;
pub mod steps;
#[cfg(test)]
mod tests;
pub mod text;
pub mod value;
pub mod values;

pub use bytes::Bytes;
pub use compare::Compare;
pub use items::Items;
pub use name::{Name, spells_name};
pub use shelf::Shelf;
pub use std::alloc::AllocError as Memory;
pub use steps::Steps;
pub use text::{Text, TextFault};
pub use value::{Value, ValueShape};
pub use values::Values;
