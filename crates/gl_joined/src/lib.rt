//! What lists that are joined of parts are made of: the lengths of their parts, and the telling of a whole part. How much
//! stands before a part, and in which part a position of the whole stands, are each one descent of a balanced tree.
#![tactic(auto)]

mod editable;
mod length;
mod list;
mod telling;

pub use gl_kernel::Memory;
pub use list::LengthList;
pub use telling::{Lone, tell_part};
