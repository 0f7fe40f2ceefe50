//! The classes of equal key of a list: what a unique list and a grouping have in common. They are kept as marks over the
//! sorted arrangement of the list. Which classes a change touches is found from the elements that changed alone, in both
//! lists; where all the members of a class changed, it meets the one of its key in the other list; then the touched keys
//! are told in key order.
#![tactic(auto)]

mod classes;
mod firsts;
mod meeting;
mod members;
mod slots;
mod telling;
mod touched;

pub use classes::{Classes, ClassesUndo, Followed};
pub use firsts::edits;
pub use gl_arranged::old_value;
pub use gl_value::Memory;
pub use meeting::meet;
pub use slots::told_slots;
pub use spec_classes::{First, NewClass, OldClass, Slot};
pub use telling::Reached;
pub use touched::{Touched, find_touched};
