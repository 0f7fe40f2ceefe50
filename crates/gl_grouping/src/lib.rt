//! A grouping: the classes of equal key of a list, each as the list of its members. It keeps these groups, and follows a
//! change of its list in work that goes by what changed and by the members of the groups that this changes.
#![tactic(auto)]

mod follow;
mod group;
mod grouping;
mod kernel;
mod replaced;

pub use gl_value::Memory;
pub use grouping::{Grouping, GroupingUndo};
