//! The sorted arrangement of a list by an order, kept while the list changes: what a sorted list, a unique list and a
//! grouping have in common. It follows a delta of its list and says where the elements stood and stand that this changed.
#![tactic(auto)]

mod arrangement;
mod changed;
mod collected;
mod follow;
mod ranked;
mod step;
mod values;

pub use arrangement::{Arrangement, ArrangementUndo, Moves};
pub use changed::{Changed, Ranked};
pub use gl_value::Memory;
pub use step::Step;
pub use values::old_value;
