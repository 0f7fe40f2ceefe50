//! The lists of a plan in their dependency order, each seen through the lists before it. No list is copied: an element
//! is found by way of the lists that it comes from.
#![tactic(auto)]

mod build;
mod cause;
mod command;
mod derived;
mod fault;
mod graph;
mod held;
mod hold;
mod keeps;
mod len;
mod members;
mod node;
mod open;
mod over;
mod position;
mod queue;
mod rollback;
mod seen;
mod source;
mod spot;
mod spread;
mod start;
mod turned;

pub use derived::{Derived, DerivedUndo};
pub use fault::BuildFault;
pub use gl_held::PumpFault;
pub use graph::{Graph, GraphUndo, Refused, Wave};
pub use held::Held;
pub use hold::Hold;
pub use keeps::{Keeps, KeepsUndo};
pub use len::Len;
pub use node::Node;
pub use seen::Seen;
pub use spot::Spot;
