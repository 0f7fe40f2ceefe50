//! A composite: lists shown one after another, as many as are attached to it. It keeps how many elements each of them has,
//! and follows the changes of all of them at once.
#![tactic(auto)]

mod composite;
mod fault;
mod follow;
mod telling;

pub use composite::{Composite, CompositeUndo};
pub use fault::DetachFault;
pub use gl_delta::KernelFault;
