//! A collection: the children of each element of a list, one after another. It keeps how many children each element has,
//! and follows a change of its list in work that goes by what changed.
#![tactic(auto)]

mod children;
mod collection;
mod count;
mod follow;

pub use collection::{Collection, CollectionUndo};
pub use gl_delta::KernelFault;
pub use gl_lang::Kids;
