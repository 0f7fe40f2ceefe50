//! Events: the changes of a delta, told one after another, each with the index at which it is made to the list as the
//! changes before it left it; and their replay on a list.
#![tactic(auto)]

mod block;
mod change;
mod event;
pub mod laws;
mod replaying;
#[cfg(test)]
mod tests;
mod walk;

pub use block::{Block, ChangeKind};
pub use change::Change;
pub use event::Event;
pub use replaying::replay;
pub use std::alloc::AllocError as Memory;
pub use walk::Walk;
