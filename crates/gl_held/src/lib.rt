//! Lists that can be held: what a transaction list keeps while levels are open, a freezable list while it is frozen, and a
//! proxy until it is pumped. Nothing of them is a copy of a list but a proxy's own elements.
#![tactic(auto)]

mod composition;
mod fault;
mod freezable;
mod levels;
mod parts;
mod proxy;
mod transaction;
mod undo;

pub use fault::{CloseFault, FreezeFault, PumpFault, ThawFault};
pub use freezable::Freezable;
pub use gl_value::Memory;
pub use proxy::Proxy;
pub use transaction::{Closed, Transaction};
pub use undo::HeldUndo;
