//! Deltas between lists: what was kept, updated, deleted and inserted, from left to right; their composition and
//! inverse. A delta takes memory for its changes alone, however long its lists.
#![tactic(auto)]

mod absorb;
mod cell;
mod cells;
mod delta;
mod deltas;
mod edits;
mod find;
mod inverse;
mod kinds;
pub mod laws;
mod mark;
mod part;
mod pieces;
mod plain;
mod ranked;
mod turn;
mod values;

pub use cell::{Cell, CellRef, Old};
pub use cells::Cells;
pub use delta::Delta;
pub use deltas::Deltas;
pub use find::{Find, KernelFault};
pub use mark::MOST;
pub use part::Part;
pub use std::alloc::AllocError as Memory;
