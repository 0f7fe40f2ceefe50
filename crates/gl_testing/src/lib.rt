//! What the tests of lists share: changes of lists of numbers, written as tables of rows, and whether a delta tells the
//! cells that it is to tell. The tests of deltas stand here too, since they are written with these rows.
#![tactic(auto)]

mod change;
#[cfg(test)]
mod tests;
mod told;

pub use change::{Change, Row, change_of, numbers};
pub use told::{Told, is_number, tells};
