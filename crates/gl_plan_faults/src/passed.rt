//! The lines that were judged.

use crate::names::NameTable;

/// How many lines, lists and listeners were passed, and the inputs of the transactions among them.
#[derive(Drop)]
pub(crate) struct Passed {
    pub(crate) place: usize,
    pub(crate) lists: usize,
    pub(crate) listeners: usize,
    pub(crate) undone: NameTable,
}
