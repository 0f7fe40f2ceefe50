//! One list of a graph.

use crate::keeps::Keeps;

/// A list by its number.
#[derive(Drop)]
pub struct Node {
    pub list: u32,
    pub keeps: Keeps,
}
