//! What derived lists answer: where an element stands, and why there is no new list.

use gl_value::Value;
use thiserror::Error;

/// Where an element that a derived list shows stands: at a place of its input, as a child of the input's element at a
/// place (that place, then the index of the child), or in the list itself.
#[derive(Clone, Copy)]
pub enum Find<'a> {
    Input(usize),
    Child(usize, usize),
    Own(&'a Value),
}

/// Why a derived list doesn't follow its input.
#[derive(Debug, Drop, Error)]
pub enum KernelFault {
    /// It would have so many elements, which are more than it may have.
    #[error("{len} elements are more than the limit")]
    TooLong { len: u128 },
    /// There was no memory for it.
    #[error("out of memory")]
    Memory,
}
