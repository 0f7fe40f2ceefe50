//! One edit of a source.

use gl_value::{Value, Values};

/// One edit of a source: values added at its end; a value put in before the element at an index, or at the end; a value
/// put instead of the element at an index; the element at an index taken out; all elements taken out.
#[derive(Drop)]
pub enum Edit {
    Append { values: Values },
    Insert { index: u64, value: Value },
    Set { index: u64, value: Value },
    Remove { index: u64 },
    Clear,
}
