//! What commands are answered.

use gl_value::Values;

/// What a command of a section is answered.
#[derive(Drop)]
pub enum Reply {
    /// It was done.
    Done,
    /// What the list shows.
    Shown(Values),
    /// It changed nothing: the index lies outside a list of `len` elements.
    OutOfRange { index: u64, len: u64 },
    /// It changed nothing: the list would have `len` elements, which are more than the plan's limit.
    TooLong { list: u32, len: u128 },
    AlreadyFrozen,
    NotFrozen,
    /// No transaction is open.
    NotOpen,
}
