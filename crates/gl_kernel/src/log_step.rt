//! One step of a log.

/// One edit of a list: an item put in at a place, the one there taken out, or another one in its stead.
#[derive(Drop)]
pub enum LogStep<T> {
    Insert(usize, T),
    Remove(usize),
    Set(usize, T),
}
