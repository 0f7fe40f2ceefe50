//! How many elements a list shows.

/// How many elements a list shows: so many, or as many as the list of a number.
#[derive(Clone, Copy)]
pub enum Len {
    Is(usize),
    As(u32),
}
