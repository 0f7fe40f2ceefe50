//! Kinds of lists, as far as lines tell them apart.

/// The kind of a list, without what it is made of.
#[derive(Clone, Copy)]
pub enum ListClass {
    Edited,
    Filtered,
    /// A sorted, unique or grouping list.
    Ordered,
    Bounded,
    Mapped,
    Collected,
    Composed,
    Undone,
    Frozen,
    Pumped,
}
