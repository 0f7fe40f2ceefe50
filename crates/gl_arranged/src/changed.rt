//! The elements that a delta changes.

/// An element that was deleted, inserted or updated, by its place in its list. An updated one is one of a pair, and has
/// the place of its partner in the other list.
#[derive(Clone, Copy)]
pub struct Changed {
    pub source: usize,
    pub partner: Option<usize>,
}

/// Such an element, and its place in the sorted order of its list.
#[derive(Clone, Copy)]
pub struct Ranked {
    pub place: usize,
    pub source: usize,
    pub partner: Option<usize>,
}
