//! Whether a list is held.

/// Whether a list shows what it did when it began to be held: it doesn't, or it is frozen, or so many levels of a
/// transaction are open, at least one, or it is a proxy that is yet to take so many deltas.
#[derive(Clone, Copy)]
pub enum Hold {
    Free,
    Frozen,
    Open(usize),
    Queued(usize),
}
