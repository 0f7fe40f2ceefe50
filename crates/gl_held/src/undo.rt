//! The undo of all that can be held.

use crate::composition::Composition;
use gl_delta::Delta;
use gl_source::SourceUndo;

/// What takes a transaction, a freezable list or a proxy back to where it stood before its last change.
#[derive(Drop)]
pub struct HeldUndo {
    pub(crate) way: Way,
}

// The way back of each of them: a step of a transaction's levels; what a freezable list kept; the delta that a proxy took, and
// the way back of its elements.
#[derive(Drop)]
pub(crate) enum Way {
    Levels(LevelStep),
    Since(Option<Composition>),
    Pumped(Delta, SourceUndo),
}

// The way back of a transaction: the level taken out that was begun; the innermost one put back that a delta was composed
// into; the next outer one, as it was, and the inner one that was committed; the one that was committed or rolled back.
#[derive(Drop)]
pub(crate) enum LevelStep {
    Begun,
    Followed(Composition),
    Joined(Composition, Composition),
    Closed(Composition),
}
