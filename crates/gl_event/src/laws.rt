//! The law of replay, on a function that does nothing.

ghost use Rattle.spec_lists.specs.Laws.{ReplayGivesNewList};

/// The changes of a delta from one list to another, replayed on the first, give the second.
pub fn replay_gives_new_list()
    ensures { ReplayGivesNewList }
{}
