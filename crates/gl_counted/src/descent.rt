// A way down the tree of a list, on which a client chooses the side at each item.
ghost use Rattle.std.specs.Prelude.{◌≡◌, ◌+◌, ◌<◌};
ghost use Rattle.gl_ranktree.specs.Descending.{Forks};

use crate::handle::Handle;
use std::marker::Model;

/// The places of a list that a search has not yet ruled out.
///
/// Each call takes constant time. A search that asks once at each item where the places fork, and goes on before or
/// after it, asks no more often than the list's tree has levels.
#[derive(Drop)]
pub struct Descent<'a> {
    pub(crate) tree: gl_ranktree::Descent<'a, ()>,
}

impl<'a> Model for Descent<'a> {
    ghost use Rattle.gl_ranktree.specs.Descending.{Descending, descending_code};

    ghost Value = { Descending };

    ghost coded = { descending_code };

    ghost view = { λ d. d.tree };
}

impl<'a> Descent<'a> {
    /// The handle of the item at which the places fork, `None` exactly where no place is left.
    pub fn middle(&self) -> Option<Handle>
        ensures { Forks self.now result }
    {
        match self.tree.middle() {
            Some(slot) => Some(Handle::new(slot)),
            None => None,
        }
    }

    /// The first place that is left.
    pub fn first(&self) -> usize
        ensures { result ≡ self.now.first }
    {
        self.tree.first()
    }

    /// Goes on among the places before that item.
    pub fn before(self) -> Descent<'a>
        requires { self.first < self.end }
        ensures slots { result.slots ≡ self.entry.slots }
        ensures first { result.first ≡ self.entry.first }
        ensures end { result.end ≡ self.entry.middle }
        ensures lower { result.levels < self.entry.levels }
    {
        Descent {
            tree: self.tree.before(),
        }
    }

    /// Goes on among the places after that item.
    pub fn after(self) -> Descent<'a>
        requires { self.first < self.end }
        ensures slots { result.slots ≡ self.entry.slots }
        ensures first { result.first ≡ self.entry.middle + 1 }
        ensures end { result.end ≡ self.entry.end }
        ensures lower { result.levels < self.entry.levels }
    {
        Descent {
            tree: self.tree.after(),
        }
    }
}
