// A way down from the root, on which a client chooses the side at each node.
ghost use Rattle.std.specs.Prelude.{◌≡◌, ◌+◌, ◌<◌};
ghost use Rattle.gl_ranktree.specs.Descending.{Forks};

use crate::node::{ABSENT, Node, read};
use crate::summary::Summary;
use std::marker::Model;

/// The places of a list that a search has not yet ruled out, as the entries below one node of its tree.
///
/// Each call takes constant time.
#[derive(Drop)]
pub struct Descent<'a, S: Summary> {
    pub(crate) nodes: &'a [Node<S>],
    // The root of the whole tree, and that of the part that is left.
    pub(crate) whole: u32,
    pub(crate) top: u32,
    // How many entries stand to the left of that part.
    pub(crate) first: usize,
}

impl<'a, S: Summary> Model for Descent<'a, S> {
    ghost use Rattle.gl_ranktree.specs.Descending.{Descending, descending_code, descending, IsDescent};

    ghost Value = { Descending };

    ghost coded = { descending_code };

    ghost view = { λ d. descending S.sums d.nodes.now d.whole d.top d.first };

    ghost invariant = { λ d. IsDescent S.sums d.nodes.now d.whole d.top d.first };
}

impl<'a, S: Summary> Descent<'a, S> {
    /// The slot of the entry at which the places fork, `None` exactly where no place is left.
    pub fn middle(&self) -> Option<u32>
        ensures { Forks self.now result }
    {
        if self.top == ABSENT {
            None
        } else {
            Some(self.top)
        }
    }

    /// The first place that is left.
    pub fn first(&self) -> usize
        ensures { result ≡ self.now.first }
    {
        self.first
    }

    /// Goes on among the places before that entry.
    pub fn before(self) -> Descent<'a, S>
        requires { self.first < self.end }
        ensures slots { result.slots ≡ self.entry.slots }
        ensures first { result.first ≡ self.entry.first }
        ensures end { result.end ≡ self.entry.middle }
        ensures lower { result.levels < self.entry.levels }
    {
        Descent {
            nodes: self.nodes,
            whole: self.whole,
            top: read(self.nodes, self.top).left,
            first: self.first,
        }
    }

    /// Goes on among the places after that entry.
    pub fn after(self) -> Descent<'a, S>
        requires { self.first < self.end }
        ensures slots { result.slots ≡ self.entry.slots }
        ensures first { result.first ≡ self.entry.middle + 1 }
        ensures end { result.end ≡ self.entry.end }
        ensures lower { result.levels < self.entry.levels }
    {
        let here = read(self.nodes, self.top);
        let before = read(self.nodes, here.left).size as usize;
        Descent {
            nodes: self.nodes,
            whole: self.whole,
            top: here.right,
            first: self.first + before + 1,
        }
    }
}
