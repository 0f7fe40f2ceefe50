//! Levels within one another.

ghost use Rattle.std.specs.Prelude.{◌≡◌, ◌∷◌, ◌<◌, ◌≤◌, [], List, length, OnOk, Some, slice_get};
ghost use Rattle.spec_states.specs.Tree.{Tree};
ghost use Rattle.spec_states.specs.Shown.{undone_all};
ghost use Rattle.spec_states.specs.Laws.{LedTo};
ghost use Rattle.gl_kernel.specs.Found.{found};
ghost use Rattle.gl_held.specs.Levels.{AreJoined, IsShown, held_len};

use crate::composition::Composition;
use gl_delta::{Find, Old};
use std::alloc::{AllocError, Global};
use std::marker::Model;

/// Levels, each with what became of the source in it. Contracts see their deltas, the innermost first, and for how many
/// there is room.
#[derive(Drop)]
pub(crate) struct Levels {
    // The outermost first.
    list: Vec<Composition>,
}

impl Model for Levels {
    ghost use Rattle.std.specs.Prelude.{reverse, vec_capacity};
    ghost use Rattle.gl_held.specs.Kept.{Kept, kept_code};

    ghost Value = { Kept };

    ghost coded = { kept_code };

    ghost view = { λ l. record { levels = reverse l.list.items; room = vec_capacity l.list } };
}

impl Levels {
    pub(crate) fn new(alloc: Global) -> Levels
        ensures { result.levels ≡ [] }
    {
        Levels {
            list: Vec::new(alloc),
        }
    }

    pub(crate) fn depth(&self) -> usize
        ensures { result ≡ length self.now.levels }
    {
        self.list.len()
    }

    /// Makes room for one more.
    pub(crate) fn reserve(&mut self) -> Result<(), AllocError>
        ensures ok { OnOk result (length self.new.levels < self.new.room) }
        ensures levels { self.new.levels ≡ self.old.levels }
        ensures room { self.old.room ≤ self.new.room }
    {
        self.list.reserve(1)
    }

    /// Puts a level into the innermost one. It takes no memory, but room.
    pub(crate) fn push(&mut self, level: Composition)
        requires { length self.old.levels < self.old.room }
        ensures levels { self.new.levels ≡ level ∷ self.old.levels }
        ensures room { self.new.room ≡ self.old.room }
    {
        self.list.push_reserved(level);
    }

    /// Takes the innermost level out.
    pub(crate) fn take(&mut self) -> Composition
        requires { 0 < length self.old.levels }
        ensures levels { self.old.levels ≡ result ∷ self.new.levels }
        ensures fits { length self.old.levels ≤ self.old.room }
        ensures room { self.new.room ≡ self.old.room }
    {
        match self.list.pop() {
            Some(level) => level,
            None => unreachable!(),
        }
    }

    /// The level of a number, counted from the innermost one on.
    pub(crate) fn level(&self, number: usize) -> &Composition
        requires { number < length self.now.levels }
        ensures { slice_get self.now.levels number ≡ Some result.now }
    {
        &self.list[self.list.len() - 1 - number]
    }

    /// How many elements the outermost level began with.
    pub(crate) fn held_len(&self) -> Option<usize>
        ensures { result ≡ held_len self.now.levels }
    {
        match self.list.first() {
            Some(level) => Some(level.old_len()),
            None => None,
        }
    }

    /// Where an element stands that was there when the outermost level began. It takes time logarithmic in the changes of
    /// each level.
    pub(crate) fn find(&self, position: usize) -> Find<'_>
        requires joined { AreJoined self.now.levels }
        requires shown { IsShown position self.now.levels }
        ensures { (ys : List Tree) → LedTo self.now.levels ys
            → found (Some result) ys ≡ slice_get (undone_all self.now.levels ys) position }
    {
        let mut left = self.depth();
        let mut at = position;
        'levels: while left > 0 {
            left -= 1;
            match self.level(left).old_at(at) {
                Old::Kept(later) => at = later,
                Old::Value(v) => return Find::Own(v),
            }
        }
        Find::Input(at)
    }
}
