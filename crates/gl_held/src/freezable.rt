//! A freezable list.

ghost use Rattle.std.specs.Prelude.{◌≡◌, ◌≢◌, ◌↔◌, ◌<◌, ◌≤◌, List, length, Err, None, Some, is_some, IsSome, IfSome, IfOk, OnOk, OnErr, slice_get};
ghost use Rattle.spec_lists.specs.Piece.{old_len};
ghost use Rattle.spec_lists.specs.Delta.{no_change};
ghost use Rattle.spec_states.specs.Tree.{Tree};
ghost use Rattle.spec_states.specs.Shown.{undone_all};
ghost use Rattle.spec_states.specs.Laws.{LedTo, since_frozen};
ghost use Rattle.gl_kernel.specs.Found.{found};
ghost use Rattle.gl_held.specs.Levels.{BeginsWith, IsShown, followed_since, held_len};
ghost use Rattle.gl_held.specs.Back.{IsOfFreezable, IsUndoSince, since_before};

use crate::composition::Composition;
use crate::fault::{FreezeFault, ThawFault};
use crate::undo::{HeldUndo, Way};
use gl_delta::{Delta, Find, Old};
use std::alloc::{AllocError, Global};
use std::marker::Model;
use std::mem;

/// What a freezable list keeps while it is frozen: the FreezableList of Glazed Lists. It is what became of its input since
/// then; what it shows follows from what the input shows. Contracts see that delta, or none where the list is free. It takes
/// memory by what changed, however long the list.
#[derive(Drop)]
pub struct Freezable {
    alloc: Global,
    pub(crate) since: Option<Composition>,
}

impl Model for Freezable {
    ghost use Rattle.std.specs.Prelude.{Option};
    ghost use Rattle.std.specs.Coded.{coded_list, coded_option};
    ghost use Rattle.spec_lists.specs.Piece.{piece_code};
    ghost use Rattle.spec_lists.specs.Delta.{Delta};

    ghost Value = { Option Delta };

    ghost coded = { coded_option (coded_list piece_code) };

    ghost view = { λ f. f.since };
}

impl Freezable {
    /// A freezable list that is free. It takes no memory.
    pub fn make(alloc: Global) -> Freezable
        ensures { result ≡ None }
    {
        Freezable { alloc, since: None }
    }

    pub fn is_frozen(&self) -> bool
        ensures { result ≡ is_some self.now }
    {
        self.since.is_some()
    }

    /// Freezes the list, whose input has so many elements.
    pub fn freeze(&mut self, len: usize) -> Result<HeldUndo, FreezeFault>
        requires few { len ≤ 2147483647 }
        ensures since { OnOk result (self.new ≡ Some (no_change len)) }
        ensures already { (result ≡ Err FreezeFault.AlreadyFrozen) ↔ IsSome self.old }
        ensures undo { IfOk result (λ undo. IsUndoSince undo self.old self.new) }
        ensures err { OnErr result (self.new ≡ self.old) }
    {
        if self.since.is_some() {
            return Err(FreezeFault::AlreadyFrozen);
        }
        let since = Composition::start(self.alloc, len)?;
        Ok(self.keep(Some(since)))
    }

    /// Composes a delta of the input. It takes memory, and time, by the changes of it and those that are kept.
    pub fn follow(&mut self, d: &Delta) -> Result<HeldUndo, AllocError>
        requires frozen { IsSome self.old }
        requires begins { BeginsWith (old_len d.now.pieces) (since_frozen self.old) }
        ensures since { OnOk result (self.new ≡ followed_since self.old d.now.pieces) }
        ensures undo { IfOk result (λ undo. IsUndoSince undo self.old self.new) }
        ensures err { OnErr result (self.new ≡ self.old) }
    {
        let next = match &self.since {
            Some(since) => since.then(d)?,
            None => unreachable!(),
        };
        Ok(self.keep(Some(next)))
    }

    /// Lets the list go, and answers what became of its input since it was frozen. It takes memory by the changes.
    pub fn thaw(&mut self) -> Result<(Delta, HeldUndo), ThawFault>
        ensures pieces { IfOk result (λ done. Some done.0.pieces ≡ self.old) }
        ensures free { OnOk result (self.new ≡ None) }
        ensures not_frozen { (result ≡ Err ThawFault.NotFrozen) ↔ (self.old ≡ None) }
        ensures undo { IfOk result (λ done. IsUndoSince done.1 self.old self.new) }
        ensures err { OnErr result (self.new ≡ self.old) }
    {
        let d = match &self.since {
            Some(since) => since.delta()?,
            None => return Err(ThawFault::NotFrozen),
        };
        Ok((d, self.keep(None)))
    }

    // Keeps another delta, or none, and answers the way back.
    fn keep(&mut self, since: Option<Composition>) -> HeldUndo
        ensures since { self.new ≡ since }
        ensures undo { IsUndoSince result self.old self.new }
    {
        HeldUndo {
            way: Way::Since(mem::replace(&mut self.since, since)),
        }
    }

    /// Goes back to where the list stood before its last change, whose undo this is. It takes no memory.
    pub fn retreat(&mut self, undo: HeldUndo)
        requires { IsOfFreezable undo.way }
        ensures { self.new ≡ since_before undo.way self.old }
    {
        let HeldUndo { way } = undo;
        match way {
            Way::Since(since) => self.since = since,
            _ => unreachable!(),
        }
    }

    /// How many elements are shown, `None` exactly where the list is free.
    pub fn held_len(&self) -> Option<usize>
        ensures none { (result ≡ None) ↔ (self.now ≡ None) }
        ensures len { (ys : List Tree) → LedTo (since_frozen self.now) ys
            → IfSome result (λ len. len ≡ length (undone_all (since_frozen self.now) ys)) }
        ensures value { result ≡ held_len (since_frozen self.now) }
    {
        match &self.since {
            Some(since) => Some(since.old_len()),
            None => None,
        }
    }

    /// Where an element that is shown stands: here, or at a position of the input. It takes time logarithmic in the changes.
    pub fn find(&self, position: usize) -> Find<'_>
        requires { IsShown position (since_frozen self.now) }
        ensures { (ys : List Tree) → LedTo (since_frozen self.now) ys
            → found (Some result) ys ≡ slice_get (undone_all (since_frozen self.now) ys) position }
    {
        match &self.since {
            Some(since) => match since.old_at(position) {
                Old::Kept(later) => Find::Input(later),
                Old::Value(v) => Find::Own(v),
            },
            None => Find::Input(position),
        }
    }
}
