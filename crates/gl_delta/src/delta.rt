//! A delta: what became of each element of an old list on the way to a new one.

ghost use Rattle.std.specs.Prelude.{◌≡◌, ◌+◌, ◌*◌, ◌<◌, ◌≤◌, ◌++◌, ◌↔◌, [], IsTrue, IfOk, IfErr, OnOk, OnErr};
ghost use Rattle.spec_lists.specs.Piece.{old_len, new_len, normal, identity, IsNormal};
ghost use Rattle.spec_lists.specs.Delta.{composed, one_insert, one_set, one_remove};
ghost use Rattle.spec_lists.specs.Cells.{pieces_in, cells_of};
ghost use Rattle.spec_lists.specs.Changes.{changed_len, after_changes};
ghost use Rattle.spec_lists.specs.Sides.{sides};
ghost use Rattle.gl_delta.specs.Absorb.{cells_together};
ghost use Rattle.gl_delta.specs.Old.{IsOldAt};
ghost use Rattle.gl_delta.specs.Cells.{cell_of, cells_rest};
ghost use Rattle.gl_delta.specs.declared.mark.TheConstants.{MOST};

use crate::absorb::absorb;
use crate::cell::{Cell, Old};
use crate::cells::Cells;
use crate::edits::{both, first, insert_at, push, remove_at, set_at};
use crate::mark::Changed;
use crate::pieces::Pieces;
use gl_value::Value;
use std::alloc::{AllocError, Global};
use std::marker::Model;

/// A delta from an old list to a new one. Contracts see its pieces from left to right, a kept element at a time, and for
/// how many changes it has room. It takes memory for its changes alone.
///
/// Its cells are the four colours (insert, update, delete, no change) in which Glazed Lists' assembler collects changes.
#[derive(Drop)]
pub struct Delta {
    pub(crate) store: Pieces,
    pub(crate) olds: usize,
    pub(crate) news: usize,
}

impl Model for Delta {
    ghost use Rattle.gl_delta.specs.Model.{DeltaModel, delta_model_code};

    ghost Value = { DeltaModel };

    ghost coded = { delta_model_code };

    ghost use Rattle.gl_delta.specs.Pieces.{pieces, room, IsKept};

    ghost view = { λ d. record { pieces = pieces d.store; room = room d.store } };

    ghost invariant = { λ d. IsKept (pieces d.store) d.olds d.news };
}

impl Delta {
    /// The delta of a list that doesn't change.
    pub fn identity(alloc: Global, len: usize) -> Result<Delta, AllocError>
        requires { len ≤ MOST }
        ensures { IfOk result (λ d. d.pieces ≡ identity len) }
    {
        Ok(Delta {
            store: Pieces::kept(alloc, len)?,
            olds: len,
            news: len,
        })
    }

    /// The delta of two empty lists, to be built by `push`. It takes no memory.
    pub fn start(alloc: Global) -> Delta
        ensures { result.pieces ≡ [] }
    {
        Delta {
            store: Pieces::none(alloc),
            olds: 0,
            news: 0,
        }
    }

    /// How many elements the old list has.
    pub fn old_len(&self) -> usize
        ensures value { result ≡ old_len self.now.pieces }
        ensures few { result ≤ MOST }
        ensures normal { IsNormal self.now.pieces }
    {
        self.olds
    }

    /// How many elements the new list has.
    pub fn new_len(&self) -> usize
        ensures value { result ≡ new_len self.now.pieces }
        ensures few { result ≤ MOST }
        ensures normal { IsNormal self.now.pieces }
    {
        self.news
    }

    /// Whether nothing changed, in constant time.
    pub fn is_identity(&self) -> bool
        ensures { IsTrue result ↔ (self.now.pieces ≡ identity (old_len self.now.pieces)) }
    {
        self.store.is_unchanged()
    }

    /// Adds a cell at the right end; a deletion goes before the insertions that stand there. It takes memory for a change
    /// where there is no room for it; where there is none, it hands the cell back and the delta is as it was.
    pub fn push(&mut self, c: Cell) -> Result<(), (Cell, AllocError)>
        requires olds { old_len self.old.pieces + old_len (pieces_in (cell_of c)) ≤ MOST }
        requires news { new_len self.old.pieces + new_len (pieces_in (cell_of c)) ≤ MOST }
        ensures ok { OnOk result
            (self.new.pieces ≡ normal (self.old.pieces ++ pieces_in (cell_of c))) }
        ensures err { OnErr result (self.new.pieces ≡ self.old.pieces) }
        ensures back { IfErr result (λ e. e.0 ≡ c) }
        ensures room { self.old.room ≤ self.new.room }
    {
        match c {
            Cell::Keep(n) => match self.store.keep(n) {
                Ok(()) => {
                    self.olds += n;
                    self.news += n;
                    Ok(())
                }
                Err(failed) => Err((Cell::Keep(n), failed)),
            },
            Cell::Update(v, w) => match push(&mut self.store, Changed::Updated(v, w)) {
                Ok(()) => {
                    self.olds += 1;
                    self.news += 1;
                    Ok(())
                }
                Err((change, failed)) => {
                    let (v, w) = both(change);
                    Err((Cell::Update(v, w), failed))
                }
            },
            Cell::Delete(v) => match push(&mut self.store, Changed::Deleted(v)) {
                Ok(()) => {
                    self.olds += 1;
                    Ok(())
                }
                Err((change, failed)) => Err((Cell::Delete(first(change)), failed)),
            },
            Cell::Insert(w) => match push(&mut self.store, Changed::Inserted(w)) {
                Ok(()) => {
                    self.news += 1;
                    Ok(())
                }
                Err((change, failed)) => Err((Cell::Insert(first(change)), failed)),
            },
        }
    }

    /// Records that the value was inserted into the new list at a place: the composition with that change. It takes memory
    /// where there is no room for a change; where there is none, it hands the value back and the delta is as it was.
    pub fn record_insert(&mut self, at: usize, v: Value) -> Result<(), (Value, AllocError)>
        requires within { at ≤ new_len self.old.pieces }
        requires few { new_len self.old.pieces + 1 ≤ MOST }
        ensures ok { OnOk result
            (self.new.pieces
            ≡ composed self.old.pieces (one_insert (new_len self.old.pieces) at v)) }
        ensures err { OnErr result (self.new.pieces ≡ self.old.pieces) }
        ensures back { IfErr result (λ e. e.0 ≡ v) }
        ensures room { self.old.room ≤ self.new.room }
    {
        insert_at(&mut self.store, at, v)?;
        self.news += 1;
        Ok(())
    }

    /// Records that the new list's value at a place, `old`, was set to `new`: the composition with that change. Memory as
    /// in `record_insert`.
    pub fn record_set(
        &mut self,
        at: usize,
        old: Value,
        new: Value,
    ) -> Result<(), (Value, Value, AllocError)>
        requires { at < new_len self.old.pieces }
        ensures ok { OnOk result
            (self.new.pieces
            ≡ composed self.old.pieces (one_set (new_len self.old.pieces) at old new)) }
        ensures err { OnErr result (self.new.pieces ≡ self.old.pieces) }
        ensures back { IfErr result (λ e. (e.0 ≡ old) × (e.1 ≡ new)) }
        ensures room { self.old.room ≤ self.new.room }
    {
        set_at(&mut self.store, at, old, new)?;
        Ok(())
    }

    /// Records that the new list's value at a place, `old`, was removed: the composition with that change. Memory as in
    /// `record_insert`.
    pub fn record_remove(&mut self, at: usize, old: Value) -> Result<(), (Value, AllocError)>
        requires { at < new_len self.old.pieces }
        ensures ok { OnOk result
            (self.new.pieces
            ≡ composed self.old.pieces (one_remove (new_len self.old.pieces) at old)) }
        ensures err { OnErr result (self.new.pieces ≡ self.old.pieces) }
        ensures back { IfErr result (λ e. e.0 ≡ old) }
        ensures room { self.old.room ≤ self.new.room }
    {
        remove_at(&mut self.store, at, old)?;
        self.news -= 1;
        Ok(())
    }

    /// Makes room for the composition with another delta: spare, which is room less the number of changed elements,
    /// is then at least the number of both deltas' cells. Where there is no memory for it, the delta is as it was.
    pub fn reserve_for(&mut self, next: &Delta) -> Result<(), AllocError>
        ensures ok { OnOk result
            (changed_len self.new.pieces + cells_together self.new.pieces next.now.pieces ≤ self.new.room) }
        ensures pieces { self.new.pieces ≡ self.old.pieces }
        ensures room { self.old.room ≤ self.new.room }
    {
        // Between two changes stands one cell of kept elements at most.
        let cells = 2 * self.changes() + 1 + 2 * next.changes() + 1;
        self.store.reserve(cells)?;
        Ok(())
    }

    /// Composes the delta with one that leads on from its new list: it then leads from its old list to the new list
    /// of the other. It takes no memory, but room that `reserve_for` made. Each change of the other delta takes time
    /// logarithmic in the changes of both.
    pub fn absorb(&mut self, next: Delta)
        requires fits { old_len next.pieces ≡ new_len self.old.pieces }
        requires spare { changed_len self.old.pieces + cells_together self.old.pieces next.pieces
            ≤ self.old.room }
        ensures pieces { self.new.pieces ≡ composed self.old.pieces next.pieces }
        ensures room { self.old.room ≤ self.new.room }
    {
        absorb(&mut self.store, next.store);
        self.news = next.news;
    }

    /// What became of an element of the old list: kept, at this new place; or its value where it was updated or deleted.
    pub fn old_at(&self, position: usize) -> Old<'_>
        requires { position < old_len self.now.pieces }
        ensures { IsOldAt (sides self.now.pieces).old position result }
    {
        self.store.old_at(position)
    }

    /// An equal delta, whose values share what this one's hold. It takes memory for its changes.
    pub fn copy(&self) -> Result<Delta, AllocError>
        ensures { IfOk result (λ d. d.pieces ≡ self.now.pieces) }
    {
        Ok(Delta {
            store: self.store.copy()?,
            olds: self.olds,
            news: self.news,
        })
    }

    /// How many elements aren't kept, in constant time.
    pub fn changes(&self) -> usize
        ensures value { result ≡ changed_len self.now.pieces }
        ensures few { result ≤ 2 * MOST }
    {
        self.store.changes()
    }

    /// The cells after so many changes. It takes no step for those that it leaves out.
    pub fn cells_from(&self, changes: usize) -> Cells<'_>
        requires { changes ≤ changed_len self.now.pieces }
        ensures { cells_rest result ≡ cells_of (after_changes changes self.now.pieces) }
    {
        self.store.cells_from(changes)
    }

    /// The cells from left to right.
    pub fn cells(&self) -> Cells<'_>
        ensures cells { cells_rest result ≡ cells_of self.now.pieces }
        ensures normal { IsNormal self.now.pieces }
    {
        self.store.cells()
    }
}
