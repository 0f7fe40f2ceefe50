//! The pieces of a delta, edited one at a time: colours in runs, and beside them the values that pieces tell. What is kept
//! takes no memory of its own. Each edit and each question takes time logarithmic in the changes, however many pieces an
//! edit moves.

ghost use Rattle.std.specs.Prelude.{◌↔◌, IsTrue, ◌≡◌, ◌+◌, ◌*◌, ◌<◌, ◌≤◌, [], length, insert, remove, IfOk, IfErr, OnOk, OnErr, MatchOption, Some, false, slice_get, option_map, ◌++◌, ◌∷◌, take, drop, map};
ghost use Rattle.spec_lists.specs.Piece.{Piece, kept, identity, old_len, normal, inverted, IsNormal};
ghost use Rattle.spec_lists.specs.Cells.{cells_of, pieces_in};
ghost use Rattle.spec_lists.specs.Changes.{after_changes, changed_len};
ghost use Rattle.spec_lists.specs.Sides.{olds};
ghost use Rattle.gl_delta.specs.Old.{IsOldAt};
ghost use Rattle.gl_delta.specs.Plain.{kept_len, IsKeptAt};
ghost use Rattle.gl_delta.specs.Cells.{cell_ref};
ghost use Rattle.gl_delta.specs.Marks.{piece_of, IsSelected, side_len, kind_of};
ghost use Rattle.gl_delta.specs.declared.mark.TheConstants.{MOST};
ghost use Rattle.gl_delta.specs.Pieces.{pieces, room, is_kept_piece, brought_forward, AreAfter, IsNextChanged};

use crate::cell::{CellRef, Old};
use crate::mark::{CHANGED, Changed, DELETED, KEPT, KEPT_ALONE, Kind, Side, WITH_NEW, WITH_OLD};
use crate::ranked::Ranked;
use crate::turn::turn;
use crate::values::{put_values, take_values};
use gl_fourcolour::Runs;
use std::alloc::{AllocError, Global};
use std::marker::Model;

/// Pieces, by a colour for each one, and the old and the new values that they tell. Contracts see the pieces, and for how
/// many changed ones there is room.
#[derive(Drop)]
pub(crate) struct Pieces {
    colours: Runs<4>,
    olds: Ranked,
    news: Ranked,
    room: usize,
    alloc: Global,
}

impl Model for Pieces {
    ghost use Rattle.gl_delta.specs.Model.{DeltaModel, delta_model_code};
    ghost use Rattle.gl_delta.specs.Store.{told_by, IsStored};

    ghost Value = { DeltaModel };

    ghost coded = { delta_model_code };

    ghost view = { λ p. record {
      pieces = told_by p.colours.colours p.olds.values p.news.values;
      room = p.room;
    } };

    ghost invariant = { λ p. IsStored p.colours p.olds p.news p.room (told_by p.colours.colours p.olds.values p.news.values) };
}

impl Pieces {
    /// No pieces. It takes no memory.
    pub(crate) fn none(alloc: Global) -> Pieces
        ensures { pieces result ≡ [] }
    {
        Pieces {
            colours: Runs::<4>::new(alloc),
            olds: Ranked::new(alloc),
            news: Ranked::new(alloc),
            room: 0,
            alloc,
        }
    }

    /// So many kept ones.
    pub(crate) fn kept(alloc: Global, len: usize) -> Result<Pieces, AllocError>
        requires { len ≤ 2 * MOST }
        ensures { IfOk result (λ p. pieces p ≡ identity len) }
    {
        let mut all = Pieces::none(alloc);
        all.keep(len)?;
        Ok(all)
    }

    /// The place of an element of one list among the pieces; at the list's length the number of pieces.
    pub(crate) fn select(&self, side: Side, position: usize) -> usize
        requires within { position ≤ side_len side (pieces self.now) }
        ensures { IsSelected side (pieces self.now) position result }
    {
        match self.colours.select(position, side.mask()) {
            Some(found) => found,
            None => self.colours.len(),
        }
    }

    /// How many elements of one list stand before a place among the pieces.
    pub(crate) fn rank(&self, side: Side, position: usize) -> usize
        requires { position ≤ length (pieces self.now) }
        ensures { result ≡ side_len side (take position (pieces self.now)) }
    {
        self.colours.rank(position, side.mask())
    }

    /// How many kept pieces stand before a place among the pieces.
    pub(crate) fn kept_before(&self, position: usize) -> usize
        requires { position ≤ length (pieces self.now) }
        ensures { result ≡ kept_len (take position (pieces self.now)) }
    {
        self.colours.rank(position, KEPT_ALONE)
    }

    /// The place of a kept piece by its number among those, `None` where there are no more than so many.
    pub(crate) fn kept_at(&self, k: usize) -> Option<usize>
        ensures { MatchOption result (kept_len (pieces self.now) ≤ k)
            (IsKeptAt (pieces self.now) k) }
    {
        self.colours.select(k, KEPT_ALONE)
    }

    /// What the piece at a place is, `None` after the last one.
    pub(crate) fn kind(&self, position: usize) -> Option<Kind>
        ensures { result ≡ option_map kind_of (slice_get (pieces self.now) position) }
    {
        if position < self.colours.len() {
            Some(Kind::of_colour(self.colours.colour(position)))
        } else {
            None
        }
    }

    /// Makes room for so many changed pieces more.
    pub(crate) fn reserve(&mut self, more: usize) -> Result<(), AllocError>
        ensures ok { OnOk result (changed_len (pieces self.new) + more ≤ room self.new) }
        ensures pieces { pieces self.new ≡ pieces self.old }
        ensures full { OnErr result (room self.old < changed_len (pieces self.old) + more) }
        ensures room { room self.old ≤ room self.new }
    {
        let Some(total) = self.changes().checked_add(more) else {
            return Err(AllocError);
        };
        if total <= self.room {
            return Ok(());
        }
        // So many changed pieces, with kept ones between them, have one run more than twice as many.
        let Some(runs) = total.checked_mul(2) else {
            return Err(AllocError);
        };
        self.olds.reserve(total)?;
        self.news.reserve(total)?;
        self.colours.reserve_runs(runs + 1)?;
        self.room = total;
        Ok(())
    }

    /// Puts a changed piece at a place. It takes memory where there is no room for one more.
    pub(crate) fn put(
        &mut self,
        position: usize,
        change: Changed,
    ) -> Result<(), (Changed, AllocError)>
        requires within { position ≤ length (pieces self.old) }
        requires few { length (pieces self.old) + 1 ≤ 2 * MOST }
        ensures ok { OnOk result
            (pieces self.new ≡ insert (pieces self.old) position (piece_of change)) }
        ensures err { OnErr result (pieces self.new ≡ pieces self.old) }
        ensures back { IfErr result (λ e. e.0 ≡ change) }
        ensures full { OnErr result (room self.old ≤ changed_len (pieces self.old)) }
        ensures room { room self.old ≤ room self.new }
    {
        if self.reserve(1).is_err() {
            return Err((change, AllocError));
        }
        self.put_back(position, change);
        Ok(())
    }

    /// Puts a changed piece at a place, in room that there is. It takes no memory.
    pub(crate) fn put_back(&mut self, position: usize, change: Changed)
        requires within { position ≤ length (pieces self.old) }
        requires few { length (pieces self.old) + 1 ≤ 2 * MOST }
        requires spare { changed_len (pieces self.old) < room self.old }
        ensures pieces { pieces self.new ≡ insert (pieces self.old) position (piece_of change) }
        ensures room { room self.old ≤ room self.new }
    {
        let old = self.colours.rank(position, WITH_OLD);
        let new = self.colours.rank(position, WITH_NEW);
        self.colours.insert_reserved(position, change.colour(), 1);
        put_values(&mut self.olds, &mut self.news, old, new, change);
    }

    /// Puts a changed piece at the end. It takes memory where there is no room for one more.
    pub(crate) fn append(&mut self, change: Changed) -> Result<(), (Changed, AllocError)>
        requires few { length (pieces self.old) + 1 ≤ 2 * MOST }
        ensures ok { OnOk result (pieces self.new ≡ pieces self.old ++ piece_of change ∷ []) }
        ensures err { OnErr result (pieces self.new ≡ pieces self.old) }
        ensures back { IfErr result (λ e. e.0 ≡ change) }
        ensures room { room self.old ≤ room self.new }
    {
        let end = self.colours.len();
        self.put(end, change)
    }

    /// Puts so many kept pieces at the end. It takes memory where no run of kept ones stands there.
    pub(crate) fn keep(&mut self, n: usize) -> Result<(), AllocError>
        requires { length (pieces self.old) + n ≤ 2 * MOST }
        ensures ok { OnOk result (pieces self.new ≡ pieces self.old ++ identity n) }
        ensures err { OnErr result (pieces self.new ≡ pieces self.old) }
        ensures room { room self.new ≡ room self.old }
    {
        let end = self.colours.len();
        self.colours.insert(end, KEPT, n)
    }

    /// Takes out a kept piece.
    pub(crate) fn drop_kept(&mut self, position: usize)
        requires { slice_get (pieces self.old) position ≡ Some kept }
        ensures rest { pieces self.new ≡ remove (pieces self.old) position }
        ensures room { room self.new ≡ room self.old }
    {
        self.colours.remove(position, 1);
    }

    /// Takes out a changed piece. There is room for it afterwards.
    pub(crate) fn take(&mut self, position: usize) -> Changed
        requires within { position < length (pieces self.old) }
        requires changed { is_kept_piece (slice_get (pieces self.old) position) ≡ false }
        ensures taken { slice_get (pieces self.old) position ≡ Some (piece_of result) }
        ensures rest { pieces self.new ≡ remove (pieces self.old) position }
        ensures room { room self.new ≡ room self.old }
        ensures spare { changed_len (pieces self.new) < room self.new }
    {
        let kind = Kind::of_colour(self.colours.colour(position));
        let old = self.colours.rank(position, WITH_OLD);
        let new = self.colours.rank(position, WITH_NEW);
        self.colours.remove(position, 1);
        take_values(&mut self.olds, &mut self.news, old, new, kind)
    }

    /// Moves the deletions up to `end` before the insertions before them, which begin at `to`. No value moves, since
    /// deletions tell old values alone and insertions new ones alone. It takes no memory.
    pub(crate) fn move_deleted(&mut self, to: usize, from: usize, end: usize)
        requires later { AreAfter (pieces self.old) to from end }
        requires some { to < from }
        requires few { length (pieces self.old) ≤ 2 * MOST }
        ensures pieces { (b : AreAfter (pieces self.old) to from end)
            → pieces self.new ≡ brought_forward b }
        ensures room { room self.new ≡ room self.old }
    {
        let deleted = end - from;
        self.colours.remove(from, deleted);
        self.colours.insert_reserved(to, DELETED, deleted);
    }

    /// Whether all are kept.
    pub(crate) fn is_unchanged(&self) -> bool
        ensures { IsTrue result ↔ (pieces self.now ≡ identity (old_len (pieces self.now))) }
    {
        self.changes() == 0
    }

    /// What became of an element of the old list.
    pub(crate) fn old_at(&self, position: usize) -> Old<'_>
        requires within { position < old_len (pieces self.now) }
        ensures { IsOldAt (olds 0 (pieces self.now)) position result }
    {
        let found = self.select(Side::Old, position);
        if self.colours.colour(found) == KEPT {
            return Old::Kept(self.colours.rank(found, Side::New.mask()));
        }
        Old::Value(self.olds.at(self.colours.rank(found, WITH_OLD)))
    }

    /// An equal list of pieces, in memory of its own.
    pub(crate) fn copy(&self) -> Result<Pieces, AllocError>
        requires { length (pieces self.now) ≤ 2 * MOST }
        ensures { IfOk result (λ p. pieces p ≡ pieces self.now) }
    {
        let mut own = Pieces::none(self.alloc);
        own.reserve(self.changes())?;
        'copies: for cell in self.cells() {
            own.append_copy(cell)?;
        }
        Ok(own)
    }

    // The pieces of a cell at the end, with values that share what the cell's hold.
    fn append_copy(&mut self, cell: CellRef<'_>) -> Result<(), AllocError>
        requires { length (pieces self.old) + length (pieces_in (cell_ref cell)) ≤ 2 * MOST }
        ensures { OnOk result
            (pieces self.new ≡ pieces self.old ++ pieces_in (cell_ref cell.entry)) }
    {
        let change = match cell {
            CellRef::Keep(n) => return self.keep(n),
            CellRef::Update(v, w) => Changed::Updated(v.copy()?, w.copy()?),
            CellRef::Delete(v) => Changed::Deleted(v.copy()?),
            CellRef::Insert(w) => Changed::Inserted(w.copy()?),
        };
        match self.append(change) {
            Ok(()) => Ok(()),
            Err((_change, failed)) => Err(failed),
        }
    }

    /// The pieces turned round, in normal form. It takes no memory.
    pub(crate) fn inverted(self) -> Pieces
        requires { IsNormal (pieces self) }
        ensures pieces { pieces result ≡ normal (map inverted (pieces self)) }
        ensures room { room result ≡ room self }
    {
        let Pieces {
            mut colours,
            olds,
            news,
            room,
            alloc,
        } = self;
        turn(&mut colours);
        Pieces {
            colours,
            olds: news,
            news: olds,
            room,
            alloc,
        }
    }

    /// How many pieces aren't kept, in constant time.
    pub(crate) fn changes(&self) -> usize
        ensures { result ≡ changed_len (pieces self.now) }
    {
        self.colours.count(CHANGED)
    }

    /// The place of the first changed piece from a place on, or the number of pieces.
    pub(crate) fn next_changed(&self, from: usize) -> usize
        requires { from ≤ length (pieces self.now) }
        ensures { IsNextChanged (pieces self.now) from result }
    {
        let before = self.colours.rank(from, CHANGED);
        match self.colours.select(before, CHANGED) {
            Some(found) => found,
            None => self.colours.len(),
        }
    }

    /// The cell of a changed piece.
    pub(crate) fn cell(&self, position: usize) -> CellRef<'_>
        requires within { position < length (pieces self.now) }
        requires changed { is_kept_piece (slice_get (pieces self.now) position) ≡ false }
        ensures { (x : Piece) → slice_get (pieces self.now) position ≡ Some x
            → cells_of (x ∷ []) ≡ cell_ref result ∷ [] }
    {
        let old = self.colours.rank(position, WITH_OLD);
        let new = self.colours.rank(position, WITH_NEW);
        match Kind::of_colour(self.colours.colour(position)) {
            Kind::Kept => unreachable!(),
            Kind::Updated => CellRef::Update(self.olds.at(old), self.news.at(new)),
            Kind::Deleted => CellRef::Delete(self.olds.at(old)),
            Kind::Inserted => CellRef::Insert(self.news.at(new)),
        }
    }

    /// How many pieces there are.
    pub(crate) fn len(&self) -> usize
        ensures { result ≡ length (pieces self.now) }
    {
        self.colours.len()
    }

    /// The place after so many changed pieces.
    pub(crate) fn later(&self, changes: usize) -> usize
        requires { changes ≤ changed_len (pieces self.now) }
        ensures within { result ≤ length (pieces self.now) }
        ensures rest { drop result (pieces self.now) ≡ after_changes changes (pieces self.now) }
    {
        if changes == 0 {
            return 0;
        }
        let _few = self.colours.len();
        match self.colours.select(changes - 1, CHANGED) {
            Some(last) => last + 1,
            None => unreachable!(),
        }
    }
}
