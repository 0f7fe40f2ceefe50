//! Composition: the changes of a second delta, recorded on a first one.

ghost use Rattle.std.specs.Prelude.{◌≡◌, ◌+◌, ◌-◌, ◌*◌, ◌<◌, ◌≤◌, ◌∷◌, [], length};
ghost use Rattle.spec_lists.specs.Piece.{old_len, new_len, IsNormal};
ghost use Rattle.spec_lists.specs.Changes.{changed_len, after_changes};
ghost use Rattle.gl_delta.specs.Absorb.{one_change, kept_prefix, IsAbsorbing, IsCursor, NoneDeleted};
ghost use Rattle.gl_delta.specs.Marks.{piece_of};
ghost use Rattle.gl_delta.specs.Pieces.{pieces, room, IsComposed};
ghost use Rattle.gl_delta.specs.declared.mark.TheConstants.{MOST};

use crate::cell::CellRef;
use crate::edits::{insert_at, remove_at, set_at};
use crate::mark::Changed;
use crate::pieces::Pieces;

// A place right after some changes of a delta: how many these are, how many pieces and how many elements of the old
// list stand before it.
#[derive(Clone, Copy)]
struct Cursor {
    changes: usize,
    position: usize,
    at: usize,
}

/// The pieces of a delta composed with those of the next one, whose old list is its new list. It takes no memory.
/// Deletions are recorded first, so that the new list is never longer than it was or will be.
pub(crate) fn absorb(store: &mut Pieces, next: Pieces)
    requires { IsAbsorbing (pieces store.old) (pieces next) (pieces store.old) (pieces next)
        (room store.old) }
    ensures value { IsComposed (pieces store.old) (pieces next) (pieces store.new) }
    ensures room { room store.old ≤ room store.new }
{
    let mut left = next;
    absorb_deletions(store, &mut left);
    absorb_rest(store, &mut left);
}

// The deletions of the next delta are recorded, and taken out of it.
fn absorb_deletions(store: &mut Pieces, next: &mut Pieces)
    requires { IsAbsorbing (pieces store.old) (pieces next.old) (pieces store.old) (pieces next.old)
        (room store.old) }
    ensures left { IsAbsorbing (pieces store.old) (pieces next.old) (pieces store.new)
        (pieces next.new) (room store.new) }
    ensures none_deleted { NoneDeleted (pieces next.new) }
    ensures room { room store.old ≤ room store.new }
{
    let mut cursor = Cursor {
        changes: 0,
        position: 0,
        at: 0,
    };
    'deletions: while cursor.changes < next.changes() {
        cursor = absorb_deletion(store, next, cursor);
    }
}

// The next change is recorded and taken out if it is a deletion; otherwise the cursor moves after it.
fn absorb_deletion(store: &mut Pieces, next: &mut Pieces, cursor: Cursor) -> Cursor
    requires left { IsAbsorbing (pieces store.old) (pieces next.old) (pieces store.old)
        (pieces next.old) (room store.old) }
    requires cursor { IsCursor (pieces next.old) cursor }
    requires more { cursor.changes < changed_len (pieces next.old) }
    ensures left { IsAbsorbing (pieces store.old) (pieces next.old) (pieces store.new)
        (pieces next.new) (room store.new) }
    ensures cursor { IsCursor (pieces next.new) result }
    ensures less { changed_len (pieces next.new) - result.changes
        < changed_len (pieces next.old) - cursor.changes }
    ensures room { room store.old ≤ room store.new }
{
    let _few = next.changes();
    let keeps = keeps_after(next, cursor.changes);
    let position = cursor.position + keeps;
    let at = cursor.at + keeps;
    if next.is_deleted(position) {
        record(store, at, next.take(position));
        return cursor;
    }
    if next.is_inserted(position) {
        return Cursor {
            changes: cursor.changes + 1,
            position: position + 1,
            at,
        };
    }
    Cursor {
        changes: cursor.changes + 1,
        position: position + 1,
        at: at + 1,
    }
}

// What is left of the next delta is recorded, from left to right.
fn absorb_rest(store: &mut Pieces, next: &mut Pieces)
    requires left { IsAbsorbing (pieces store.old) (pieces next.old) (pieces store.old)
        (pieces next.old) (room store.old) }
    requires none_deleted { NoneDeleted (pieces next.old) }
    ensures value { IsComposed (pieces store.old) (pieces next.old) (pieces store.new) }
    ensures room { room store.old ≤ room store.new }
{
    // The pieces whose change was recorded, and those before them, are kept ones now.
    let mut at = 0;
    'changes: while next.changes() > 0 {
        let keeps = keeps_after(next, 0);
        record(store, at + keeps, next.take(keeps));
        at += 1;
    }
}

// How many kept pieces stand right after so many changes.
fn keeps_after(store: &Pieces, changes: usize) -> usize
    requires { changes ≤ changed_len (pieces store.now) }
    ensures { result ≡ kept_prefix (after_changes changes (pieces store.now)) }
{
    let mut cells = store.cells_from(changes);
    match cells.next() {
        Some(CellRef::Keep(n)) => n,
        Some(CellRef::Update(_, _)) => 0,
        Some(CellRef::Delete(_)) => 0,
        Some(CellRef::Insert(_)) => 0,
        None => 0,
    }
}

// A change at a place of the new list, recorded in room that there is.
fn record(store: &mut Pieces, at: usize, change: Changed)
    requires within { at + old_len (piece_of change ∷ []) ≤ new_len (pieces store.old) }
    requires few { length (pieces store.old) + 1 ≤ 2 * MOST + old_len (piece_of change ∷ []) }
    requires normal { IsNormal (pieces store.old) }
    requires spare { changed_len (pieces store.old) < room store.old }
    ensures value { IsComposed (pieces store.old)
        (one_change (new_len (pieces store.old)) at change) (pieces store.new) }
    ensures room { room store.old ≤ room store.new }
{
    match change {
        Changed::Updated(old, new) => match set_at(store, at, old, new) {
            Ok(()) => {}
            Err(_) => unreachable!(),
        },
        Changed::Deleted(old) => match remove_at(store, at, old) {
            Ok(()) => {}
            Err(_) => unreachable!(),
        },
        Changed::Inserted(new) => match insert_at(store, at, new) {
            Ok(()) => {}
            Err(_) => unreachable!(),
        },
    }
}
