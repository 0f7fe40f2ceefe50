//! The edits of a delta's pieces that compose it with one change of its new list.

ghost use Rattle.std.specs.Prelude.{◌≡◌, ◌+◌, ◌-◌, ◌*◌, ◌<◌, ◌≤◌, ◌++◌, ◌∷◌, length, take, drop, IfErr, OnOk, OnErr, Some, slice_get, suc, true};
ghost use Rattle.spec_lists.specs.Piece.{kept, new_len, normal, IsNormal};
ghost use Rattle.spec_lists.specs.Changes.{changed_len};
ghost use Rattle.spec_lists.specs.Delta.{one_insert, one_set, one_remove};
ghost use Rattle.gl_delta.specs.Marks.{piece_of, IsOn};
ghost use Rattle.gl_delta.specs.declared.mark.Side.TheVariants.{New};
ghost use Rattle.gl_delta.specs.declared.mark.TheConstants.{MOST};
ghost use Rattle.gl_delta.specs.Pieces.{pieces, room, first_of, second_of, with_new, IsUpdated, AllInserted, EndsUninserted, IsComposed, IsPushed};

use crate::mark::{Changed, Side};
use crate::pieces::Pieces;
use gl_value::Value;
use std::alloc::AllocError;

/// A value inserted at a place of the new list.
pub(crate) fn insert_at(store: &mut Pieces, at: usize, v: Value) -> Result<(), (Value, AllocError)>
    requires within { at ≤ new_len (pieces store.old) }
    requires few { length (pieces store.old) + 1 ≤ 2 * MOST }
    requires normal { IsNormal (pieces store.old) }
    ensures ok { OnOk result
        (IsComposed (pieces store.old) (one_insert (new_len (pieces store.old)) at v)
        (pieces store.new)) }
    ensures err { OnErr result (pieces store.new ≡ pieces store.old) }
    ensures back { IfErr result (λ e. e.0 ≡ v) }
    ensures full { OnErr result (room store.old ≤ changed_len (pieces store.old)) }
    ensures room { room store.old ≤ room store.new }
{
    let position = store.select(Side::New, at);
    match store.put(position, Changed::Inserted(v)) {
        Ok(()) => Ok(()),
        Err((change, failed)) => Err((first(change), failed)),
    }
}

/// The value at a place of the new list set to another.
pub(crate) fn set_at(
    store: &mut Pieces,
    at: usize,
    old: Value,
    new: Value,
) -> Result<(), (Value, Value, AllocError)>
    requires within { at < new_len (pieces store.old) }
    requires few { length (pieces store.old) ≤ 2 * MOST }
    requires normal { IsNormal (pieces store.old) }
    ensures ok { OnOk result
        (IsComposed (pieces store.old) (one_set (new_len (pieces store.old)) at old new)
        (pieces store.new)) }
    ensures err { OnErr result (pieces store.new ≡ pieces store.old) }
    ensures back { IfErr result (λ e. (e.0 ≡ old) × (e.1 ≡ new)) }
    ensures full { OnErr result (room store.old ≤ changed_len (pieces store.old)) }
    ensures room { room store.old ≤ room store.new }
{
    let position = store.select(Side::New, at);
    if store.is_kept(position) {
        return match replace_kept(store, position, Changed::Updated(old, new)) {
            Ok(()) => Ok(()),
            Err((change, failed)) => {
                let (old, new) = both(change);
                Err((old, new, failed))
            }
        };
    }
    let change = store.take(position);
    store.put_back(position, renewed(change, new));
    Ok(())
}

/// The value at a place of the new list removed.
pub(crate) fn remove_at(
    store: &mut Pieces,
    at: usize,
    old: Value,
) -> Result<(), (Value, AllocError)>
    requires within { at < new_len (pieces store.old) }
    requires few { length (pieces store.old) ≤ 2 * MOST }
    requires normal { IsNormal (pieces store.old) }
    ensures ok { OnOk result
        (IsComposed (pieces store.old) (one_remove (new_len (pieces store.old)) at old)
        (pieces store.new)) }
    ensures err { OnErr result (pieces store.new ≡ pieces store.old) }
    ensures back { IfErr result (λ e. e.0 ≡ old) }
    ensures full { OnErr result (room store.old ≤ changed_len (pieces store.old)) }
    ensures room { room store.old ≤ room store.new }
{
    let position = store.select(Side::New, at);
    if store.is_kept(position) {
        if let Err((change, failed)) = replace_kept(store, position, Changed::Deleted(old)) {
            return Err((first(change), failed));
        }
        settle(store, position);
        return Ok(());
    }
    if store.is_inserted(position) {
        discard(store.take(position));
        return Ok(());
    }
    let change = store.take(position);
    store.put_back(position, Changed::Deleted(first(change)));
    settle(store, position);
    Ok(())
}

/// A changed piece at the right end; a deletion before the insertions that stand there.
pub(crate) fn push(store: &mut Pieces, change: Changed) -> Result<(), (Changed, AllocError)>
    requires few { length (pieces store.old) + 1 ≤ 2 * MOST }
    requires normal { IsNormal (pieces store.old) }
    ensures ok { OnOk result (IsPushed (pieces store.old) (piece_of change) (pieces store.new)) }
    ensures err { OnErr result (pieces store.new ≡ pieces store.old) }
    ensures back { IfErr result (λ e. e.0 ≡ change) }
    ensures room { room store.old ≤ room store.new }
{
    if change.is_on(Side::New) {
        return store.append(change);
    }
    let position = run_start(store, store.len());
    store.put(position, change)
}

// A changed piece in place of a kept one.
fn replace_kept(
    store: &mut Pieces,
    position: usize,
    change: Changed,
) -> Result<(), (Changed, AllocError)>
    requires kept { slice_get (pieces store.old) position ≡ Some kept }
    requires few { length (pieces store.old) ≤ 2 * MOST }
    ensures ok { OnOk result
        (pieces store.new
        ≡ take position (pieces store.old)
        ++ piece_of change ∷ drop (suc position) (pieces store.old)) }
    ensures err { OnErr result (pieces store.new ≡ pieces store.old) }
    ensures back { IfErr result (λ e. e.0 ≡ change) }
    ensures full { OnErr result (room store.old ≤ changed_len (pieces store.old)) }
    ensures room { room store.old ≤ room store.new }
{
    if store.reserve(1).is_err() {
        return Err((change, AllocError));
    }
    store.drop_kept(position);
    store.put_back(position, change);
    Ok(())
}

/// Deletions from a place on moved before the insertions before it, so that all is in normal form.
pub(crate) fn settle(store: &mut Pieces, at: usize)
    requires within { at ≤ length (pieces store.old) }
    requires prefix { IsNormal (take at (pieces store.old)) }
    requires back { IsNormal (drop at (pieces store.old)) }
    requires few { length (pieces store.old) ≤ 2 * MOST }
    ensures value { pieces store.new ≡ normal (pieces store.old) }
    ensures room { room store.old ≤ room store.new }
{
    let to = run_start(store, at);
    if to == at {
        return;
    }
    let end = store.select(Side::New, store.rank(Side::New, at));
    store.move_deleted(to, at, end);
}

// Where the insertions begin that end at a place.
fn run_start(store: &Pieces, end: usize) -> usize
    requires within { end ≤ length (pieces store.now) }
    requires prefix { IsNormal (take end (pieces store.now)) }
    ensures within { result ≤ end }
    ensures run { AllInserted (take (end - result) (drop result (pieces store.now))) }
    ensures before { EndsUninserted (take result (pieces store.now)) }
{
    let olds = store.rank(Side::Old, end);
    if olds == 0 {
        return 0;
    }
    store.select(Side::Old, olds - 1) + 1
}

// The value of an insertion or a deletion, the old one of an update.
pub(crate) fn first(change: Changed) -> Value
    ensures { result ≡ first_of change }
{
    match change {
        Changed::Updated(v, _) => v,
        Changed::Deleted(v) => v,
        Changed::Inserted(v) => v,
    }
}

// An update or an insertion with another new value.
fn renewed(change: Changed, new: Value) -> Changed
    requires { IsOn New change ≡ true }
    ensures { result ≡ with_new change new }
{
    match change {
        Changed::Updated(v, _w) => Changed::Updated(v, new),
        Changed::Inserted(_w) => Changed::Inserted(new),
        Changed::Deleted(_v) => unreachable!(),
    }
}

fn discard(_change: Changed) {}

// Both values of an update.
pub(crate) fn both(change: Changed) -> (Value, Value)
    requires { IsUpdated change }
    ensures old { result.0 ≡ first_of change }
    ensures new { result.1 ≡ second_of change }
{
    match change {
        Changed::Updated(v, w) => (v, w),
        Changed::Deleted(_) | Changed::Inserted(_) => unreachable!(),
    }
}
