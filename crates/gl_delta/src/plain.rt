//! Places among the elements of a delta's new list that have an equal partner in the old one.

ghost use Rattle.std.specs.Prelude.{◌≡◌, ◌≤◌, take};
ghost use Rattle.spec_lists.specs.Sides.{sides};
ghost use Rattle.gl_delta.specs.Part.{plain_len, plain_position};

use crate::delta::Delta;
use crate::mark::Side;

/// How many elements of the new list below a place have an equal partner. It takes time logarithmic in the changes.
pub(crate) fn plain_before(delta: &Delta, at: usize) -> usize
    ensures value { result ≡ plain_len (take at (sides delta.now.pieces).new) }
    ensures few { result ≤ at }
{
    let position = delta.store.select(Side::New, at.min(delta.new_len()));
    delta.store.kept_before(position)
}

/// The place in the new list of an element by its number among those that have an equal partner; `None` where there are
/// fewer. It takes time logarithmic in the changes.
pub(crate) fn plain_position(delta: &Delta, k: usize) -> Option<usize>
    ensures { result ≡ plain_position (sides delta.now.pieces).new k }
{
    match delta.store.kept_at(k) {
        Some(found) => Some(delta.store.rank(Side::New, found)),
        None => None,
    }
}
