//! The deltas of a section, composed as its commands are taken.

ghost use Rattle.std.specs.Prelude.{◌≡◌, ◌<◌, length, slice_index_or, Some, None, OnOk};
ghost use Rattle.gl_world.specs.Joined.{Meet, IsPutAt, IsJoinedAt, AreJoined, AreMeeting};

use gl_delta::{Delta, Deltas};
use gl_value::Memory;

/// Composes the delta of each list so far with the one that is told of it next, if one is. It takes memory for the
/// changes. After an `Err` the deltas are of no use.
pub(crate) fn join_all(sofar: &mut Deltas, mut next: Deltas, lists: u32) -> Result<(), Memory>
    requires sofar { length sofar.old ≡ lists }
    requires next { length next ≡ lists }
    requires meet { AreMeeting sofar.old next }
    ensures { OnOk result (AreJoined sofar.old next sofar.new) }
{
    for list in 0..lists {
        join(sofar, &mut next, list)?;
    }
    Ok(())
}

// Composes those of one list.
#[tactic(auto, using(crate::proofs::JoinedDeltas::joined_none, crate::proofs::JoinedDeltas::joined_some))]
fn join(sofar: &mut Deltas, next: &mut Deltas, list: u32) -> Result<(), Memory>
    requires sofar { list < length sofar.old }
    requires next { list < length next.old }
    requires meet { Meet (slice_index_or sofar.old list None) (slice_index_or next.old list None) }
    ensures { OnOk result (IsJoinedAt list sofar.old next.old sofar.new next.new) }
{
    match next.take(list) {
        None => Ok(()),
        Some(delta) => join_one(sofar, delta, list),
    }
}

// Composes the delta of a list so far, if there is one, with the next one.
#[tactic(auto, using(crate::proofs::JoinedDeltas::put_first, crate::proofs::JoinedDeltas::put_joined))]
fn join_one(sofar: &mut Deltas, next: Delta, list: u32) -> Result<(), Memory>
    requires sofar { list < length sofar.old }
    requires meet { Meet (slice_index_or sofar.old list None) (Some next) }
    ensures { OnOk result (IsPutAt list (Some next) sofar.old sofar.new) }
{
    match sofar.take(list) {
        None => {
            sofar.put(list, next);
            Ok(())
        }
        Some(mut delta) => {
            delta.reserve_for(&next)?;
            delta.absorb(next);
            sofar.put(list, delta);
            Ok(())
        }
    }
}
