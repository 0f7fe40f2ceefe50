//! What one listener is told.

ghost use Rattle.std.specs.Prelude.{◌≡◌, ◌+◌, ◌<◌, ◌≤◌, ◌++◌, length, slice_set, None, All};
ghost use Rattle.std.specs.Vec.{vec_capacity};
ghost use Rattle.spec_runs.specs.Telling.{attempts, telling_of};
ghost use Rattle.gl_tell.specs.Told.{tellings_of, IsFresh};
ghost use Rattle.gl_tell.specs.Heard.{heard_one};

use crate::desk::Desk;
use gl_delta::{Delta, Deltas};
use gl_event::Event;
use gl_plan::ListenerDecl;
use gl_source::Edit;

/// What a listener was told: the event of its list in the entry at that place of the order, and how often the listener tried
/// to write back, which is always refused.
#[derive(Drop)]
pub struct Telling {
    pub listener: u32,
    pub place: u64,
    pub event: Event,
    pub write_backs: u32,
}

/// Tells a listener the delta under its number, if there is one, and takes it from there. It takes no memory.
pub(crate) fn tell(
    listener: u32,
    listeners: &[ListenerDecl],
    place: u64,
    deltas: &mut Deltas,
    told: &mut Vec<Telling>,
)
    requires known { listener < length listeners.now }
    requires long { length deltas.old ≡ length listeners.now }
    requires room { length told.old.items < vec_capacity told.old }
    ensures told { tellings_of told.new.items
        ≡ tellings_of told.old.items ++ heard_one listeners.now place deltas.old listener }
    ensures left { deltas.new ≡ slice_set deltas.old listener None }
    ensures few { length told.new.items ≤ length told.old.items + 1 }
    ensures capacity { vec_capacity told.new ≡ vec_capacity told.old }
    ensures fresh { All IsFresh told.old.items → All IsFresh told.new.items }
{
    let echo = listeners[listener as usize].echo;
    match deltas.take(listener) {
        None => {}
        Some(delta) => tell_delta(listener, place, echo, delta, told),
    }
}

// Tells a listener the delta of its list, unless that is the identity.
#[tactic(auto, using(crate::proofs::Tellings::told_identity, crate::proofs::Tellings::told_change, crate::proofs::Tellings::fresh_more))]
fn tell_delta(listener: u32, place: u64, echo: bool, delta: Delta, told: &mut Vec<Telling>)
    requires room { length told.old.items < vec_capacity told.old }
    ensures told { tellings_of told.new.items
        ≡ tellings_of told.old.items ++ telling_of place listener echo delta.pieces }
    ensures few { length told.new.items ≤ length told.old.items + 1 }
    ensures capacity { vec_capacity told.new ≡ vec_capacity told.old }
    ensures fresh { All IsFresh told.old.items → All IsFresh told.new.items }
{
    if delta.changes() == 0 {
        return;
    }
    told.push_reserved(Telling {
        listener,
        place,
        event: Event::of(delta),
        write_backs: write_backs(echo),
    });
}

// How often a listener is refused to write back while it is told.
fn write_backs(echo: bool) -> u32
    ensures { result ≡ attempts echo }
{
    let mut desk = Desk::new();
    try_at(&mut desk, echo);
    desk.refused()
}

// An echo listener tries to remove the first element of its list.
fn try_at(desk: &mut Desk, echo: bool)
    requires { desk.old ≡ 0 }
    ensures { desk.new ≡ attempts echo }
{
    if echo {
        desk.edit(Edit::Remove { index: 0 });
    }
}
