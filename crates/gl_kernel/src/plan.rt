//! What a list that follows another is going to do.

ghost use Rattle.std.specs.Prelude.{◌≡◌, ◌<◌, [], length, slice_get, Some};

use crate::log_step::LogStep;
use gl_delta::Delta;
use gl_value::{Shelf, Value};
use std::alloc::Global;

/// What a list is going to tell, and the edits of what it keeps, for the elements of its input before a place.
#[derive(Drop)]
pub struct Plan<T> {
    pub out: Delta,
    pub log: Vec<LogStep<T>>,
    pub position: usize,
}

impl<T> Plan<T> {
    /// Nothing is told yet. It takes no memory.
    pub fn new(alloc: Global) -> Plan<T>
        ensures out { result.out.pieces ≡ [] }
        ensures log { result.log.items ≡ [] }
        ensures position { result.position ≡ 0 }
    {
        Plan {
            out: Delta::start(alloc),
            log: Vec::new(alloc),
            position: 0,
        }
    }
}

/// The element at a place of a shelf.
pub fn element<S: Shelf>(input: &S, position: usize) -> &Value
    requires { position < length (S.items input.now) }
    ensures { slice_get (S.items input.now) position ≡ Some result.now }
{
    match input.get(position) {
        Some(value) => value,
        None => unreachable!(),
    }
}
