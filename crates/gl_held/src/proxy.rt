//! A proxy.

ghost use Rattle.std.specs.Prelude.{◌≡◌, ◌↔◌, ◌∷◌, ◌++◌, ◌<◌, ◌≤◌, ℕ, [], length, Err, IfOk, OnOk, OnErr};
ghost use Rattle.spec_states.specs.Wave.{next_of_queue, pumped};
ghost use Rattle.spec_states.specs.Laws.{LeadOnFrom};
ghost use Rattle.gl_held.specs.Copied.{own_of};
ghost use Rattle.gl_held.specs.CopiedBack.{CanRetreatCopy, IsUndoCopy, queue_before, values_before};

use crate::fault::PumpFault;
use crate::undo::{HeldUndo, Way};
use gl_delta::Delta;
use gl_kernel::element;
use gl_source::{OpenFault, SourceList};
use gl_value::{Shelf, Value, Values};
use std::alloc::{AllocError, Global};
use std::collections::VecDeque;
use std::marker::Model;

/// A copy of a list that follows it later, in the steps in which it is pumped: the ThreadProxyEventList of Glazed Lists.
/// Contracts see its elements, the deltas that it is yet to take, the first one first, and for how many of either there is
/// room.
#[derive(Drop)]
pub struct Proxy {
    list: SourceList,
    queue: VecDeque<Delta>,
}

impl Model for Proxy {
    ghost use Rattle.std.specs.VecDeque.{deque_capacity};
    ghost use Rattle.gl_held.specs.Copied.{Copied, copied_code, queued, IsCopy};

    ghost Value = { Copied };

    ghost coded = { copied_code };

    ghost view = { λ p. record {
      values = p.list.values;
      queue = queued p.queue.items;
      room = p.list.room;
      queue_room = deque_capacity p.queue;
    } };

    ghost invariant = { λ p. IsCopy p.list.values (queued p.queue.items) p.list.limit };
}

impl Proxy {
    /// A proxy that shows what its input does. It takes memory for a copy of the list, whose values are shared.
    pub fn make<S: Shelf>(alloc: Global, input: &S) -> Result<Proxy, AllocError>
        requires { length (S.items input.now) ≤ 2147483647 }
        ensures values { IfOk result (λ proxy. proxy.values ≡ S.items input.now) }
        ensures queue { IfOk result (λ proxy. proxy.queue ≡ []) }
    {
        let rows = rows_of(alloc, input)?;
        match SourceList::make(alloc, &rows, 2147483647) {
            Ok(list) => Ok(Proxy {
                list,
                queue: VecDeque::new(alloc),
            }),
            Err(OpenFault::Memory) => Err(AllocError),
            Err(OpenFault::TooLong { len: _ }) => unreachable!(),
        }
    }

    /// Makes room for one more delta in the queue.
    pub fn reserve(&mut self) -> Result<(), AllocError>
        ensures ok { OnOk result (length self.new.queue < self.new.queue_room) }
        ensures values { self.new.values ≡ self.old.values }
        ensures queue { self.new.queue ≡ self.old.queue }
        ensures room { self.new.room ≡ self.old.room }
        ensures queue_room { self.old.queue_room ≤ self.new.queue_room }
    {
        self.queue.reserve(1)
    }

    /// Queues a delta that leads on from what the last queued one led to, or from what is shown where none is queued. It
    /// takes no memory, but room that `reserve` made.
    pub fn queue(&mut self, d: Delta)
        requires reserved { length self.old.queue < self.old.queue_room }
        requires leads { LeadOnFrom (self.old.queue ++ d.pieces ∷ []) self.old.values }
        ensures queue { self.new.queue ≡ self.old.queue ++ d.pieces ∷ [] }
        ensures values { self.new.values ≡ self.old.values }
        ensures room { self.new.room ≡ self.old.room }
        ensures queue_room { self.new.queue_room ≡ self.old.queue_room }
    {
        self.queue.push_back_reserved(d);
    }

    /// How many deltas it is yet to take.
    pub fn queued(&self) -> usize
        ensures { result ≡ length self.now.queue }
    {
        self.queue.len()
    }

    /// Takes the first delta of the queue, which it answers. It takes time logarithmic in the length, and memory, for each
    /// change of that delta.
    pub fn pump(&mut self) -> Result<(Delta, HeldUndo), PumpFault>
        ensures pieces { IfOk result
            (λ done. done.0.pieces ≡ next_of_queue self.old.values self.old.queue) }
        ensures kept { OnOk result
            ((input : ℕ) → own_of input self.new ≡ pumped (own_of input self.old)) }
        ensures nothing { (result ≡ Err PumpFault.Nothing) ↔ (self.old.queue ≡ []) }
        ensures undo { IfOk result (λ done. IsUndoCopy done.1 self.old self.new) }
        ensures err_values { OnErr result (self.new.values ≡ self.old.values) }
        ensures err_queue { OnErr result (self.new.queue ≡ self.old.queue) }
        ensures room { self.old.room ≤ self.new.room }
        ensures queue_room { self.new.queue_room ≡ self.old.queue_room }
    {
        let d = match self.queue.front() {
            Some(first) => first.copy()?,
            None => return Err(PumpFault::Nothing),
        };
        let _news = d.new_len();
        let undo = self.list.apply(&d)?;
        match self.queue.pop_front() {
            Some(first) => Ok((
                d,
                HeldUndo {
                    way: Way::Pumped(first, undo),
                },
            )),
            None => unreachable!(),
        }
    }

    /// Goes back to where the proxy stood before its last pump, whose undo this is. It takes no memory.
    pub fn retreat(&mut self, undo: HeldUndo)
        requires { CanRetreatCopy undo self.old }
        ensures values { self.new.values ≡ values_before undo.way self.old }
        ensures queue { self.new.queue ≡ queue_before undo.way self.old.queue }
        ensures room { self.old.room ≤ self.new.room }
        ensures queue_room { self.new.queue_room ≡ self.old.queue_room }
    {
        let HeldUndo { way } = undo;
        match way {
            Way::Pumped(first, undo) => {
                self.list.retreat(undo);
                self.queue.push_front_reserved(first);
            }
            _ => unreachable!(),
        }
    }
}

impl Shelf for Proxy {
    ghost items = { λ p. p.values };

    fn len(&self) -> usize {
        self.list.len()
    }

    fn get(&self, position: usize) -> Option<&Value> {
        self.list.get(position)
    }
}

// The elements of a list, as values that share what those hold.
fn rows_of<S: Shelf>(alloc: Global, input: &S) -> Result<Values, AllocError>
    ensures { IfOk result (λ rows. rows ≡ S.items input.now) }
{
    let mut rows = Values::new(alloc);
    'rows: for position in 0..input.len() {
        add(&mut rows, element(input, position).copy()?)?;
    }
    Ok(rows)
}

fn add(rows: &mut Values, v: Value) -> Result<(), AllocError>
    ensures { OnOk result (rows.new ≡ rows.old ++ v ∷ []) }
{
    match rows.push(v) {
        Ok(()) => Ok(()),
        Err((_v, failed)) => Err(failed),
    }
}
