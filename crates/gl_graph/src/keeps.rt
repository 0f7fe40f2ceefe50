//! What a list keeps.

ghost use Rattle.std.specs.Prelude.{◌≡◌, ◌<◌, ℕ, List, None, length, slice_get, IfOk, IfErr, OnErr};
ghost use Rattle.std.specs.List.{Contains};
ghost use Rattle.spec_states.specs.Tree.{Tree};
ghost use Rattle.spec_states.specs.Piece.{old_len};
ghost use Rattle.spec_states.specs.Shown.{shown_of};
ghost use Rattle.spec_states.specs.State.{inputs};
ghost use Rattle.gl_held.specs.Levels.{BeginsWith};
ghost use Rattle.gl_graph.specs.Held.{deltas_of, contents as held_contents, room_of as held_room};
ghost use Rattle.gl_graph.specs.Holds.{hold_of};
ghost use Rattle.gl_graph.specs.Lens.{measured, OnLen};
ghost use Rattle.gl_graph.specs.Spots.{spotted, OnSpot};
ghost use Rattle.gl_graph.specs.Causes.{CanPump, cause_of};
ghost use Rattle.gl_graph.specs.Nodes.{own_of, StandsFor, OnInput, AreAmong, IsPlaced, AreSettled, shown_by};
ghost use Rattle.gl_graph.specs.Graph.{IsLimited};
ghost use Rattle.gl_graph.specs.Room.{IsNoMore};
ghost use Rattle.gl_graph.specs.Undos.{contents, before, room_of, room_back, CanRetreat};
ghost use Rattle.spec_states.specs.Wave.{command as made_by, pump as pumped_by};
ghost use Rattle.gl_graph.specs.Spread.{CanTurn, CanTakeBack, HasLevel, CanTake, CanFollow, IsStep, IsSourceStep, HasDropped, turned_by, IsOwnStep, IsOtherStep, HasKept, IsStopped, IsSourceStopped, IsOwnStopped, IsOtherStopped};
ghost use Rattle.gl_graph.specs.declared.graph.Refused.TheVariants as Refused;
ghost use Rattle.gl_graph.specs.Faults.{IsRefusalByEdit, IsRefusalBy};

use crate::cause::{Cause, subject};
use crate::derived::{Derived, DerivedUndo};
use crate::graph::Refused;
use crate::held::Held;
use crate::hold::Hold;
use crate::len::Len;
use crate::members::{is_told, member_spot, regroup};
use crate::node::Node;
use crate::over::{advance, change};
use crate::rollback::{Rollback, delta_for};
use crate::seen::shown_len;
use crate::source::edit_source;
use crate::spot::Spot;
use crate::turned::Turned;
use gl_composite::{Composite, CompositeUndo};
use gl_held::{HeldUndo, Proxy, PumpFault};
use gl_kernels::{Delta, Deltas, KernelFault};
use gl_plan::{Command, Items, Shelf, Steps};
use gl_source::{EditFault, SourceList, SourceUndo};
use std::alloc::{AllocError, Global};
use std::sync::ledger::Ledger;

/// What a list keeps: a source its elements, a list over one input the number of that and what its kind keeps of it, a
/// composite the lists that it depends on and what it keeps of its members, a list that can be held the number of its input
/// and what it keeps while it is held, a proxy the number of its input, its copy and its queue.
#[derive(Drop)]
pub enum Keeps {
    Source(SourceList),
    Over {
        input: u32,
        derived: Derived,
    },
    Composite {
        needed: Items<u32>,
        composite: Composite,
    },
    Held {
        input: u32,
        held: Held,
    },
    Proxy {
        input: u32,
        proxy: Proxy,
    },
}

/// What takes a list back to where it stood before a change. A list that can be held, and isn't, follows unchanged.
#[derive(Drop)]
pub enum KeepsUndo {
    Source(SourceUndo),
    Over(DerivedUndo),
    Composite(CompositeUndo),
    Held(HeldUndo),
    Pumped(HeldUndo),
    Unchanged,
}

impl Keeps {
    /// How many elements the list shows, or the list that shows as many.
    pub fn len(&self) -> Len
        ensures measured { (shows : ℕ → List Tree) → StandsFor self.now shows
            → measured result shows ≡ length (shown_of (own_of self.now) shows) }
        ensures on { OnLen (Contains (inputs (own_of self.now))) result }
    {
        match self {
            Keeps::Source(source) => Len::Is(source.len()),
            Keeps::Over { input: _, derived } => Len::Is(derived.len()),
            Keeps::Composite {
                needed: _,
                composite,
            } => Len::Is(composite.len()),
            Keeps::Held { input, held } => match held.held_len() {
                Some(len) => Len::Is(len),
                None => Len::As(*input),
            },
            Keeps::Proxy { input: _, proxy } => Len::Is(proxy.len()),
        }
    }

    /// Where the element stands that is shown at a position: in the list itself, or in one that it depends on. It is `None`,
    /// or nowhere in another list, exactly where the position isn't below the length.
    pub fn find(&self, position: usize) -> Option<Spot<'_>>
        ensures spotted { (shows : ℕ → List Tree) → StandsFor self.now shows
            → spotted result shows ≡ slice_get (shown_of (own_of self.now) shows) position }
        ensures on { (shows : ℕ → List Tree) → AreAmong self.now → StandsFor self.now shows
            → OnSpot (Contains (inputs (own_of self.now))) result }
    {
        match self {
            Keeps::Source(source) => match source.get(position) {
                Some(value) => Some(Spot::Own(value)),
                None => None,
            },
            Keeps::Over { input, derived } => derived.find(*input, position),
            Keeps::Composite {
                needed: _,
                composite,
            } => member_spot(composite, position),
            Keeps::Held { input, held } => held.find(*input, position),
            Keeps::Proxy { input: _, proxy } => match proxy.get(position) {
                Some(value) => Some(Spot::Own(value)),
                None => None,
            },
        }
    }

    /// Whether the list is held.
    pub fn hold(&self) -> Hold
        ensures { result ≡ hold_of (own_of self.now) }
    {
        match self {
            Keeps::Held { input: _, held } => held.hold(),
            Keeps::Proxy { input: _, proxy } => Hold::Queued(proxy.queued()),
            _ => Hold::Free,
        }
    }

    /// Turns the list of this number in a wave, where the lists before it were turned and this is told of them.
    pub(crate) fn turn<L: Ledger>(
        &mut self,
        alloc: Global,
        list: u32,
        prefix: &[Node],
        positions: &[u32],
        cause: &Cause<'_>,
        rollback: &Option<Rollback>,
        deltas: &Deltas,
        steps: &mut Steps<L>,
    ) -> Result<Turned, Refused>
        requires settled { AreSettled prefix.now positions.now }
        requires later { OnInput (IsPlaced prefix.now positions.now) self.old }
        requires among { AreAmong self.old }
        requires can { CanTurn rollback.now (shown_by prefix.now positions.now) (cause_of cause.now)
            deltas.now list self.old }
        ensures ok { IfOk result
            (IsStep rollback.now (shown_by prefix.now positions.now) (cause_of cause.now) deltas.now list self.old self.new) }
        ensures err { OnErr result (contents self.new ≡ contents self.old) }
        ensures stopped { (limit : ℕ) → IsLimited limit self.old → IfErr result
            (IsStopped limit rollback.now (shown_by prefix.now positions.now) (cause_of cause.now) deltas.now list (own_of self.old)) }
        ensures room { OnErr result (IsNoMore (room_of self.old) (room_of self.new)) }
    {
        if let Some(delta) = delta_for(list, rollback) {
            return self.take_back(list, delta);
        }
        if list != subject(cause) {
            return self.follow(list, prefix, positions, deltas, steps);
        }
        match rollback {
            Some(_) => Ok(self.drop_level()),
            None => self.begin(alloc, list, prefix, positions, cause, steps),
        }
    }

    // The source of a rollback takes its delta.
    fn take_back(&mut self, list: u32, delta: &Delta) -> Result<Turned, Refused>
        requires { CanTakeBack delta.now.pieces self.old }
        ensures ok { (shows : ℕ → List Tree)
            → IfOk result (IsSourceStep shows delta.now.pieces list self.old self.new) }
        ensures err { OnErr result (contents self.new ≡ contents self.old) }
        ensures stopped { (limit : ℕ) (shows : ℕ → List Tree) → IsLimited limit self.old
            → IfErr result (IsSourceStopped limit shows delta.now.pieces list (own_of self.old)) }
        ensures room { OnErr result (IsNoMore (room_of self.old) (room_of self.new)) }
    {
        match self {
            Keeps::Source(source) => {
                let len = delta.new_len();
                if len as u64 > source.limit() {
                    return Err(Refused::TooLong {
                        list,
                        len: len as u128,
                    });
                }
                let told = delta.copy()?;
                let undo = source.apply(delta)?;
                Ok(Turned::Told(told, KeepsUndo::Source(undo)))
            }
            _ => unreachable!(),
        }
    }

    // The list that is rolled back drops its innermost level.
    fn drop_level(&mut self) -> Turned
        requires { HasLevel self.old }
        ensures { HasDropped self.old self.new result }
    {
        match self {
            Keeps::Held {
                input: _,
                held: Held::Transaction(transaction),
            } => Turned::Silent(KeepsUndo::Held(transaction.drop_level())),
            _ => unreachable!(),
        }
    }

    // The list that a cause is about takes it.
    fn begin<L: Ledger>(
        &mut self,
        alloc: Global,
        list: u32,
        prefix: &[Node],
        positions: &[u32],
        cause: &Cause<'_>,
        steps: &mut Steps<L>,
    ) -> Result<Turned, Refused>
        requires settled { AreSettled prefix.now positions.now }
        requires later { OnInput (IsPlaced prefix.now positions.now) self.old }
        requires among { AreAmong self.old }
        requires can { CanTake (shown_by prefix.now positions.now) (cause_of cause.now) self.old }
        ensures ok { IfOk result
            (IsOwnStep (shown_by prefix.now positions.now) (cause_of cause.now) list self.old self.new) }
        ensures err { OnErr result (contents self.new ≡ contents self.old) }
        ensures stopped { (limit : ℕ) → IsLimited limit self.old → IfErr result
            (IsOwnStopped limit (shown_by prefix.now positions.now) (cause_of cause.now) list (own_of self.old)) }
        ensures room { OnErr result (IsNoMore (room_of self.old) (room_of self.new)) }
    {
        match cause {
            Cause::Command(command) => self.take(alloc, list, prefix, positions, command, steps),
            Cause::Pump(_) => self.pump(),
        }
    }

    // A proxy takes the first delta of its queue.
    fn pump(&mut self) -> Result<Turned, Refused>
        requires { CanPump (own_of self.old) }
        ensures ok { (shows : ℕ → List Tree) (list number : ℕ)
            → IfOk result (IsOwnStep shows (pumped_by number) list self.old self.new) }
        ensures err { OnErr result (contents self.new ≡ contents self.old) }
        ensures stopped { IfErr result (λ why. why ≡ Refused.Memory) }
        ensures room { OnErr result (IsNoMore (room_of self.old) (room_of self.new)) }
    {
        match self {
            Keeps::Proxy { input: _, proxy } => match proxy.pump() {
                Ok((out, undo)) => Ok(Turned::Told(out, KeepsUndo::Pumped(undo))),
                Err(PumpFault::Memory) => Err(Refused::Memory),
                Err(PumpFault::Nothing) => unreachable!(),
            },
            _ => unreachable!(),
        }
    }

    // The list that a command is about takes it.
    fn take<L: Ledger>(
        &mut self,
        alloc: Global,
        list: u32,
        prefix: &[Node],
        positions: &[u32],
        command: &Command,
        steps: &mut Steps<L>,
    ) -> Result<Turned, Refused>
        requires settled { AreSettled prefix.now positions.now }
        requires later { OnInput (IsPlaced prefix.now positions.now) self.old }
        requires among { AreAmong self.old }
        requires can { CanTake (shown_by prefix.now positions.now) (made_by command.now) self.old }
        ensures ok { IfOk result
            (IsOwnStep (shown_by prefix.now positions.now) (made_by command.now) list self.old self.new) }
        ensures err { OnErr result (contents self.new ≡ contents self.old) }
        ensures stopped { (limit : ℕ) → IsLimited limit self.old → IfErr result
            (IsOwnStopped limit (shown_by prefix.now positions.now) (made_by command.now) list (own_of self.old)) }
        ensures room { OnErr result (IsNoMore (room_of self.old) (room_of self.new)) }
    {
        match self {
            Keeps::Source(source) => match edit_source(source, alloc, command) {
                Ok((out, undo)) => Ok(Turned::Told(out, KeepsUndo::Source(undo))),
                Err(fault) => Err(refusal_of(list, fault)),
            },
            Keeps::Over { input, derived } => {
                let (out, undo) = change(
                    derived, alloc, command, prefix, positions, *input, steps,
                )?;
                Ok(Turned::Told(out, KeepsUndo::Over(undo)))
            }
            Keeps::Composite {
                needed: _,
                composite,
            } => match regroup(composite, list, prefix, positions, command) {
                Ok((out, undo)) => Ok(Turned::Told(out, KeepsUndo::Composite(undo))),
                Err(why) => Err(why),
            },
            Keeps::Held { input, held } => {
                let len = shown_len(prefix, positions, *input);
                match held.take(command, len) {
                    Ok((told, undo)) => Ok(turned(told, undo)),
                    Err(why) => Err(why),
                }
            }
            _ => unreachable!(),
        }
    }

    // Any other list follows its inputs, or keeps what they tell; a proxy stays.
    fn follow<L: Ledger>(
        &mut self,
        list: u32,
        prefix: &[Node],
        positions: &[u32],
        deltas: &Deltas,
        steps: &mut Steps<L>,
    ) -> Result<Turned, Refused>
        requires settled { AreSettled prefix.now positions.now }
        requires later { OnInput (IsPlaced prefix.now positions.now) self.old }
        requires among { AreAmong self.old }
        requires within { OnInput (λ i. i < length deltas.now) self.old }
        requires can { CanFollow (shown_by prefix.now positions.now) deltas.now self.old }
        ensures ok { IfOk result
            (IsOtherStep (shown_by prefix.now positions.now) deltas.now list self.old self.new) }
        ensures err { OnErr result (contents self.new ≡ contents self.old) }
        ensures stopped { (limit : ℕ) → IsLimited limit self.old → IfErr result
            (IsOtherStopped limit (shown_by prefix.now positions.now) deltas.now list (own_of self.old)) }
        ensures room { OnErr result (IsNoMore (room_of self.old) (room_of self.new)) }
    {
        match self {
            Keeps::Source(_) => Ok(Turned::Stays),
            Keeps::Over { input, derived } => match deltas.get(*input) {
                None => Ok(Turned::Stays),
                Some(d) => match advance(derived, prefix, positions, *input, d, steps) {
                    Ok((out, undo)) => Ok(Turned::Told(out, KeepsUndo::Over(undo))),
                    Err(fault) => Err(refusal_by(list, fault)),
                },
            },
            Keeps::Composite { needed, composite } => {
                if !is_told(needed, deltas) {
                    return Ok(Turned::Stays);
                }
                match composite.advance(deltas) {
                    Ok((out, undo)) => Ok(Turned::Told(out, KeepsUndo::Composite(undo))),
                    Err(fault) => Err(refusal_by(list, fault)),
                }
            }
            Keeps::Held { input, held } => match deltas.get(*input) {
                None => Ok(Turned::Stays),
                Some(d) => Ok(keep(held, d)?),
            },
            Keeps::Proxy { .. } => Ok(Turned::Stays),
        }
    }

    /// Goes back to where the list stood before its last change, whose undo this is. It takes no memory.
    pub fn retreat(&mut self, undo: KeepsUndo)
        requires { CanRetreat undo self.old }
        ensures back { contents self.new ≡ before undo self.old }
        ensures room { IsNoMore (room_back undo self.old) (room_of self.new) }
    {
        match undo {
            KeepsUndo::Source(undo) => match self {
                Keeps::Source(source) => source.retreat(undo),
                _ => unreachable!(),
            },
            KeepsUndo::Over(undo) => match self {
                Keeps::Over { input: _, derived } => derived.retreat(undo),
                _ => unreachable!(),
            },
            KeepsUndo::Composite(undo) => match self {
                Keeps::Composite {
                    needed: _,
                    composite,
                } => composite.retreat(undo),
                _ => unreachable!(),
            },
            KeepsUndo::Held(undo) => match self {
                Keeps::Held { input: _, held } => held.retreat(undo),
                _ => unreachable!(),
            },
            KeepsUndo::Pumped(undo) => match self {
                Keeps::Proxy { input: _, proxy } => proxy.retreat(undo),
                _ => unreachable!(),
            },
            KeepsUndo::Unchanged => {}
        }
    }
}

// A list that can be held has taken a command, which tells this.
fn turned(told: Option<Delta>, undo: HeldUndo) -> Turned
    ensures { result ≡ turned_by told undo }
{
    match told {
        None => Turned::Silent(KeepsUndo::Held(undo)),
        Some(d) => Turned::Told(d, KeepsUndo::Held(undo)),
    }
}

// A list that can be held is told a delta of its input: while it is held it keeps that, else it tells it.
fn keep(held: &mut Held, d: &Delta) -> Result<Turned, AllocError>
    requires { BeginsWith (old_len d.now.pieces) (deltas_of held.old) }
    ensures ok { IfOk result (HasKept d.now held.old held.new) }
    ensures err { OnErr result (held_contents held.new ≡ held_contents held.old) }
    ensures room { OnErr result (IsNoMore (held_room held.old) (held_room held.new)) }
{
    if held.is_held() {
        let undo = held.compose(d)?;
        return Ok(Turned::Silent(KeepsUndo::Held(undo)));
    }
    Ok(Turned::Told(d.copy()?, KeepsUndo::Unchanged))
}

/// Why a list that follows stops the command.
pub(crate) fn refusal_by(list: u32, fault: KernelFault) -> Refused
    ensures { IsRefusalBy list fault result }
{
    match fault {
        KernelFault::TooLong { len } => Refused::TooLong { list, len },
        KernelFault::Memory => Refused::Memory,
    }
}

// Why the command is refused.
fn refusal_of(list: u32, fault: EditFault) -> Refused
    ensures { IsRefusalByEdit list fault result }
{
    match fault {
        EditFault::OutOfRange { index, len } => Refused::OutOfRange { index, len },
        EditFault::TooLong { len } => Refused::TooLong { list, len },
        EditFault::Memory => Refused::Memory,
    }
}
