//! How a wave spreads through the nodes of a graph.

ghost use Rattle.std.specs.Prelude.{◌≡◌, ◌≤◌, ◌<◌, ◌++◌, ◌∷◌, [], ℕ, suc, List, length, take, slice_get, slice_index, Some};
ghost use Rattle.std.specs.Prelude.{IfOk, IfErr, OnOk, OnErr};
ghost use Rattle.std.specs.Vec.{vec_capacity};
ghost use Rattle.gl_graph.specs.declared.node.Node.{Node};
ghost use Rattle.gl_graph.specs.Nodes.{state_of};
ghost use Rattle.gl_graph.specs.Causes.{cause_of};
ghost use Rattle.gl_graph.specs.Rollbacks.{start_at};
ghost use Rattle.gl_graph.specs.Waves.{IsStopping};
ghost use Rattle.gl_graph.specs.Spread.{CanTurnAt, IsTriedAt, StandAt, shown_len_at, IsPut, IsOver, IsSpread, IsSpreading, HaveBack};

use crate::cause::Cause;
use crate::graph::Refused;
use crate::keeps::KeepsUndo;
use crate::node::Node;
use crate::rollback::{Rollback, start_of};
use crate::seen::len_of;
use crate::turned::Turned;
use gl_kernels::{Delta, Deltas};
use gl_plan::Steps;
use std::alloc::Global;
use std::sync::ledger::Ledger;

/// Takes a wave from place to place: to the list where it begins, and then to each list after that of whose
/// inputs something is told. After an `Err` the undos lead back.
pub(crate) fn spread_all<L: Ledger>(
    alloc: Global,
    nodes: &mut Vec<Node>,
    positions: &[u32],
    limit: u64,
    cause: &Cause<'_>,
    rollback: &Option<Rollback>,
    deltas: &mut Deltas,
    made: &mut Vec<(u32, KeepsUndo)>,
    steps: &mut Steps<L>,
) -> Result<(), Refused>
    requires within { start_at rollback.now (cause_of cause.now) < length positions.now }
    requires low { slice_index positions.now (start_at rollback.now (cause_of cause.now))
        ≤ length nodes.old.items }
    requires begins { IsSpread limit nodes.old.items positions.now (cause_of cause.now) rollback.now
        (slice_index positions.now (start_at rollback.now (cause_of cause.now))) nodes.old.items deltas.old made.old.items }
    ensures spread { OnOk result
        (IsSpread limit nodes.old.items positions.now (cause_of cause.now) rollback.now
        (length nodes.old.items)
        nodes.new.items deltas.new made.new.items) }
    ensures refused { IfErr result
        (IsStopping limit (state_of nodes.old.items positions.now) (cause_of cause.now)) }
    ensures back { OnErr result (HaveBack nodes.old.items nodes.new.items made.new.items) }
{
    let start = start_of(cause, rollback);
    'positions: for position in positions[start as usize] as usize..nodes.len() {
        spread_at(
            alloc, nodes, positions, limit, cause, rollback, position, deltas, made, steps,
        )?;
    }
    Ok(())
}

// Takes it one place further.
fn spread_at<L: Ledger>(
    alloc: Global,
    nodes: &mut Vec<Node>,
    positions: &[u32],
    limit: u64,
    cause: &Cause<'_>,
    rollback: &Option<Rollback>,
    position: usize,
    deltas: &mut Deltas,
    made: &mut Vec<(u32, KeepsUndo)>,
    steps: &mut Steps<L>,
) -> Result<(), Refused>
    requires within { position < length nodes.old.items }
    requires spreading { IsSpreading limit positions.now (cause_of cause.now) rollback.now position
        nodes.old.items deltas.old made.old.items }
    ensures spread { (old : List Node)
        → IsSpread limit old positions.now (cause_of cause.now) rollback.now position nodes.old.items deltas.old made.old.items
        → OnOk result (IsSpread limit old positions.now (cause_of cause.now) rollback.now (suc position)
        nodes.new.items deltas.new made.new.items) }
    ensures refused { (old : List Node)
        → IsSpread limit old positions.now (cause_of cause.now) rollback.now position nodes.old.items deltas.old made.old.items
        → IfErr result (IsStopping limit (state_of old positions.now) (cause_of cause.now)) }
    ensures back { (old : List Node)
        → IsSpread limit old positions.now (cause_of cause.now) rollback.now position nodes.old.items deltas.old made.old.items
        → OnErr result (HaveBack old nodes.new.items made.new.items) }
{
    if made.reserve(1).is_err() {
        return Err(Refused::Memory);
    }
    match turn_at(
        alloc, nodes, positions, cause, rollback, position, deltas, steps,
    ) {
        Err(why) => Err(why),
        Ok(Turned::Stays) => Ok(()),
        Ok(Turned::Silent(undo)) => {
            made.push_reserved((position as u32, undo));
            Ok(())
        }
        Ok(Turned::Told(delta, undo)) => {
            made.push_reserved((position as u32, undo));
            further(nodes, positions, position, limit, delta, deltas)
        }
    }
}

// The list at a place has been turned: this is told of it, and it is to be within the limit.
fn further(
    nodes: &Vec<Node>,
    positions: &[u32],
    position: usize,
    limit: u64,
    delta: Delta,
    deltas: &mut Deltas,
) -> Result<(), Refused>
    requires within { position < length nodes.now.items }
    requires stand { StandAt positions.now position nodes.now.items }
    requires listed { (node : Node) → slice_get nodes.now.items position ≡ Some node
        → node.list < length deltas.old }
    ensures put { (node : Node) → slice_get nodes.now.items position ≡ Some node
        → IsPut node.list delta deltas.old deltas.new }
    ensures short { OnOk result (shown_len_at positions.now position nodes.now.items ≤ limit) }
    ensures over { (node : Node) → slice_get nodes.now.items position ≡ Some node
        → IfErr result
        (IsOver limit node.list (shown_len_at positions.now position nodes.now.items)) }
{
    tell(deltas, nodes[position].list, delta);
    short(nodes, positions, position, limit)
}

// Turns the list at a place.
fn turn_at<L: Ledger>(
    alloc: Global,
    nodes: &mut Vec<Node>,
    positions: &[u32],
    cause: &Cause<'_>,
    rollback: &Option<Rollback>,
    position: usize,
    deltas: &Deltas,
    steps: &mut Steps<L>,
) -> Result<Turned, Refused>
    requires { CanTurnAt rollback.now positions.now (cause_of cause.now) deltas.now position
        nodes.old.items }
    ensures { IsTriedAt rollback.now positions.now (cause_of cause.now) deltas.now position nodes.old.items
        nodes.new.items result }
{
    let (prefix, back) = nodes.split_at_mut(position);
    let node = &mut back[0];
    node.keeps.turn(
        alloc, node.list, prefix, positions, cause, rollback, deltas, steps,
    )
}

// Tells a delta of a list, unless it is the identity.
fn tell(deltas: &mut Deltas, list: u32, delta: Delta)
    requires { list < length deltas.old }
    ensures { IsPut list delta deltas.old deltas.new }
{
    if !delta.is_identity() {
        deltas.put(list, delta);
    }
}

// Whether the list at a place is within the limit.
fn short(nodes: &Vec<Node>, positions: &[u32], position: usize, limit: u64) -> Result<(), Refused>
    requires within { position < length nodes.now.items }
    requires stand { StandAt positions.now position nodes.now.items }
    ensures short { OnOk result (shown_len_at positions.now position nodes.now.items ≤ limit) }
    ensures over { (node : Node) → slice_get nodes.now.items position ≡ Some node
        → IfErr result
        (IsOver limit node.list (shown_len_at positions.now position nodes.now.items)) }
{
    let node = &nodes[position];
    let len = len_of(&nodes[..position], positions, &node.keeps);
    if len as u64 > limit {
        return Err(Refused::TooLong {
            list: node.list,
            len: len as u128,
        });
    }
    Ok(())
}
