//! What proxies are due: the deltas of their inputs, copied at the end of an entry and then queued.

ghost use Rattle.std.specs.Prelude.{◌≡◌, ◌<◌, ◌≤◌, ℕ, length, slice_get, slice_index_or, Some, None, IfOk, OnOk};
ghost use Rattle.std.specs.Option.{option_copied};
ghost use Rattle.spec_states.specs.ListDecl.{ListDecl};
ghost use Rattle.spec_states.specs.State.{own_at};
ghost use Rattle.gl_graph.specs.Graph.{state_of};
ghost use Rattle.gl_graph.specs.Queues.{IsProxy};
ghost use Rattle.gl_world.specs.Back.{IsLike};
ghost use Rattle.gl_world.specs.Due.{MayQueue, due_from, due_delta, AreDue, IsDueAt, HaveQueueRoom, KeepsQueueRoom, CanQueue, IsQueuedAt, AreQueued};

use gl_delta::{Delta, Deltas};
use gl_graph::Graph;
use gl_plan::{ListDecl, ListKind};
use gl_value::Memory;
use std::alloc::Global;

/// What each list is due: a proxy a copy of its input's delta, unless that is the identity. It makes room in the queues of
/// those proxies.
pub(crate) fn due_of(
    alloc: Global,
    graph: &mut Graph,
    lists: &[ListDecl],
    deltas: &Deltas,
) -> Result<Deltas, Memory>
    requires few { length lists.now ≤ 256 }
    requires may { (list : ℕ) (d : ListDecl) → slice_get lists.now list ≡ Some d
        → MayQueue (length deltas.now) d.kind (own_at (state_of graph.old) list) }
    ensures like { IsLike graph.old graph.new }
    ensures due { IfOk result (AreDue lists.now deltas.now) }
    ensures room { IfOk result (λ due. HaveQueueRoom due graph.new) }
{
    let mut due = Deltas::make(alloc, lists.len() as u32)?;
    for (list, decl) in lists.iter().enumerate() {
        add_due(graph, list as u32, &decl.kind, deltas, &mut due)?;
    }
    Ok(due)
}

// Adds what the list of a number is due, by its kind.
fn add_due(
    graph: &mut Graph,
    list: u32,
    kind: &ListKind,
    deltas: &Deltas,
    due: &mut Deltas,
) -> Result<(), Memory>
    requires within { list < length due.old }
    requires may { MayQueue (length deltas.now) kind.now (own_at (state_of graph.old) list) }
    requires none { slice_index_or due.old list None ≡ None }
    ensures like { IsLike graph.old graph.new }
    ensures due { OnOk result (IsDueAt list (due_from deltas.now kind.now) due.old due.new) }
    ensures room { OnOk result (KeepsQueueRoom due.old graph.old due.new graph.new) }
{
    match kind {
        ListKind::Proxy { input } => match deltas.get(*input) {
            Some(delta) => copy_due(graph, list, delta, due),
            None => Ok(()),
        },
        _ => Ok(()),
    }
}

// Adds a copy of a delta, unless it is the identity.
fn copy_due(graph: &mut Graph, list: u32, delta: &Delta, due: &mut Deltas) -> Result<(), Memory>
    requires within { list < length due.old }
    requires proxy { IsProxy (own_at (state_of graph.old) list) }
    requires none { slice_index_or due.old list None ≡ None }
    ensures like { IsLike graph.old graph.new }
    ensures due { OnOk result (IsDueAt list (due_delta (Some delta.now)) due.old due.new) }
    ensures room { OnOk result (KeepsQueueRoom due.old graph.old due.new graph.new) }
{
    if delta.changes() == 0 {
        return Ok(());
    }
    graph.reserve_queue(list)?;
    due.put(list, delta.copy()?);
    Ok(())
}

/// Queues for each of so many lists what it is due, if it is due anything. It takes no memory.
pub(crate) fn queue_all(graph: &mut Graph, lists: u32, mut due: Deltas)
    requires long { length due ≡ lists }
    requires can { CanQueue due graph.old }
    ensures state { AreQueued due (state_of graph.old) (state_of graph.new) }
    ensures limit { graph.new.limit ≡ graph.old.limit }
{
    for list in 0..lists {
        queue_one(graph, &mut due, list);
    }
}

// Queues what one list is due.
#[tactic(auto, using(crate::proofs::Queues::queued_none))]
fn queue_one(graph: &mut Graph, due: &mut Deltas, list: u32)
    requires within { list < length due.old }
    requires can { CanQueue due.old graph.old }
    ensures { IsQueuedAt list due.old graph.old due.new graph.new }
{
    match due.take(list) {
        None => {}
        Some(delta) => graph.queue(list, delta),
    }
}
