//! The end of an entry: it is written down and told, and the proxies queue what they are due.

ghost use Rattle.std.specs.Prelude.{◌≡◌, ◌<◌, ◌≤◌, ◌+◌, ◌++◌, ◌∷◌, [], ℕ, length, slice_get, Some, IfOk, OnOk, OnErr};
ghost use Rattle.std.specs.Vec.{vec_capacity};
ghost use Rattle.spec_states.specs.ListDecl.{ListDecl};
ghost use Rattle.spec_states.specs.State.{own_at};
ghost use Rattle.spec_states.specs.Wave.{Deltas as ListDeltas};
ghost use Rattle.spec_runs.specs.Entry.{queued};
ghost use Rattle.spec_runs.specs.Telling.{tellings};
ghost use Rattle.gl_graph.specs.Graph.{Kept, state_of};
ghost use Rattle.gl_graph.specs.Waves.{contents};
ghost use Rattle.gl_tell.specs.Handed.{AreHanded};
ghost use Rattle.gl_tell.specs.Heard.{AreHeard, HasHeard};
ghost use Rattle.gl_world.specs.Back.{IsLike, Leads};
ghost use Rattle.gl_world.specs.Due.{MayQueue, AreDue, HaveQueueRoom, CanQueue, AreQueued};
ghost use Rattle.gl_world.specs.Entry.{IsEntry, outcome_of};

use crate::back::retreat_all;
use crate::due::{due_of, queue_all};
use crate::log::Log;
use crate::section::Taken;
use gl_delta::Deltas;
use gl_graph::Graph;
use gl_outside::Actor;
use gl_plan::{Plan, Reply};
use gl_tell::Teller;
use gl_value::{Items, Memory};
use std::alloc::Global;

// What is handed out at the end of an entry: to listeners the deltas of their lists, to proxies those of their inputs.
#[derive(Drop)]
struct Handed {
    heard: Deltas,
    due: Deltas,
}

/// Ends an actor's entry, in which this was taken; its place among the entries is answered. All that takes memory comes
/// first. Where there is none, what was taken is taken back.
pub(crate) fn enter(
    alloc: Global,
    plan: &Plan,
    graph: &mut Graph,
    log: &mut Log,
    teller: &mut Teller,
    actor: Actor,
    taken: Taken,
) -> Result<u64, Memory>
    requires entry { IsEntry plan.now log.old.order.items actor graph.old taken }
    requires listeners { teller.old.plan ≡ plan.now }
    requires order_room { length log.old.order.items < vec_capacity log.old.order }
    requires replies_room { length log.old.replies.items < vec_capacity log.old.replies }
    requires told_room { length teller.old.told + length teller.old.plan.listeners
        ≤ teller.old.room }
    ensures place { IfOk result (λ place. place ≡ length log.old.order.items) }
    ensures order { OnOk result (log.new.order.items ≡ log.old.order.items ++ actor ∷ []) }
    ensures replies { OnOk result
        (log.new.replies.items ≡ log.old.replies.items ++ taken.replies ∷ []) }
    ensures told { OnOk result (teller.new.told ≡ teller.old.told
        ++ tellings plan.now (length log.old.order.items)
        (outcome_of plan.now log.old.order.items actor).deltas) }
    ensures state { OnOk result (state_of graph.new
        ≡ queued (outcome_of plan.now log.old.order.items actor).deltas (state_of graph.old)) }
    ensures limit { OnOk result (graph.new.limit ≡ graph.old.limit) }
    ensures listeners { teller.new.plan ≡ teller.old.plan }
    ensures order_stays { OnErr result (log.new.order.items ≡ log.old.order.items) }
    ensures replies_stay { OnErr result (log.new.replies.items ≡ log.old.replies.items) }
    ensures told_stays { OnErr result (teller.new.told ≡ teller.old.told) }
    ensures back { OnErr result
        ((start : Kept) → Leads taken.undos.items start graph.old
        → contents graph.new ≡ contents start) }
{
    let Taken {
        replies,
        deltas,
        undos,
    } = taken;
    match hand_out(alloc, plan, graph, teller, deltas) {
        Ok(handed) => Ok(write_down(plan, graph, log, teller, actor, replies, handed)),
        Err(memory) => {
            retreat_all(graph, undos);
            Err(memory)
        }
    }
}

// Hands out the deltas of an entry. It takes memory for all copies, and for what is to be queued.
fn hand_out(
    alloc: Global,
    plan: &Plan,
    graph: &mut Graph,
    teller: &Teller,
    deltas: Deltas,
) -> Result<Handed, Memory>
    requires listeners { teller.now.plan ≡ plan.now }
    requires long { length deltas ≡ length plan.now.lists }
    requires may { (list : ℕ) (d : ListDecl) → slice_get plan.now.lists list ≡ Some d
        → MayQueue (length deltas) d.kind (own_at (state_of graph.old) list) }
    ensures like { IsLike graph.old graph.new }
    ensures heard { IfOk result (λ handed. AreHanded plan.now deltas handed.heard) }
    ensures due { IfOk result (λ handed. AreDue plan.now.lists deltas handed.due) }
    ensures room { IfOk result (λ handed. HaveQueueRoom handed.due graph.new) }
{
    let due = due_of(alloc, graph, plan.lists(), &deltas)?;
    let heard = teller.by_listener(deltas)?;
    Ok(Handed { heard, due })
}

// Writes an entry down, tells the listeners, and queues what proxies are due. It takes no memory.
fn write_down(
    plan: &Plan,
    graph: &mut Graph,
    log: &mut Log,
    teller: &mut Teller,
    actor: Actor,
    replies: Items<Reply>,
    handed: Handed,
) -> u64
    requires long { length handed.due ≡ length plan.now.lists }
    requires can { CanQueue handed.due graph.old }
    requires heard { HasHeard teller.old.plan handed.heard }
    requires order_room { length log.old.order.items < vec_capacity log.old.order }
    requires replies_room { length log.old.replies.items < vec_capacity log.old.replies }
    requires told_room { length teller.old.told + length teller.old.plan.listeners
        ≤ teller.old.room }
    ensures place { result ≡ length log.old.order.items }
    ensures order { log.new.order.items ≡ log.old.order.items ++ actor ∷ [] }
    ensures replies { log.new.replies.items ≡ log.old.replies.items ++ replies ∷ [] }
    ensures told { (lists : ListDeltas) → AreHeard teller.old.plan lists handed.heard
        → teller.new.told
        ≡ teller.old.told ++ tellings teller.old.plan (length log.old.order.items) lists }
    ensures listeners { teller.new.plan ≡ teller.old.plan }
    ensures state { AreQueued handed.due (state_of graph.old) (state_of graph.new) }
    ensures limit { graph.new.limit ≡ graph.old.limit }
{
    let place = log.order.len() as u64;
    let Handed { heard, due } = handed;
    log.add(actor, replies);
    teller.tell(place, heard);
    queue_all(graph, plan.lists().len() as u32, due);
    place
}
