//! The pump of a proxy.

ghost use Rattle.std.specs.Prelude.{◌≡◌, ◌↔◌, [], Err, IfOk, OnOk, OnErr};
ghost use Rattle.spec_states.specs.State.{own_at};
ghost use Rattle.spec_states.specs.Shown.{table_of};
ghost use Rattle.spec_states.specs.Wave.{pump, wave, wave_deltas};
ghost use Rattle.spec_states.specs.Step.{too_long};
ghost use Rattle.gl_graph.specs.Graph.{state_of};
ghost use Rattle.gl_graph.specs.Queues.{IsProxy, queue_of};
ghost use Rattle.gl_graph.specs.Waves.{contents};
ghost use Rattle.gl_world.specs.Back.{Leads};
ghost use Rattle.gl_world.specs.Section.{AreDeltas};

use crate::back::keep;
use crate::section::Taken;
use gl_graph::{Graph, PumpFault, Wave};
use gl_value::{Items, Steps};
use std::alloc::Global;
use std::sync::ledger::Ledger;

/// Takes the first delta that a proxy is yet to take, or nothing where there is none or no memory for it.
pub(crate) fn take_pump<L: Ledger>(
    alloc: Global,
    graph: &mut Graph,
    list: u32,
    steps: &mut Steps<L>,
) -> Result<Taken, PumpFault>
    requires proxy { IsProxy (own_at (state_of graph.old) list) }
    requires short { too_long graph.old.limit (wave (state_of graph.old) (pump list)) ≡ None }
    ensures limit { graph.new.limit ≡ graph.old.limit }
    ensures state { OnOk result (state_of graph.new ≡ wave (state_of graph.old) (pump list)) }
    ensures replies { IfOk result (λ taken. taken.replies ≡ []) }
    ensures told { IfOk result (λ taken. AreDeltas (table_of (state_of graph.old))
        (wave_deltas (state_of graph.old) (pump list)) taken.deltas) }
    ensures back { IfOk result (λ taken. Leads taken.undos.items graph.old graph.new) }
    ensures nothing { (result ≡ Err PumpFault.Nothing)
        ↔ (queue_of (own_at (state_of graph.old) list) ≡ []) }
    ensures err { OnErr result (contents graph.new ≡ contents graph.old) }
{
    graph.law();
    match graph.pump(list, steps) {
        Ok(Wave { deltas, undo }) => {
            let mut undos = Vec::new(alloc);
            match keep(graph, &mut undos, undo) {
                Ok(()) => Ok(Taken {
                    replies: Items::new(alloc),
                    deltas,
                    undos,
                }),
                Err(_memory) => Err(PumpFault::Memory),
            }
        }
        Err(fault) => Err(fault),
    }
}
