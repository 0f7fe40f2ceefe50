//! The commands of a section, taken one after another.

ghost use Rattle.std.specs.Prelude.{◌≡◌, ◌++◌, ◌∷◌, [], length, IfOk, OnOk, OnErr};
ghost use Rattle.std.specs.List.{AllByRecursion};
ghost use Rattle.spec_states.specs.Shown.{table_of};
ghost use Rattle.spec_states.specs.Step.{step};
ghost use Rattle.spec_states.specs.Laws.{IsSound};
ghost use Rattle.spec_runs.specs.Kinds.{IsFor};
ghost use Rattle.spec_runs.specs.Section.{state_after, replies_to, section_deltas};
ghost use Rattle.gl_graph.specs.Graph.{state_of};
ghost use Rattle.gl_graph.specs.Waves.{contents};
ghost use Rattle.gl_world.specs.Back.{Leads, GoesOn};
ghost use Rattle.gl_world.specs.Section.{AreDeltas, Reach, GoOn};

use crate::back::retreat_all;
use crate::command::take;
use gl_delta::Deltas;
use gl_graph::{Graph, GraphUndo};
use gl_plan::{Command, Reply};
use gl_value::{Items, Memory, Steps};
use std::alloc::Global;
use std::sync::ledger::Ledger;

/// What commands came to: their replies, the delta of each list, none where it is the identity, and the way back.
#[derive(Drop)]
pub(crate) struct Taken {
    pub(crate) replies: Items<Reply>,
    pub(crate) deltas: Deltas,
    pub(crate) undos: Vec<GraphUndo>,
}

/// Takes the commands, all of them or, where there is no memory, none.
pub(crate) fn take_all<L: Ledger>(
    alloc: Global,
    graph: &mut Graph,
    lists: u32,
    commands: &[Command],
    steps: &mut Steps<L>,
) -> Result<Taken, Memory>
    requires lists { lists ≡ length (state_of graph.old) }
    requires sound { IsSound (state_of graph.old) }
    requires suits { AllByRecursion (λ c. IsFor c (state_of graph.old)) commands.now }
    ensures limit { graph.new.limit ≡ graph.old.limit }
    ensures state { OnOk result
        (state_of graph.new ≡ state_after graph.old.limit (state_of graph.old) commands.now) }
    ensures replies { IfOk result (λ taken. taken.replies
        ≡ replies_to graph.old.limit (state_of graph.old) commands.now) }
    ensures told { IfOk result (λ taken. AreDeltas (table_of (state_of graph.old))
        (section_deltas graph.old.limit (state_of graph.old) commands.now) taken.deltas) }
    ensures back { IfOk result (λ taken. Leads taken.undos.items graph.old graph.new) }
    ensures err { OnErr result (contents graph.new ≡ contents graph.old) }
{
    let mut taken = Taken {
        replies: Items::new(alloc),
        deltas: Deltas::make(alloc, lists)?,
        undos: Vec::new(alloc),
    };
    for command in commands {
        match take_next(alloc, graph, &mut taken, lists, command, steps) {
            Ok(()) => {}
            Err(memory) => {
                retreat_all(graph, taken.undos);
                return Err(memory);
            }
        }
    }
    Ok(taken)
}

// Takes one command more. After an `Err` only the undos are of use.
fn take_next<L: Ledger>(
    alloc: Global,
    graph: &mut Graph,
    taken: &mut Taken,
    lists: u32,
    command: &Command,
    steps: &mut Steps<L>,
) -> Result<(), Memory>
    requires lists { lists ≡ length (state_of graph.old) }
    requires sound { IsSound (state_of graph.old) }
    requires suits { IsFor command.now (state_of graph.old) }
    requires deltas { Reach taken.old.deltas (state_of graph.old) }
    ensures limit { graph.new.limit ≡ graph.old.limit }
    ensures back { GoesOn taken.old.undos.items graph.old taken.new.undos.items graph.new }
    ensures state { OnOk result
        (state_of graph.new ≡ (step graph.old.limit (state_of graph.old) command.now).state) }
    ensures replies { OnOk result (taken.new.replies
        ≡ taken.old.replies ++ (step graph.old.limit (state_of graph.old) command.now).reply ∷ []) }
    ensures told { OnOk result (GoOn graph.old.limit (state_of graph.old) command.now
        taken.old.deltas taken.new.deltas) }
{
    let reply = take(
        alloc,
        graph,
        &mut taken.deltas,
        &mut taken.undos,
        lists,
        command,
        steps,
    )?;
    taken.replies.add(reply)?;
    Ok(())
}
