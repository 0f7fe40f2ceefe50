//! One command of a section.

ghost use Rattle.std.specs.Prelude.{◌≡◌, ◌<◌, length, IfOk, OnOk};
ghost use Rattle.spec_states.specs.Step.{step};
ghost use Rattle.spec_states.specs.Laws.{IsSound};
ghost use Rattle.spec_runs.specs.Kinds.{IsFor, IsChange};
ghost use Rattle.gl_graph.specs.Graph.{state_of};
ghost use Rattle.gl_world.specs.Back.{GoesOn};
ghost use Rattle.gl_world.specs.Refusals.{reply_of};
ghost use Rattle.gl_world.specs.Section.{Reach, GoOn};

use crate::back::keep;
use crate::joined::join_all;
use crate::show::show;
use gl_delta::Deltas;
use gl_graph::{Graph, GraphUndo, Refused, Wave};
use gl_plan::{Command, Reply};
use gl_value::{Memory, Steps};
use std::alloc::Global;
use std::sync::ledger::Ledger;

/// Takes a command of a section, and answers it. Its deltas are composed with those of the commands before it, and its
/// undo stands after theirs, also after an `Err`.
pub(crate) fn take<L: Ledger>(
    alloc: Global,
    graph: &mut Graph,
    deltas: &mut Deltas,
    undos: &mut Vec<GraphUndo>,
    lists: u32,
    command: &Command,
    steps: &mut Steps<L>,
) -> Result<Reply, Memory>
    requires lists { lists ≡ length (state_of graph.old) }
    requires sound { IsSound (state_of graph.old) }
    requires suits { IsFor command.now (state_of graph.old) }
    requires deltas { Reach deltas.old (state_of graph.old) }
    ensures limit { graph.new.limit ≡ graph.old.limit }
    ensures back { GoesOn undos.old.items graph.old undos.new.items graph.new }
    ensures state { OnOk result
        (state_of graph.new ≡ (step graph.old.limit (state_of graph.old) command.now).state) }
    ensures reply { IfOk result
        (λ reply. reply ≡ (step graph.old.limit (state_of graph.old) command.now).reply) }
    ensures told { OnOk result
        (GoOn graph.old.limit (state_of graph.old) command.now deltas.old deltas.new) }
{
    match command {
        Command::Show { list } => {
            graph.law();
            Ok(Reply::Shown(show(alloc, graph, *list)?))
        }
        _ => change(graph, deltas, undos, lists, command, steps),
    }
}

// The same of a command that isn't `show`.
fn change<L: Ledger>(
    graph: &mut Graph,
    deltas: &mut Deltas,
    undos: &mut Vec<GraphUndo>,
    lists: u32,
    command: &Command,
    steps: &mut Steps<L>,
) -> Result<Reply, Memory>
    requires change { IsChange command.now }
    requires lists { lists ≡ length (state_of graph.old) }
    requires sound { IsSound (state_of graph.old) }
    requires suits { IsFor command.now (state_of graph.old) }
    requires deltas { Reach deltas.old (state_of graph.old) }
    ensures limit { graph.new.limit ≡ graph.old.limit }
    ensures back { GoesOn undos.old.items graph.old undos.new.items graph.new }
    ensures state { OnOk result
        (state_of graph.new ≡ (step graph.old.limit (state_of graph.old) command.now).state) }
    ensures reply { IfOk result
        (λ reply. reply ≡ (step graph.old.limit (state_of graph.old) command.now).reply) }
    ensures told { OnOk result
        (GoOn graph.old.limit (state_of graph.old) command.now deltas.old deltas.new) }
{
    graph.law();
    match graph.wave(command, steps) {
        Ok(Wave { deltas: next, undo }) => {
            keep(graph, undos, undo)?;
            join_all(deltas, next, lists)?;
            Ok(Reply::Done)
        }
        Err(refused) => match reply_to(refused) {
            Some(reply) => Ok(reply),
            None => Err(Memory),
        },
    }
}

// The reply to a command that is refused, unless it found no memory.
fn reply_to(refused: Refused) -> Option<Reply>
    ensures { result ≡ reply_of refused }
{
    match refused {
        Refused::OutOfRange { index, len } => Some(Reply::OutOfRange { index, len }),
        Refused::TooLong { list, len } => Some(Reply::TooLong { list, len }),
        Refused::AlreadyFrozen => Some(Reply::AlreadyFrozen),
        Refused::NotFrozen => Some(Reply::NotFrozen),
        Refused::NotOpen => Some(Reply::NotOpen),
        Refused::Memory => None,
    }
}
