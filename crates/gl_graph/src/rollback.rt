//! What a rollback takes back.

ghost use Rattle.std.specs.Prelude.{◌≡◌, ◌<◌, length, IfOk, IfErr};
ghost use Rattle.std.specs.Option.{option_copied};
ghost use Rattle.spec_states.specs.State.{own_at};
ghost use Rattle.spec_states.specs.Plan.{origin as about};
ghost use Rattle.spec_states.specs.Wave.{command as made_by, subject};
ghost use Rattle.gl_graph.specs.Nodes.{own_of, state_of};
ghost use Rattle.gl_graph.specs.Graph.{IsGraph};
ghost use Rattle.gl_graph.specs.Commands.{Suits, CanRollBack};
ghost use Rattle.gl_graph.specs.Causes.{SuitsCause, cause_of};
ghost use Rattle.gl_graph.specs.Rollbacks.{IsRollback, IsRollbackOf, IsRefusedOf, IsDeltaFor, start_at};
ghost use Rattle.gl_graph.specs.Waves.{IsStopping};

use crate::cause::{Cause, subject};
use crate::graph::Refused;
use crate::held::{Held, close_refusal};
use crate::keeps::Keeps;
use crate::node::Node;
use crate::seen::node_of;
use gl_kernels::Delta;
use gl_plan::Command;

/// What a rollback begins with: the source below the transaction list, and the delta that takes it back.
#[derive(Drop)]
pub(crate) struct Rollback {
    pub(crate) source: u32,
    pub(crate) delta: Delta,
}

/// What a cause takes back, if it is a rollback. It takes memory by the changes of the innermost level.
pub(crate) fn rollback_of(
    nodes: &[Node],
    positions: &[u32],
    limit: u64,
    cause: &Cause<'_>,
) -> Result<Option<Rollback>, Refused>
    requires graph { IsGraph limit nodes.now positions.now }
    requires within { subject (cause_of cause.now) < length (state_of nodes.now positions.now) }
    requires suits { SuitsCause (cause_of cause.now)
        (own_at (state_of nodes.now positions.now) (subject (cause_of cause.now))) }
    ensures ok { IfOk result (IsRollback (state_of nodes.now positions.now) (cause_of cause.now)) }
    ensures refused { IfErr result
        (IsStopping limit (state_of nodes.now positions.now) (cause_of cause.now)) }
{
    match cause {
        Cause::Command(command) => of_command(nodes, positions, limit, command),
        Cause::Pump(_) => Ok(None),
    }
}

// The same of a command.
fn of_command(
    nodes: &[Node],
    positions: &[u32],
    limit: u64,
    command: &Command,
) -> Result<Option<Rollback>, Refused>
    requires graph { IsGraph limit nodes.now positions.now }
    requires within { about command.now < length (state_of nodes.now positions.now) }
    requires suits { Suits command.now
        (own_at (state_of nodes.now positions.now) (about command.now)) }
    ensures ok { IfOk result
        (IsRollback (state_of nodes.now positions.now) (made_by command.now)) }
    ensures refused { IfErr result
        (IsStopping limit (state_of nodes.now positions.now) (made_by command.now)) }
{
    match command {
        Command::Rollback { list } => match taken_back(&node_of(nodes, positions, *list).keeps) {
            Ok(rollback) => Ok(Some(rollback)),
            Err(why) => Err(why),
        },
        _ => Ok(None),
    }
}

/// Where a wave begins.
pub(crate) fn start_of(cause: &Cause<'_>, rollback: &Option<Rollback>) -> u32
    ensures { result ≡ start_at rollback.now (cause_of cause.now) }
{
    match rollback {
        Some(rollback) => rollback.source,
        None => subject(cause),
    }
}

/// The delta that takes a list back, if it is the source of a rollback.
pub(crate) fn delta_for(list: u32, rollback: &Option<Rollback>) -> Option<&Delta>
    ensures { IsDeltaFor list rollback.now (option_copied result) }
{
    match rollback {
        Some(rollback) => {
            if list == rollback.source {
                Some(&rollback.delta)
            } else {
                None
            }
        }
        None => None,
    }
}

// What takes back the source of a transaction list.
fn taken_back(keeps: &Keeps) -> Result<Rollback, Refused>
    requires { CanRollBack (own_of keeps.now) }
    ensures ok { IfOk result (IsRollbackOf (own_of keeps.now)) }
    ensures refused { IfErr result (IsRefusedOf (own_of keeps.now)) }
{
    match keeps {
        Keeps::Held {
            input,
            held: Held::Transaction(transaction),
        } => match transaction.taken_back() {
            Ok(delta) => Ok(Rollback {
                source: *input,
                delta,
            }),
            Err(fault) => Err(close_refusal(fault)),
        },
        _ => unreachable!(),
    }
}
