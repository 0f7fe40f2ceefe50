//! How the lists of a plan open.

ghost use Rattle.std.specs.Prelude.{◌≡◌, ◌≤◌, ◌++◌, ◌∷◌, [], length, IfErr, OnOk};
ghost use Rattle.spec_states.specs.State.{opening_of};
ghost use Rattle.spec_states.specs.Shown.{shown_of};
ghost use Rattle.gl_graph.specs.Nodes.{shown_by, AreSettled, IsPlaced};
ghost use Rattle.gl_graph.specs.Opening.{OnInputs};
ghost use Rattle.gl_graph.specs.Build.{IsOneMore, IsFault};

use crate::fault::BuildFault;
use crate::node::Node;
use crate::open::opened;
use gl_plan::{ListKind, Steps};
use gl_source::OpenFault;
use std::alloc::{AllocError, Global};
use std::sync::ledger::Ledger;

/// One list more after those that are open.
pub(crate) fn open_next<L: Ledger>(
    alloc: Global,
    nodes: &mut Vec<Node>,
    positions: &[u32],
    list: u32,
    kind: &ListKind,
    limit: u64,
    steps: &mut Steps<L>,
) -> Result<(), BuildFault>
    requires settled { AreSettled nodes.old.items positions.now }
    requires inputs { OnInputs (IsPlaced nodes.old.items positions.now) kind.now }
    requires few { limit ≤ 2147483647 }
    ensures more { OnOk result
        (IsOneMore limit positions.now list
        (opening_of (shown_by nodes.old.items positions.now) kind.now) nodes.old.items
        nodes.new.items) }
    ensures fault { IfErr result
        (IsFault limit list
        (length (shown_of (opening_of (shown_by nodes.old.items positions.now) kind.now)
        (shown_by nodes.old.items positions.now)))) }
{
    match opened(alloc, kind, nodes.as_slice(), positions, limit, steps) {
        Ok(keeps) => {
            push(nodes, Node { list, keeps })?;
            Ok(())
        }
        Err(OpenFault::TooLong { len }) => Err(BuildFault::TooLong { list, len }),
        Err(OpenFault::Memory) => Err(BuildFault::Memory),
    }
}

fn push(nodes: &mut Vec<Node>, node: Node) -> Result<(), AllocError>
    ensures { OnOk result (nodes.new.items ≡ nodes.old.items ++ node ∷ []) }
{
    nodes.push(node)?;
    Ok(())
}
