//! The way back of a section.

ghost use Rattle.std.specs.Prelude.{◌≡◌, ◌++◌, ◌∷◌, [], OnOk, OnErr};
ghost use Rattle.gl_graph.specs.Graph.{Kept};
ghost use Rattle.gl_graph.specs.Waves.{contents, before, IsAsRoomy, CanRetreat};
ghost use Rattle.gl_world.specs.Back.{Leads, CanGoBack};

use gl_graph::{Graph, GraphUndo};
use gl_value::Memory;

/// Takes back the changes whose undos these are, the last one first. It takes no memory.
pub(crate) fn retreat_all(graph: &mut Graph, mut undos: Vec<GraphUndo>)
    requires { CanGoBack undos.items graph.old }
    ensures { (start : Kept) → Leads undos.items start graph.old
        → contents graph.new ≡ contents start }
{
    'undos: while let Some(undo) = undos.pop() {
        graph.retreat(undo);
    }
}

/// Keeps the undo of the graph's last change after others; where there is no memory for it, the change is taken back.
pub(crate) fn keep(
    graph: &mut Graph,
    undos: &mut Vec<GraphUndo>,
    undo: GraphUndo,
) -> Result<(), Memory>
    requires { CanRetreat undo graph.old }
    ensures kept { OnOk result (undos.new.items ≡ undos.old.items ++ undo ∷ []) }
    ensures same { OnOk result (graph.new ≡ graph.old) }
    ensures others { OnErr result (undos.new.items ≡ undos.old.items) }
    ensures back { OnErr result (contents graph.new ≡ before undo graph.old) }
    ensures room { OnErr result (IsAsRoomy undo graph.old graph.new) }
{
    match undos.push(undo) {
        Ok(()) => Ok(()),
        Err(failed) => {
            graph.retreat(failed.value);
            Err(Memory)
        }
    }
}
