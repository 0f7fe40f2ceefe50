//! What a list shows, copied.

ghost use Rattle.std.specs.Prelude.{◌≡◌, ◌<◌, ◌+◌, ◌++◌, ◌∷◌, [], length, take, IfOk, OnOk};
ghost use Rattle.spec_states.specs.Shown.{shown};
ghost use Rattle.gl_graph.specs.Graph.{state_of};

use gl_graph::Graph;
use gl_value::{Memory, Value, Values};
use std::alloc::Global;

/// The values that a list shows, from the first to the last. It takes memory for the list, not for what is in it.
pub(crate) fn show(alloc: Global, graph: &Graph, list: u32) -> Result<Values, Memory>
    ensures { IfOk result (λ values. values ≡ shown (state_of graph.now) list) }
{
    let mut values = Values::new(alloc);
    for place in 0..graph.len(list) {
        show_one(graph, list, place, &mut values)?;
    }
    Ok(values)
}

// Adds the value at a place after those before it.
fn show_one(graph: &Graph, list: u32, place: usize, values: &mut Values) -> Result<(), Memory>
    requires within { place < length (shown (state_of graph.now) list) }
    requires before { values.old ≡ take place (shown (state_of graph.now) list) }
    ensures { OnOk result (values.new ≡ take (place + 1) (shown (state_of graph.now) list)) }
{
    match graph.get(list, place) {
        Some(value) => {
            push(values, value.copy()?)?;
            Ok(())
        }
        None => unreachable!(),
    }
}

fn push(values: &mut Values, value: Value) -> Result<(), Memory>
    ensures { OnOk result (values.new ≡ values.old ++ value ∷ []) }
{
    match values.push(value) {
        Ok(()) => Ok(()),
        Err((_, memory)) => Err(memory),
    }
}
