//! A list seen through the lists before it.

ghost use Rattle.std.specs.Prelude.{◌≡◌, ◌≤◌, ◌∷◌, [], length, slice_get, slice_index, Some};
ghost use Rattle.std.specs.Option.{option_copied};
ghost use Rattle.gl_kernels.specs.CollectionStands.{children_at};
ghost use Rattle.gl_graph.specs.declared.node.Node.{Node};
ghost use Rattle.spec_states.specs.Shown.{shown_of};
ghost use Rattle.gl_graph.specs.Nodes.{own_of, shown_by, OnInput, StandsFor, AreSettled, IsPlaced};

use crate::keeps::Keeps;
use crate::len::Len;
use crate::node::Node;
use crate::spot::Spot;
use gl_kernels::Kids;
use gl_plan::{Shelf, Value};
use std::marker::Model;

/// The list of a number, seen through the nodes at the beginning of a graph. Reading an element takes time logarithmic in
/// the length of each list that it comes by.
#[derive(Drop)]
pub struct Seen<'a> {
    pub(crate) prefix: &'a [Node],
    pub(crate) positions: &'a [u32],
    pub(crate) list: u32,
}

impl<'a> Model for Seen<'a> {
    ghost use Rattle.std.specs.Coded.{codes};
    ghost use Rattle.spec_states.specs.Code.{tree_code};
    ghost use Rattle.spec_states.specs.MatcherCode.{matcher_code};
    ghost use Rattle.spec_states.specs.FuncCode.{func_code};
    ghost use Rattle.gl_graph.specs.Nodes.{AreSettled, IsPlaced};
    ghost use Rattle.gl_graph.specs.Kept.{Kept};

    ghost Value = { Kept };

    ghost coded = { Prim.hlevel (codes, tree_code, matcher_code, func_code) };

    ghost view = { λ s. record { prefix = s.prefix.now; positions = s.positions.now; list = s.list } };

    ghost invariant = { λ s. AreSettled s.prefix.now s.positions.now × IsPlaced s.prefix.now s.positions.now s.list };
}

impl<'a> Shelf for Seen<'a> {
    ghost items = { λ s. shown_by s.prefix s.positions s.list };

    fn len(&self) -> usize {
        shown_len(self.prefix, self.positions, self.list)
    }

    fn get(&self, position: usize) -> Option<&Value> {
        element(self.prefix, self.positions, self.list, position)
    }
}

/// A list seen through the nodes at the front.
#[tactic(auto, using(crate::proofs::Prefixes::placed_few))]
pub(crate) fn see<'a>(prefix: &'a [Node], positions: &'a [u32], list: u32) -> Seen<'a>
    requires settled { AreSettled prefix.now positions.now }
    requires placed { IsPlaced prefix.now positions.now list }
    ensures seen { result ≡ record { prefix = prefix.now; positions = positions.now; list = list } }
    ensures few { length (shown_by prefix.now positions.now list) ≤ 2147483647 }
{
    Seen {
        prefix,
        positions,
        list,
    }
}

/// The node of a list.
pub(crate) fn node_of<'a>(prefix: &'a [Node], positions: &[u32], list: u32) -> &'a Node
    requires { IsPlaced prefix.now positions.now list }
    ensures node { slice_get prefix.now (slice_index positions.now list) ≡ Some result.now }
    ensures list { result.now.list ≡ list }
{
    &prefix[positions[list as usize] as usize]
}

/// How many elements a list shows.
pub(crate) fn shown_len(prefix: &[Node], positions: &[u32], list: u32) -> usize
    requires settled { AreSettled prefix.now positions.now }
    requires placed { IsPlaced prefix.now positions.now list }
    ensures { result ≡ length (shown_by prefix.now positions.now list) }
{
    match node_of(prefix, positions, list).keeps.len() {
        Len::Is(len) => len,
        Len::As(other) => shown_len(prefix, positions, other),
    }
}

/// How many elements a list shows that keeps this, after the nodes at the front.
pub(crate) fn len_of(prefix: &[Node], positions: &[u32], keeps: &Keeps) -> usize
    requires settled { AreSettled prefix.now positions.now }
    requires later { OnInput (IsPlaced prefix.now positions.now) keeps.now }
    ensures { StandsFor keeps.now (shown_by prefix.now positions.now)
        → result ≡ length (shown_of (own_of keeps.now) (shown_by prefix.now positions.now)) }
{
    match keeps.len() {
        Len::Is(len) => len,
        Len::As(other) => shown_len(prefix, positions, other),
    }
}

// The child of a value at an index, if there is one.
fn child<'a>(model: &Kids, parent: &'a Value, index: usize) -> Option<&'a Value>
    ensures { option_copied result
        ≡ slice_get (children_at model.now (parent.now ∷ []) 0) index }
{
    model.of(parent).get(index)
}

/// The element that a list shows at a place, or `None` exactly where the place isn't below the length.
pub(crate) fn element<'a>(
    prefix: &'a [Node],
    positions: &[u32],
    list: u32,
    position: usize,
) -> Option<&'a Value>
    requires settled { AreSettled prefix.now positions.now }
    requires placed { IsPlaced prefix.now positions.now list }
    ensures { option_copied result ≡ slice_get (shown_by prefix.now positions.now list) position }
{
    match node_of(prefix, positions, list).keeps.find(position) {
        None => None,
        Some(Spot::Own(value)) => Some(value),
        Some(Spot::Of(other, at)) => element(prefix, positions, other, at),
        Some(Spot::Child(other, at, model, index)) => {
            match element(prefix, positions, other, at) {
                None => None,
                Some(parent) => child(model, parent, index),
            }
        }
    }
}
