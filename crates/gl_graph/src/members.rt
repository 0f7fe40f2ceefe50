//! What a composite does with its members.

ghost use Rattle.std.specs.Prelude.{◌≡◌, ◌<◌, ◌≤◌, ◌↔◌, ℕ, List, Some, None, length, slice_get, slice_index_or, IfOk, IfErr, OnOk, OnErr, IsTrue};
ghost use Rattle.std.specs.List.{All, Contains};
ghost use Rattle.spec_states.specs.Tree.{Tree};
ghost use Rattle.spec_states.specs.Composite.{composite_view};
ghost use Rattle.spec_states.specs.Command.TheVariants as c;
ghost use Rattle.gl_composite.specs.Stands.{StandsFor, contents, IsUndo};
ghost use Rattle.gl_graph.specs.Nodes.{IsPlaced, AreSettled, shown_by};
ghost use Rattle.gl_graph.specs.Spots.{spotted, OnSpot};
ghost use Rattle.gl_graph.specs.Members.{IsAnyTold, AreMembers, IsRegrouped, IsRegroupStopped};

use crate::graph::Refused;
use crate::keeps::refusal_by;
use crate::node::Node;
use crate::seen::see;
use crate::spot::Spot;
use gl_composite::{Composite, CompositeUndo, DetachFault};
use gl_kernels::{Delta, Deltas};
use gl_plan::{Command, Items};

/// Where the element stands that a composite shows at a position.
pub(crate) fn member_spot(composite: &Composite, position: usize) -> Option<Spot<'_>>
    ensures spotted { (shows : ℕ → List Tree) → StandsFor composite.now shows
        → spotted result shows
        ≡ slice_get (composite_view composite.now.lists shows) position }
    ensures on { (shows : ℕ → List Tree) → StandsFor composite.now shows
        → OnSpot (Contains composite.now.lists) result }
{
    match composite.locate(position) {
        None => None,
        Some((index, at)) => match composite.member(index) {
            None => None,
            Some(list) => Some(Spot::Of(list, at)),
        },
    }
}

/// Whether something is told of one of these lists.
pub(crate) fn is_told(lists: &Items<u32>, deltas: &Deltas) -> bool
    requires { All (λ list. list < length deltas.now) lists.now }
    ensures { IsTrue result ↔ IsAnyTold deltas.now lists.now }
{
    lists
        .as_slice()
        .iter()
        .any(|list| deltas.get(*list).is_some())
}

/// Attaches or detaches a member, as a command says that is about the composite of this number.
pub(crate) fn regroup(
    composite: &mut Composite,
    list: u32,
    prefix: &[Node],
    positions: &[u32],
    command: &Command,
) -> Result<(Delta, CompositeUndo), Refused>
    requires settled { AreSettled prefix.now positions.now }
    requires placed { AreMembers (IsPlaced prefix.now positions.now) command.now
        composite.old.lists }
    requires stands { StandsFor composite.old (shown_by prefix.now positions.now) }
    ensures ok { IfOk result (λ done. IsRegrouped (shown_by prefix.now positions.now) command.now
        composite.old composite.new done) }
    ensures err { OnErr result (contents composite.new ≡ contents composite.old) }
    ensures stopped { IfErr result (IsRegroupStopped (shown_by prefix.now positions.now)
        command.now list composite.old) }
    ensures room { composite.old.room ≤ composite.new.room }
    ensures list_room { composite.old.list_room ≤ composite.new.list_room }
{
    match command {
        Command::Attach { list: _, member } => attach(composite, list, prefix, positions, *member),
        Command::Detach { list: _, index } => { detach(composite, prefix, positions, list, *index) }
        _ => unreachable!(),
    }
}

// Attaches a list at the end.
fn attach(
    composite: &mut Composite,
    list: u32,
    prefix: &[Node],
    positions: &[u32],
    member: u32,
) -> Result<(Delta, CompositeUndo), Refused>
    requires settled { AreSettled prefix.now positions.now }
    requires placed { IsPlaced prefix.now positions.now member }
    requires stands { StandsFor composite.old (shown_by prefix.now positions.now) }
    ensures ok { (about : ℕ) → IfOk result (λ done. IsRegrouped
        (shown_by prefix.now positions.now) (c.Attach about member) composite.old composite.new
        done) }
    ensures err { OnErr result (contents composite.new ≡ contents composite.old) }
    ensures stopped { (about : ℕ) → IfErr result (IsRegroupStopped
        (shown_by prefix.now positions.now) (c.Attach about member) list composite.old) }
    ensures room { composite.old.room ≤ composite.new.room }
    ensures list_room { composite.old.list_room ≤ composite.new.list_room }
{
    let shelf = see(prefix, positions, member);
    match composite.attach(member, &shelf) {
        Ok(done) => Ok(done),
        Err(fault) => Err(refusal_by(list, fault)),
    }
}

// Detaches the member at an index, if there is one.
fn detach(
    composite: &mut Composite,
    prefix: &[Node],
    positions: &[u32],
    list: u32,
    index: u32,
) -> Result<(Delta, CompositeUndo), Refused>
    requires settled { AreSettled prefix.now positions.now }
    requires placed { All (IsPlaced prefix.now positions.now) composite.old.lists }
    requires stands { StandsFor composite.old (shown_by prefix.now positions.now) }
    ensures ok { (about : ℕ) → IfOk result (λ done. IsRegrouped
        (shown_by prefix.now positions.now) (c.Detach about index) composite.old composite.new
        done) }
    ensures err { OnErr result (contents composite.new ≡ contents composite.old) }
    ensures stopped { (about : ℕ) → IfErr result (IsRegroupStopped
        (shown_by prefix.now positions.now) (c.Detach about index) list composite.old) }
    ensures room { composite.old.room ≤ composite.new.room }
    ensures list_room { composite.old.list_room ≤ composite.new.list_room }
{
    match composite.member(index as usize) {
        None => Err(Refused::OutOfRange {
            index: index as u64,
            len: composite.members() as u64,
        }),
        Some(member) => {
            let shelf = see(prefix, positions, member);
            match composite.detach(index as u64, &shelf) {
                Ok(done) => Ok(done),
                Err(DetachFault::OutOfRange { index, len }) => {
                    Err(Refused::OutOfRange { index, len })
                }
                Err(DetachFault::Memory) => Err(Refused::Memory),
            }
        }
    }
}
