// Finding the node at a place, and the place of a node.
ghost use Rattle.std.specs.Prelude.{◌≡◌, ◌<◌, ℕ, List, length};
ghost use Rattle.gl_ranktree.specs.Tree.{Tree, tree_size};
ghost use Rattle.gl_ranktree.specs.Edits.{Stands, SomeWithPlace};
ghost use Rattle.gl_ranktree.specs.Finds.{IsWithin, SomeWithin, IsEntryAt};

use crate::node::{ABSENT, Node, read};
use crate::summary::Summary;

// The slot of the node at a place.
pub(crate) fn slot_at<S: Summary>(nodes: &[Node<S>], top: u32, position: usize) -> u32
    requires { SomeWithPlace S.sums nodes.now top position }
    ensures { (t : Tree _)
        → Stands S.sums nodes.now top t
        → position < tree_size t
        → IsEntryAt S.sums nodes.now t position result }
{
    let here = read(nodes, top);
    let before = read(nodes, here.left).size as usize;
    if position < before {
        slot_at(nodes, here.left, position)
    } else if position > before {
        slot_at(nodes, here.right, position - before - 1)
    } else {
        top
    }
}

// How many entries stand to the left of the subtree under a node.
pub(crate) fn positions_before<S: Summary>(nodes: &[Node<S>], slot: u32) -> usize
    requires { SomeWithin S.sums nodes.now slot }
    ensures { (t u : Tree _) (before : List (ℕ × _))
        → IsWithin S.sums nodes.now slot t u before
        → result ≡ length before }
{
    let parent = read(nodes, slot).parent;
    if parent == ABSENT {
        return 0;
    }
    let above = read(nodes, parent);
    if above.left == slot {
        return positions_before(nodes, parent);
    }
    let between = read(nodes, above.left).size as usize + 1;
    positions_before(nodes, parent) + between
}
