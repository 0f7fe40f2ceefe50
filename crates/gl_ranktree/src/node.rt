// The nodes of a tree in one slice, and the one step by which they are linked.
ghost use Rattle.std.specs.Prelude.{◌≡◌, ◌<◌, length};
ghost use Rattle.gl_ranktree.specs.Tree.{Tree, fork, DifferByAtMost};
ghost use Rattle.gl_ranktree.specs.Nodes.{node_at, Puts, Reparents, Sides, SomeSides, Becomes, IsJoint};

use crate::summary::Summary;

/// The slot number that stands for no node.
pub(crate) const ABSENT: u32 = u32::MAX;

/// A node: its neighbours in the tree, and what stands in and below it.
#[derive(Clone, Copy)]
pub(crate) struct Node<S> {
    pub(crate) parent: u32,
    pub(crate) left: u32,
    pub(crate) right: u32,
    // How many nodes stand in its subtree, and on the longest way down.
    pub(crate) size: u32,
    pub(crate) height: u32,
    // The node's own summary, and that of its subtree.
    pub(crate) own: S,
    pub(crate) sum: S,
}

// The node in a slot, or a blank one where there is none.
pub(crate) fn read<S: Summary>(nodes: &[Node<S>], slot: u32) -> Node<S>
    ensures { result ≡ node_at S.sums nodes.now slot }
{
    let index = slot as usize;
    if index < nodes.len() {
        nodes[index]
    } else {
        Node {
            parent: ABSENT,
            left: ABSENT,
            right: ABSENT,
            size: 0,
            height: 0,
            own: S::zero(),
            sum: S::zero(),
        }
    }
}

// Writes a node over that in its slot.
pub(crate) fn put<S: Summary>(nodes: &mut [Node<S>], slot: u32, node: Node<S>)
    requires { slot < length nodes.old }
    ensures { Puts S.sums nodes.old nodes.new slot node }
{
    nodes[slot as usize] = node;
}

// Writes the parent of a node, if it is there.
pub(crate) fn set_parent<S: Summary>(nodes: &mut [Node<S>], slot: u32, parent: u32)
    ensures { Reparents S.sums nodes.old nodes.new slot parent }
{
    let index = slot as usize;
    if index < nodes.len() {
        let child = nodes[index];
        nodes[index] = Node { parent, ..child };
    }
}

// The node over two trees, with its own summary as it stands in the slot.
fn joint<S: Summary>(nodes: &[Node<S>], left: u32, slot: u32, right: u32) -> Node<S>
    requires { SomeSides S.sums nodes.now left slot right 2 }
    ensures { (l r : Tree _)
        → Sides S.sums nodes.now left slot right l r
        → IsJoint S.sums nodes.now slot l r result }
{
    let below_left = read(nodes, left);
    let below_right = read(nodes, right);
    let own = read(nodes, slot).own;
    Node {
        parent: ABSENT,
        left,
        right,
        size: below_left.size + below_right.size + 1,
        height: below_left.height.max(below_right.height) + 1,
        own,
        sum: below_left.sum.plus(own).plus(below_right.sum),
    }
}

// Makes the node in `slot` the root over two trees whose heights differ by at most one.
pub(crate) fn make<S: Summary>(nodes: &mut [Node<S>], left: u32, slot: u32, right: u32)
    requires { SomeSides S.sums nodes.old left slot right 1 }
    ensures { (l r : Tree _)
        → Sides S.sums nodes.old left slot right l r
        → DifferByAtMost 1 l r
        → Becomes S.sums nodes.old nodes.new slot (fork l slot (node_at S.sums nodes.old slot).own r) }
{
    let above = joint(nodes, left, slot, right);
    set_parent(nodes, left, slot);
    set_parent(nodes, right, slot);
    put(nodes, slot, above);
}
