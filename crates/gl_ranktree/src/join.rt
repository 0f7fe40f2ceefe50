// Joining two trees and a node between them, with the rotations that keep the tree balanced.
ghost use Rattle.std.specs.Prelude.{◌≡◌, ◌+◌};
ghost use Rattle.gl_ranktree.specs.Tree.{Tree, tree_height};
ghost use Rattle.gl_ranktree.specs.Nodes.{Sides, SomeSides, SomeLeftHigh, SomeRightHigh, Joins};

use crate::node::{Node, make, read};
use crate::summary::Summary;

// Joins two trees whose heights differ by at most two with the node in `slot` between them, and
// returns the root of the whole.
pub(crate) fn join<S: Summary>(nodes: &mut [Node<S>], left: u32, slot: u32, right: u32) -> u32
    requires { SomeSides S.sums nodes.old left slot right 2 }
    ensures { (l r : Tree _)
        → Sides S.sums nodes.old left slot right l r
        → Joins S.sums nodes.old nodes.new result slot l r }
{
    let left_height = read(nodes, left).height;
    let right_height = read(nodes, right).height;
    if left_height > right_height + 1 {
        rotate_right(nodes, left, slot, right)
    } else if right_height > left_height + 1 {
        rotate_left(nodes, left, slot, right)
    } else {
        make(nodes, left, slot, right);
        slot
    }
}

// Joins them where the left tree is two higher: its root or its inner grandchild comes to the top.
fn rotate_right<S: Summary>(nodes: &mut [Node<S>], left: u32, slot: u32, right: u32) -> u32
    requires { SomeLeftHigh S.sums nodes.old left slot right }
    ensures { (l r : Tree _)
        → Sides S.sums nodes.old left slot right l r
        → tree_height l ≡ tree_height r + 2
        → Joins S.sums nodes.old nodes.new result slot l r }
{
    let top = read(nodes, left);
    let outer = read(nodes, top.left);
    let inner = read(nodes, top.right);
    if outer.height >= inner.height {
        make(nodes, top.right, slot, right);
        make(nodes, top.left, left, slot);
        return left;
    }
    make(nodes, top.left, left, inner.left);
    make(nodes, inner.right, slot, right);
    make(nodes, left, top.right, slot);
    top.right
}

// Joins them where the right tree is two higher.
fn rotate_left<S: Summary>(nodes: &mut [Node<S>], left: u32, slot: u32, right: u32) -> u32
    requires { SomeRightHigh S.sums nodes.old left slot right }
    ensures { (l r : Tree _)
        → Sides S.sums nodes.old left slot right l r
        → tree_height r ≡ tree_height l + 2
        → Joins S.sums nodes.old nodes.new result slot l r }
{
    let top = read(nodes, right);
    let outer = read(nodes, top.right);
    let inner = read(nodes, top.left);
    if outer.height >= inner.height {
        make(nodes, left, slot, top.left);
        make(nodes, slot, right, top.right);
        return right;
    }
    make(nodes, inner.right, right, top.right);
    make(nodes, left, slot, inner.left);
    make(nodes, slot, top.left, right);
    top.left
}
