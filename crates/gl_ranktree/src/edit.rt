// Putting a node into a tree at a place, taking one out, and another own summary for one. Each
// goes down from the root and joins on its way back, so no tree is unbalanced in between.
ghost use Rattle.std.specs.Prelude.{◌<◌, ◌≤◌};
ghost use Rattle.gl_ranktree.specs.Tree.{Tree, tree_size, tree_height};
ghost use Rattle.gl_ranktree.specs.Edits.{Stands, CanInsert, SomeCanInsert, Inserts, SomeFilled, TakesFirst, CanMerge, SomeCanMerge, Merges, SomeWithPlace, Removes, SetsOwn};

use crate::join::join;
use crate::node::{ABSENT, Node, make, put, read};
use crate::summary::Summary;

// Puts the node in `slot` at a place of the tree, and returns the new root.
pub(crate) fn insert<S: Summary>(nodes: &mut [Node<S>], top: u32, position: usize, slot: u32) -> u32
    requires { SomeCanInsert S.sums nodes.old top position slot }
    ensures { (t : Tree _)
        → CanInsert S.sums nodes.old top position slot t
        → Inserts S.sums nodes.old nodes.new result position slot t }
{
    if top == ABSENT {
        make(nodes, ABSENT, slot, ABSENT);
        return slot;
    }
    let here = read(nodes, top);
    let before = read(nodes, here.left).size as usize;
    if position <= before {
        let left = insert(nodes, here.left, position, slot);
        join(nodes, left, top, here.right)
    } else {
        let right = insert(nodes, here.right, position - before - 1, slot);
        join(nodes, here.left, top, right)
    }
}

// Takes the first node off, and returns its slot and the root of the rest.
fn take_first<S: Summary>(nodes: &mut [Node<S>], top: u32) -> (u32, u32)
    requires { SomeFilled S.sums nodes.old top }
    ensures { (t : Tree _)
        → Stands S.sums nodes.old top t
        → 1 ≤ tree_height t
        → TakesFirst S.sums nodes.old nodes.new result.0 result.1 t }
{
    let here = read(nodes, top);
    if here.left == ABSENT {
        return (top, here.right);
    }
    let (first, left) = take_first(nodes, here.left);
    let rest = join(nodes, left, top, here.right);
    (first, rest)
}

// Makes one tree of two, the one to the left of the other, and returns its root.
fn merge<S: Summary>(nodes: &mut [Node<S>], left: u32, right: u32) -> u32
    requires { SomeCanMerge S.sums nodes.old left right }
    ensures { (l r : Tree _)
        → CanMerge S.sums nodes.old left right l r
        → Merges S.sums nodes.old nodes.new result l r }
{
    if right == ABSENT {
        return left;
    }
    let (first, rest) = take_first(nodes, right);
    join(nodes, left, first, rest)
}

// Takes the node at a place out, and returns the new root.
pub(crate) fn remove<S: Summary>(nodes: &mut [Node<S>], top: u32, position: usize) -> u32
    requires { SomeWithPlace S.sums nodes.old top position }
    ensures { (t : Tree _)
        → Stands S.sums nodes.old top t
        → position < tree_size t
        → Removes S.sums nodes.old nodes.new result position t }
{
    let here = read(nodes, top);
    let before = read(nodes, here.left).size as usize;
    if position < before {
        let left = remove(nodes, here.left, position);
        join(nodes, left, top, here.right)
    } else if position > before {
        let right = remove(nodes, here.right, position - before - 1);
        join(nodes, here.left, top, right)
    } else {
        merge(nodes, here.left, here.right)
    }
}

// Gives the node at a place another own summary, and adds up those above it anew.
pub(crate) fn set_own<S: Summary>(nodes: &mut [Node<S>], top: u32, position: usize, own: S)
    requires { SomeWithPlace S.sums nodes.old top position }
    ensures { (t : Tree _)
        → Stands S.sums nodes.old top t
        → position < tree_size t
        → SetsOwn S.sums nodes.old nodes.new top position own t }
{
    let here = read(nodes, top);
    let before = read(nodes, here.left).size as usize;
    if position < before {
        set_own(nodes, here.left, position, own);
        make(nodes, here.left, top, here.right);
    } else if position > before {
        set_own(nodes, here.right, position - before - 1, own);
        make(nodes, here.left, top, here.right);
    } else {
        put(nodes, top, Node { own, ..here });
        make(nodes, here.left, top, here.right);
    }
}
