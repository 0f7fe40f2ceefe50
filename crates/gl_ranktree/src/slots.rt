// The whole of the nodes: the tree under its root, and the vacant slots beside it.
ghost use Rattle.std.specs.Prelude.{◌≡◌, ◌≢◌, ◌<◌, ℕ, List, vec_len, vec_capacity};
ghost use Rattle.gl_ranktree.specs.Tree.{Tree, tree_size, absent};
ghost use Rattle.gl_ranktree.specs.Edits.{CanInsert, SomeCanInsert, SomeWithPlace};
ghost use Rattle.gl_ranktree.specs.Ranked.{Ranks, Claims, Hangs, CanPutIn, SomeCanPutIn, PutsIn, SomeWithEntry, TakesOut, SetsIn};

use crate::edit::{insert, remove, set_own};
use crate::find::slot_at;
use crate::node::{ABSENT, Node, put, read, set_parent};
use crate::summary::Summary;

// Where an entry was put: its slot, the root of the tree, and the first vacant slot.
#[derive(Clone, Copy)]
pub(crate) struct Placed {
    pub(crate) slot: u32,
    pub(crate) root: u32,
    pub(crate) vacant: u32,
}

// Takes a vacant slot, or makes one in the room that there is, and returns it and the next vacant one.
fn claim<S: Summary>(nodes: &mut Vec<Node<S>>, vacant: u32, own: S) -> (u32, u32)
    requires room { vacant ≡ absent → vec_len nodes.old < vec_capacity nodes.old }
    requires few { vacant ≡ absent → vec_len nodes.old < absent }
    requires known { vacant ≢ absent → vacant < vec_len nodes.old }
    ensures claims { Claims S.sums nodes.old.items nodes.new.items vacant result.0 result.1 own }
    ensures capacity { vec_capacity nodes.new ≡ vec_capacity nodes.old }
{
    let node = Node {
        parent: ABSENT,
        left: ABSENT,
        right: ABSENT,
        size: 1,
        height: 1,
        own,
        sum: own,
    };
    if vacant == ABSENT {
        let slot = nodes.len() as u32;
        nodes.push_reserved(node);
        return (slot, ABSENT);
    }
    let next = read(nodes.as_slice(), vacant).left;
    nodes[vacant as usize] = node;
    (vacant, next)
}

// Puts the node in `slot` at a place of the tree, and returns the new root, which has no parent.
fn hang<S: Summary>(nodes: &mut [Node<S>], root: u32, position: usize, slot: u32) -> u32
    requires { SomeCanInsert S.sums nodes.old root position slot }
    ensures { (t : Tree _)
        → CanInsert S.sums nodes.old root position slot t
        → Hangs S.sums nodes.old nodes.new result position slot t }
{
    let top = insert(nodes, root, position, slot);
    set_parent(nodes, top, ABSENT);
    top
}

// Puts an entry at a place, in the room that there is.
pub(crate) fn put_in<S: Summary>(
    nodes: &mut Vec<Node<S>>,
    root: u32,
    vacant: u32,
    position: usize,
    own: S,
) -> Placed
    requires { SomeCanPutIn S.sums nodes.old.items root vacant position (vec_capacity nodes.old) }
    ensures puts { (t : Tree _) (free : List ℕ)
        → CanPutIn S.sums nodes.old.items root vacant position (vec_capacity nodes.old) t free
        → PutsIn S.sums nodes.old.items nodes.new.items result.slot result.root result.vacant position own t }
    ensures capacity { vec_capacity nodes.new ≡ vec_capacity nodes.old }
{
    let (slot, vacant) = claim(nodes, vacant, own);
    let root = hang(nodes.as_mut_slice(), root, position, slot);
    Placed { slot, root, vacant }
}

// Takes the entry at a place out, and returns its slot, now the first vacant one, and the new root.
pub(crate) fn take_out<S: Summary>(
    nodes: &mut [Node<S>],
    root: u32,
    vacant: u32,
    position: usize,
) -> (u32, u32)
    requires { SomeWithEntry S.sums nodes.old root vacant position }
    ensures { (t : Tree _) (free : List ℕ)
        → Ranks S.sums nodes.old root vacant t free
        → position < tree_size t
        → TakesOut S.sums nodes.old nodes.new result.0 result.1 position t }
{
    let slot = slot_at(nodes, root, position);
    let top = remove(nodes, root, position);
    set_parent(nodes, top, ABSENT);
    let gone = read(nodes, slot);
    put(
        nodes,
        slot,
        Node {
            left: vacant,
            ..gone
        },
    );
    (slot, top)
}

// Gives the entry at a place another summary of its own.
pub(crate) fn set_in<S: Summary>(nodes: &mut [Node<S>], root: u32, position: usize, own: S)
    requires { SomeWithPlace S.sums nodes.old root position }
    ensures { (t : Tree _) (vacant : ℕ) (free : List ℕ)
        → Ranks S.sums nodes.old root vacant t free
        → position < tree_size t
        → SetsIn S.sums nodes.old nodes.new root vacant position own t }
{
    set_own(nodes, root, position, own);
    set_parent(nodes, root, ABSENT);
}
