ghost use Rattle.std.specs.Prelude.{◌≡◌, ◌+◌, ◌-◌, ◌*◌, ◌^◌, ◌<◌, ◌≤◌, ℕ, [], max, length, insert, remove, Contains, IfOk, OnOk, OnErr, Some, IsTrue, slice_get};
ghost use Rattle.gl_ranktree.specs.Ranked.{slots_of};
ghost use Rattle.gl_ranktree.specs.Sought.{IsSought};
ghost use Rattle.gl_ranktree.specs.Tree.{list_sum, with_own};

use crate::descent::Descent;
use crate::find::{positions_before, slot_at};
use crate::measure::Measure;
use crate::node::{ABSENT, Node, read};
use crate::seek::{Sought, seek};
use crate::slots::{put_in, set_in, take_out};
use crate::summary::Summary;
use std::alloc::{AllocError, Global};
use std::marker::Model;

/// A list of summaries, each in a slot of its own, kept as a balanced tree in one vector.
///
/// An entry keeps its slot until it is removed; then its slot is the first that is used again.
#[derive(Drop)]
pub struct RankTree<S: Summary> {
    nodes: Vec<Node<S>>,
    root: u32,
    // The first vacant slot. Each vacant node names the next one as its left child.
    vacant: u32,
}

impl<S: Summary> Model for RankTree<S> {
    ghost use Rattle.std.specs.Prelude.{vec_len, vec_capacity};
    ghost use Rattle.gl_ranktree.specs.Ranked.{Ranked, ranked_code};

    ghost Value = { Ranked S };

    ghost coded = { ranked_code S.code };

    ghost use Rattle.gl_ranktree.specs.Ranked.{entries_under, IsRanked};

    ghost view = { λ t. record {
      entries = entries_under S.sums t.nodes.items t.root;
      slots = vec_len t.nodes;
      room = vec_capacity t.nodes;
    } };

    ghost invariant = { λ t. IsRanked S.sums t.nodes.items t.root t.vacant };
}

impl<S: Summary> RankTree<S> {
    /// An empty tree, which takes no memory until the first reserve or insert.
    pub fn new(alloc: Global) -> Self
        ensures empty { result.entries ≡ [] }
        ensures no_slots { result.slots ≡ 0 }
        ensures no_room { result.room ≡ 0 }
    {
        RankTree {
            nodes: Vec::new(alloc),
            root: ABSENT,
            vacant: ABSENT,
        }
    }

    /// The number of entries.
    pub fn len(&self) -> usize
        ensures value { result ≡ length self.now.entries }
        ensures in_slots { result ≤ self.now.slots }
    {
        read(self.nodes.as_slice(), self.root).size as usize
    }

    /// The number of levels of the tree, which bounds the steps of every call but `reserve`.
    pub fn height(&self) -> usize
        ensures deep { length self.now.entries < 2 ^ result }
        ensures shallow { (digits : ℕ)
            → length self.now.entries < 2 ^ digits
            → result ≤ 2 * digits }
    {
        read(self.nodes.as_slice(), self.root).height as usize
    }

    /// The entry at a place, as its slot and its summary.
    pub fn get(&self, position: usize) -> Option<(u32, S)>
        ensures { result ≡ slice_get self.now.entries position }
    {
        let nodes = self.nodes.as_slice();
        if position < read(nodes, self.root).size as usize {
            let slot = slot_at(nodes, self.root, position);
            Some((slot, read(nodes, slot).own))
        } else {
            None
        }
    }

    /// The place of the entry in a slot.
    pub fn place(&self, slot: u32) -> usize
        requires { Contains (slots_of self.now.entries) slot }
        ensures at { slice_get (slots_of self.now.entries) result ≡ Some slot }
        ensures only { (k : ℕ) → slice_get (slots_of self.now.entries) k ≡ Some slot → k ≡ result }
    {
        let nodes = self.nodes.as_slice();
        let below = read(nodes, read(nodes, slot).left).size as usize;
        positions_before(nodes, slot) + below
    }

    /// The sum of all entries, in constant time. It is right where the type can hold it.
    pub fn sum(&self) -> S
        ensures { IsTrue (S.sums.fits (list_sum S.sums self.now.entries))
            → result ≡ list_sum S.sums self.now.entries }
    {
        read(self.nodes.as_slice(), self.root).sum
    }

    /// The first entry with which the measure of the entries so far passes `k`, in one descent.
    pub fn seek<M: Measure<S>>(&self, by: M, k: usize) -> Sought<S>
        requires { IsTrue (S.sums.fits (list_sum S.sums self.now.entries)) }
        ensures { IsSought S.sums (M.measured by) self.now.entries k result.position result.before
            result.own }
    {
        seek(self.nodes.as_slice(), self.root, by, k)
    }

    /// The way down from the root, with every place left. It has at most as many levels as twice the binary digits of
    /// the length.
    pub fn descend(&self) -> Descent<'_, S>
        ensures slots { result.slots ≡ slots_of self.now.entries }
        ensures first { result.first ≡ 0 }
        ensures end { result.end ≡ length self.now.entries }
        ensures shallow { (digits : ℕ)
            → length self.now.entries < 2 ^ digits
            → result.levels ≤ 2 * digits }
    {
        Descent {
            nodes: self.nodes.as_slice(),
            whole: self.root,
            top: self.root,
            first: 0,
        }
    }

    /// Makes room for `additional` more entries, so that as many inserts need no memory.
    pub fn reserve(&mut self, additional: usize) -> Result<(), AllocError>
        ensures spare { OnOk result (length self.new.entries + additional ≤ self.new.room) }
        ensures entries { self.new.entries ≡ self.old.entries }
        ensures slots { self.new.slots ≡ self.old.slots }
        ensures room { self.old.room ≤ self.new.room }
    {
        let len = read(self.nodes.as_slice(), self.root).size as usize;
        if self.nodes.capacity() - len >= additional {
            return Ok(());
        }
        let vacant = self.nodes.len() - len;
        self.nodes.reserve(additional - vacant)
    }

    /// Puts an entry at a place in room that was reserved, and returns its slot.
    pub fn insert_reserved(&mut self, position: usize, own: S) -> u32
        requires in_range { position ≤ length self.old.entries }
        requires few { length self.old.entries + 1 < 2 ^ 32 }
        requires spare { length self.old.entries < self.old.room }
        ensures entries { self.new.entries ≡ insert self.old.entries position (result, own) }
        ensures fresh { ¬ Contains (slots_of self.old.entries) result }
        ensures next { result ≤ self.old.slots }
        ensures new_if_full { result ≡ self.old.slots → length self.old.entries ≡ self.old.slots }
        ensures slots { self.new.slots ≡ max self.old.slots (result + 1) }
        ensures room { self.new.room ≡ self.old.room }
    {
        let placed = put_in(&mut self.nodes, self.root, self.vacant, position, own);
        self.root = placed.root;
        self.vacant = placed.vacant;
        placed.slot
    }

    /// Puts an entry at a place and returns its slot. It takes memory where there is no room.
    pub fn insert_at(&mut self, position: usize, own: S) -> Result<u32, AllocError>
        requires in_range { position ≤ length self.old.entries }
        requires few { length self.old.entries + 1 < 2 ^ 32 }
        ensures entries { IfOk result
            (λ slot. self.new.entries ≡ insert self.old.entries position (slot, own)) }
        ensures fresh { IfOk result (λ slot. ¬ Contains (slots_of self.old.entries) slot) }
        ensures next { IfOk result (λ slot. slot ≤ self.old.slots) }
        ensures new_if_full { IfOk result
            (λ slot. slot ≡ self.old.slots → length self.old.entries ≡ self.old.slots) }
        ensures slots { IfOk result (λ slot. self.new.slots ≡ max self.old.slots (slot + 1)) }
        ensures err { OnErr result (self.new.entries ≡ self.old.entries) }
        ensures err_slots { OnErr result (self.new.slots ≡ self.old.slots) }
        ensures room { self.old.room ≤ self.new.room }
    {
        self.reserve(1)?;
        Ok(self.insert_reserved(position, own))
    }

    /// Takes the entry at a place out, and returns its slot and its summary.
    pub fn remove_at(&mut self, position: usize) -> (u32, S)
        requires { position < length self.old.entries }
        ensures value { slice_get self.old.entries position ≡ Some result }
        ensures entries { self.new.entries ≡ remove self.old.entries position }
        ensures slots { self.new.slots ≡ self.old.slots }
        ensures room { self.new.room ≡ self.old.room }
    {
        let nodes = self.nodes.as_slice();
        let slot = slot_at(nodes, self.root, position);
        let own = read(nodes, slot).own;
        let (vacant, root) = take_out(self.nodes.as_mut_slice(), self.root, self.vacant, position);
        self.root = root;
        self.vacant = vacant;
        (slot, own)
    }

    /// Gives the entry at a place another summary.
    pub fn set_own(&mut self, position: usize, own: S)
        requires { position < length self.old.entries }
        ensures entries { self.new.entries ≡ with_own self.old.entries position own }
        ensures slots { self.new.slots ≡ self.old.slots }
        ensures room { self.new.room ≡ self.old.room }
    {
        set_in(self.nodes.as_mut_slice(), self.root, position, own);
    }
}
