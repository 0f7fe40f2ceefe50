ghost use Rattle.std.specs.Prelude.{◌≡◌, ◌+◌, ◌-◌, ◌*◌, ◌^◌, ◌<◌, ◌≤◌, ℕ, [], length, insert, remove, Contains, IfOk, IfErr, OnOk, OnErr, Some, slice_get};
ghost use Rattle.std.specs.Borrow.{sem};
ghost use Rattle.gl_counted.specs.Counted.{handles, spare, AreDistinct};

use crate::descent::Descent;
use crate::handle::Handle;
use crate::items::{item_mut, store, take};
use gl_ranktree::RankTree;
use std::alloc::{AllocError, Global};
use std::marker::Model;

/// A list of items, each under a handle that stays with it until it is taken.
///
/// Every call but `new`, `len` and `reserve` takes time logarithmic in the length.
#[derive(Drop)]
pub struct Counted<T> {
    // The order of the items: where each slot stands.
    tree: RankTree<()>,
    // The items by their slots.
    items: Vec<Option<T>>,
}

impl<T> Model for Counted<T> {
    ghost use Rattle.std.specs.Prelude.{min, vec_capacity};
    ghost use Rattle.gl_counted.specs.Counted.{Counted as Listed, counted_code};
    ghost use Rattle.gl_counted.specs.Held.{held, IsHeld};

    ghost Value = { Listed T };

    ghost coded = { counted_code T.code };

    ghost view = { λ c. record {
      entries = held c.tree.entries c.items.items;
      room = min c.tree.room (vec_capacity c.items);
    } };

    ghost invariant = { λ c. IsHeld c.tree c.items.items };
}

impl<T> Counted<T> {
    ghost use Rattle.gl_counted.specs.Lends.{lends_item};

    /// An empty list, which takes no memory until the first reserve or insert.
    pub fn new(alloc: Global) -> Counted<T>
        ensures empty { result.entries ≡ [] }
        ensures no_room { result.room ≡ 0 }
    {
        Counted {
            tree: RankTree::new(alloc),
            items: Vec::new(alloc),
        }
    }

    /// The number of items.
    pub fn len(&self) -> usize
        ensures value { result ≡ length self.now.entries }
        ensures distinct { AreDistinct self.now.entries }
    {
        self.tree.len()
    }

    /// The number of levels of the tree that keeps the order: at most twice the binary digits of the length.
    pub fn height(&self) -> usize
        ensures deep { length self.now.entries < 2 ^ result }
        ensures shallow { (digits : ℕ)
            → length self.now.entries < 2 ^ digits
            → result ≤ 2 * digits }
    {
        self.tree.height()
    }

    /// The way down from the root of the tree that keeps the order, with every place left. It has at most as many levels
    /// as twice the binary digits of the length.
    pub fn descend(&self) -> Descent<'_>
        ensures slots { result.slots ≡ handles self.now.entries }
        ensures first { result.first ≡ 0 }
        ensures end { result.end ≡ length self.now.entries }
        ensures shallow { (digits : ℕ)
            → length self.now.entries < 2 ^ digits
            → result.levels ≤ 2 * digits }
    {
        Descent {
            tree: self.tree.descend(),
        }
    }

    /// Makes room, so that `n` more inserts need no memory.
    pub fn reserve(&mut self, n: usize) -> Result<(), AllocError>
        ensures ok { OnOk result (n ≤ spare self.new) }
        ensures entries { self.new.entries ≡ self.old.entries }
        ensures room { self.old.room ≤ self.new.room }
    {
        self.tree.reserve(n)?;
        let len = self.tree.len();
        if self.items.capacity() - len >= n {
            return Ok(());
        }
        let vacant = self.items.len() - len;
        self.items.reserve(n - vacant)
    }

    /// Puts an item at a place, in room that was reserved. It takes no memory.
    pub fn insert_reserved(&mut self, position: usize, item: T) -> Handle
        requires in_range { position ≤ length self.old.entries }
        requires few { length self.old.entries + 1 < 2 ^ 32 - 1 }
        requires has_spare { 1 ≤ spare self.old }
        ensures entries { self.new.entries ≡ insert self.old.entries position (result, item) }
        ensures fresh { ¬ Contains (handles self.old.entries) result }
        ensures room { self.new.room ≡ self.old.room }
    {
        let slot = self.tree.insert_reserved(position, ());
        store(&mut self.items, slot, item);
        Handle::new(slot)
    }

    /// Puts an item at a place. It takes memory where there is no room, and hands the item back where
    /// there is no memory.
    pub fn insert_at(&mut self, position: usize, item: T) -> Result<Handle, (T, AllocError)>
        requires in_range { position ≤ length self.old.entries }
        requires few { length self.old.entries + 1 < 2 ^ 32 - 1 }
        ensures entries { IfOk result
            (λ handle. self.new.entries ≡ insert self.old.entries position (handle, item)) }
        ensures fresh { IfOk result (λ handle. ¬ Contains (handles self.old.entries) handle) }
        ensures item_returned { IfErr result (λ failed. failed.0 ≡ item) }
        ensures err { OnErr result (self.new.entries ≡ self.old.entries) }
        ensures room { self.old.room ≤ self.new.room }
    {
        if self.reserve(1).is_err() {
            return Err((item, AllocError));
        }
        Ok(self.insert_reserved(position, item))
    }

    /// Takes an item out of the list. Its handle is no longer live, and there is room for one more.
    pub fn take(&mut self, handle: Handle) -> T
        requires { Contains (handles self.old.entries) handle }
        ensures taken { (k : ℕ)
            × (slice_get self.old.entries k ≡ Some (handle, result))
            × (self.new.entries ≡ remove self.old.entries k) }
        ensures room { self.new.room ≡ self.old.room }
    {
        let slot = handle.slot();
        let position = self.tree.place(slot);
        self.tree.remove_at(position);
        take(&mut self.items, slot)
    }

    /// The place of an item.
    pub fn place(&self, handle: Handle) -> usize
        requires { Contains (handles self.now.entries) handle }
        ensures { slice_get (handles self.now.entries) result ≡ Some handle }
    {
        self.tree.place(handle.slot())
    }

    /// The handle of the item at a place, `None` where the list is no longer than that.
    pub fn at(&self, position: usize) -> Option<Handle>
        ensures { result ≡ slice_get (handles self.now.entries) position }
    {
        match self.tree.get(position) {
            Some((slot, ())) => Some(Handle::new(slot)),
            None => None,
        }
    }

    /// The item under a handle.
    pub fn item(&self, handle: Handle) -> &T
        requires { Contains (handles self.now.entries) handle }
        ensures { Contains self.now.entries (handle, result.now) }
    {
        match &self.items[handle.slot() as usize] {
            Some(item) => item,
            None => unreachable!(),
        }
    }

    /// The item under a handle, for writing.
    pub fn item_mut(&mut self, handle: Handle) -> &mut T
        requires { Contains (handles self.old.entries) handle }
        ensures* writes_back { sem 𝓛 (lends_item T.row self.entry handle result) }
        ensures value { Contains self.old.entries (handle, result.now) }
    {
        let index = handle.slot() as usize;
        item_mut(&mut self.items[index])
    }
}
