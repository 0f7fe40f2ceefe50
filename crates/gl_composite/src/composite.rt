//! A composite.

ghost use Rattle.std.specs.Prelude.{◌≡◌, ◌↔◌, ◌+◌, ◌++◌, ◌∷◌, ◌<◌, ◌≤◌, ℕ, suc, [], List, length, map, take, drop, remove, sum, slice_get, Some, Err, Contains, IfOk, OnOk, OnErr};
ghost use Rattle.gl_joined.specs.Tree.{Tree};
ghost use Rattle.gl_joined.specs.Piece.{new_len, identity, inserted, deleted, normal};
ghost use Rattle.gl_joined.specs.Leads.{IsDelta};
ghost use Rattle.spec_views.specs.Composite.{composite_view, composite_follow, attach_told, detach_told};
ghost use Rattle.gl_joined.specs.Located.{IsLocated};
ghost use Rattle.gl_composite.specs.Kept.{shown_len};
ghost use Rattle.gl_composite.specs.Told.{deltas_of, told_by, new_lens, AreOf};
ghost use Rattle.gl_composite.specs.Stands.{StandsFor, contents, before, list_at, found_in, CanRetreat, IsUndo};

use crate::fault::DetachFault;
use crate::follow::{follow, new_total};
use gl_delta::{Cell, Delta, Deltas, KernelFault};
use gl_joined::{LengthList, Lone, tell_part};
use gl_kernel::{Editable, LogStep, apply, take_back, tell};
use gl_value::Shelf;
use std::alloc::{AllocError, Global};
use std::marker::Model;

/// Lists shown one after another: the CompositeList of Glazed Lists. Its members are told by the numbers of their lists,
/// and the same list may be a member several times. It keeps none of their elements, but how many each of them has, in a
/// balanced tree.
#[derive(Drop)]
pub struct Composite {
    alloc: Global,
    limit: u64,
    // Attaching goes to the end; detaching moves those after it, as following passes over all of them.
    lists: Vec<u32>,
    lens: LengthList,
}

impl Model for Composite {
    ghost use Rattle.std.specs.Prelude.{vec_capacity};
    ghost use Rattle.gl_composite.specs.Kept.{Kept, kept_code, IsWithin};

    ghost Value = { Kept };

    ghost coded = { kept_code };

    ghost view = { λ c. record {
      limit = c.limit;
      lists = c.lists.items;
      lens = c.lens.lens;
      list_room = vec_capacity c.lists;
      room = c.lens.room;
    } };

    ghost invariant = { λ c. IsWithin c.limit c.lists.items c.lens.lens };
}

/// What takes a composite back to where it stood before a change.
#[derive(Drop)]
pub struct CompositeUndo {
    pub(crate) step: Step,
}

// The way back: a member at an index taken out; one put in, with its list and its length; edits of the lengths.
#[derive(Drop)]
pub(crate) enum Step {
    Attached(usize),
    Detached(usize, u32, u32),
    Advanced(Vec<LogStep<u32>>),
}

impl Composite {
    /// A composite of at most so many elements, that has no members. It takes no memory.
    pub fn make(alloc: Global, limit: u64) -> Composite
        requires few { limit ≤ 2147483647 }
        ensures lists { result.lists ≡ [] }
        ensures limit { result.limit ≡ limit }
        ensures stands { (shows : ℕ → List Tree) → StandsFor result shows }
    {
        Composite {
            alloc,
            limit,
            lists: Vec::new(alloc),
            lens: LengthList::new(alloc),
        }
    }

    /// Attaches a list at the end. It takes memory, and time, for each of its elements.
    pub fn attach<S: Shelf>(
        &mut self,
        list: u32,
        input: &S,
    ) -> Result<(Delta, CompositeUndo), KernelFault>
        ensures pieces { (shows : ℕ → List Tree) → StandsFor self.old shows
            → shows list ≡ S.items input.now
            → IfOk result (λ told. told.0.pieces ≡ attach_told self.old.lists shows list) }
        ensures stands { (shows : ℕ → List Tree) → StandsFor self.old shows
            → shows list ≡ S.items input.now
            → OnOk result (StandsFor self.new shows) }
        ensures lists { OnOk result (self.new.lists ≡ self.old.lists ++ list ∷ []) }
        ensures too_long { (len : ℕ) → (result ≡ Err (KernelFault.TooLong len))
            ↔ ((self.old.limit < len) × (len ≡ shown_len self.old + length (S.items input.now))) }
        ensures undo { IfOk result (λ told. IsUndo told.1 self.old self.new) }
        ensures err { OnErr result (contents self.new ≡ contents self.old) }
        ensures limit { self.new.limit ≡ self.old.limit }
        ensures room { self.old.room ≤ self.new.room }
        ensures list_room { self.old.list_room ≤ self.new.list_room }
    {
        let len = self.lens.total() as u128 + input.len() as u128;
        if len > self.limit as u128 {
            return Err(KernelFault::TooLong { len });
        }
        match self.attach_within(list, input) {
            Ok((out, undo)) => Ok((out, undo)),
            Err(_) => Err(KernelFault::Memory),
        }
    }

    // The same, where it doesn't pass the limit.
    fn attach_within<S: Shelf>(
        &mut self,
        list: u32,
        input: &S,
    ) -> Result<(Delta, CompositeUndo), AllocError>
        requires { shown_len self.old + length (S.items input.now) ≤ self.old.limit }
        ensures pieces { IfOk result (λ told. told.0.pieces
            ≡ identity (shown_len self.old) ++ map inserted (S.items input.now)) }
        ensures lists { OnOk result (self.new.lists ≡ self.old.lists ++ list ∷ []) }
        ensures lens { OnOk result
            (self.new.lens ≡ self.old.lens ++ length (S.items input.now) ∷ []) }
        ensures undo { IfOk result (λ told. IsUndo told.1 self.old self.new) }
        ensures err { OnErr result (contents self.new ≡ contents self.old) }
        ensures limit { self.new.limit ≡ self.old.limit }
        ensures room { self.old.room ≤ self.new.room }
        ensures list_room { self.old.list_room ≤ self.new.list_room }
    {
        let members = self.lens.len();
        if members >= 4294967294 {
            return Err(AllocError);
        }
        let mut out = Delta::identity(self.alloc, self.lens.total())?;
        tell_part(&mut out, Lone::Inserted, input, 0)?;
        self.lists.reserve(1)?;
        self.lens.reserve(1)?;
        self.lists.push_reserved(list);
        self.lens.insert(members, input.len() as u32);
        Ok((
            out,
            CompositeUndo {
                step: Step::Attached(members),
            },
        ))
    }

    /// Detaches the member at an index, which `input` is. It takes memory, and time, for each of its elements, and time
    /// for each member.
    pub fn detach<S: Shelf>(
        &mut self,
        at: u64,
        input: &S,
    ) -> Result<(Delta, CompositeUndo), DetachFault>
        requires member { at < length self.old.lists
            → slice_get self.old.lens at ≡ Some (length (S.items input.now)) }
        ensures pieces { (shows : ℕ → List Tree) → StandsFor self.old shows
            → shows (list_at self.old.lists at) ≡ S.items input.now
            → IfOk result (λ told. told.0.pieces ≡ detach_told self.old.lists shows at) }
        ensures stands { (shows : ℕ → List Tree) → StandsFor self.old shows
            → OnOk result (StandsFor self.new shows) }
        ensures lists { OnOk result (self.new.lists ≡ remove self.old.lists at) }
        ensures out_of_range { (index len : ℕ) → (result ≡ Err (DetachFault.OutOfRange index len))
            ↔ ((length self.old.lists ≤ at) × (index ≡ at) × (len ≡ length self.old.lists)) }
        ensures undo { IfOk result (λ told. IsUndo told.1 self.old self.new) }
        ensures err { OnErr result (contents self.new ≡ contents self.old) }
        ensures limit { self.new.limit ≡ self.old.limit }
        ensures room { self.old.room ≤ self.new.room }
        ensures list_room { self.old.list_room ≤ self.new.list_room }
    {
        let len = self.lists.len();
        if at >= len as u64 {
            return Err(DetachFault::OutOfRange {
                index: at,
                len: len as u64,
            });
        }
        match self.detach_at(at as usize, input) {
            Ok((out, undo)) => Ok((out, undo)),
            Err(_) => Err(DetachFault::Memory),
        }
    }

    // The same, where there is that member.
    fn detach_at<S: Shelf>(
        &mut self,
        at: usize,
        input: &S,
    ) -> Result<(Delta, CompositeUndo), AllocError>
        requires { slice_get self.old.lens at ≡ Some (length (S.items input.now)) }
        ensures pieces { IfOk result (λ told. told.0.pieces
            ≡ (identity (sum (take at self.old.lens)) ++ map deleted (S.items input.now))
            ++ identity (sum (drop (suc at) self.old.lens))) }
        ensures lists { OnOk result (self.new.lists ≡ remove self.old.lists at) }
        ensures lens { OnOk result (self.new.lens ≡ remove self.old.lens at) }
        ensures undo { IfOk result (λ told. IsUndo told.1 self.old self.new) }
        ensures err { OnErr result (contents self.new ≡ contents self.old) }
        ensures limit { self.new.limit ≡ self.old.limit }
        ensures room { self.old.room ≤ self.new.room }
        ensures list_room { self.old.list_room ≤ self.new.list_room }
    {
        let _few = self.lens.len();
        let before = self.lens.before(at);
        let rest = self.lens.total() - (before + input.len());
        let mut out = Delta::identity(self.alloc, before)?;
        tell_part(&mut out, Lone::Deleted, input, 0)?;
        tell(&mut out, Cell::Keep(rest))?;
        // The room that the way back takes.
        self.lists.reserve(0)?;
        self.lens.reserve(0)?;
        let list = self.lists.remove(at);
        let len = self.lens.remove(at);
        Ok((
            out,
            CompositeUndo {
                step: Step::Detached(at, list, len),
            },
        ))
    }

    /// Follows the changes of all members at once, by their lists' numbers; none put is the identity. It takes time for
    /// each member, and for each changed element time logarithmic in the changes, and memory for what it tells.
    pub fn advance(&mut self, deltas: &Deltas) -> Result<(Delta, CompositeUndo), KernelFault>
        requires { AreOf deltas.now self.old.lists self.old.lens }
        ensures pieces { (shows : ℕ → List Tree) → StandsFor self.old shows
            → IfOk result (λ told. told.0.pieces ≡ composite_follow self.old.lists (deltas_of deltas.now shows)) }
        ensures stands { (shows after : ℕ → List Tree) → StandsFor self.old shows
            → ((list : ℕ) → Contains self.old.lists list → IsDelta (deltas_of deltas.now shows list) (shows list) (after list))
            → OnOk result (StandsFor self.new after) }
        ensures lists { self.new.lists ≡ self.old.lists }
        ensures too_long { (len : ℕ) → (result ≡ Err (KernelFault.TooLong len))
            ↔ ((self.old.limit < len) × (len ≡ new_len (told_by deltas.now self.old.lists self.old.lens))) }
        ensures undo { IfOk result (λ told. IsUndo told.1 self.old self.new) }
        ensures err { OnErr result (contents self.new ≡ contents self.old) }
        ensures limit { self.new.limit ≡ self.old.limit }
        ensures room { self.old.room ≤ self.new.room }
        ensures list_room { self.old.list_room ≤ self.new.list_room }
    {
        let len = new_total(&self.lists, &self.lens, deltas);
        if len > self.limit as u128 {
            return Err(KernelFault::TooLong { len });
        }
        match self.advance_within(deltas) {
            Ok((out, undo)) => Ok((out, undo)),
            Err(_) => Err(KernelFault::Memory),
        }
    }

    // The same, where it doesn't pass the limit.
    fn advance_within(&mut self, deltas: &Deltas) -> Result<(Delta, CompositeUndo), AllocError>
        requires deltas { AreOf deltas.now self.old.lists self.old.lens }
        requires within { new_len (told_by deltas.now self.old.lists self.old.lens)
            ≤ self.old.limit }
        ensures pieces { IfOk result
            (λ told. told.0.pieces ≡ normal (told_by deltas.now self.old.lists self.old.lens)) }
        ensures lens { OnOk result
            (self.new.lens ≡ new_lens deltas.now self.old.lists self.old.lens) }
        ensures lists { self.new.lists ≡ self.old.lists }
        ensures undo { IfOk result (λ told. IsUndo told.1 self.old self.new) }
        ensures err { OnErr result (contents self.new ≡ contents self.old) }
        ensures limit { self.new.limit ≡ self.old.limit }
        ensures room { self.old.room ≤ self.new.room }
        ensures list_room { self.old.list_room ≤ self.new.list_room }
    {
        let _few = self.lens.len();
        let plan = follow(self.alloc, &self.lists, &self.lens, deltas)?;
        let log = apply(self.alloc, &mut self.lens, plan.log)?;
        Ok((
            plan.out,
            CompositeUndo {
                step: Step::Advanced(log),
            },
        ))
    }

    /// Goes back to where the composite stood before its last change, whose undo this is. It takes no memory.
    pub fn retreat(&mut self, undo: CompositeUndo)
        requires { CanRetreat undo self.old }
        ensures back { contents self.new ≡ before undo self.old }
        ensures room { self.old.room ≤ self.new.room }
        ensures list_room { self.old.list_room ≤ self.new.list_room }
    {
        let CompositeUndo { step } = undo;
        match step {
            Step::Attached(at) => {
                self.lists.remove(at);
                self.lens.remove(at);
            }
            Step::Detached(at, list, len) => {
                match self.lists.insert(at, list) {
                    Ok(()) => {}
                    Err(_) => unreachable!(),
                }
                self.lens.insert(at, len);
            }
            Step::Advanced(log) => take_back(&mut self.lens, log),
        }
    }

    /// How many members there are.
    pub fn members(&self) -> usize
        ensures { result ≡ length self.now.lists }
    {
        self.lists.len()
    }

    /// The list that the member at an index is; `None` exactly where the index isn't below the number of members.
    pub fn member(&self, at: usize) -> Option<u32>
        ensures { result ≡ slice_get self.now.lists at }
    {
        self.lists.get(at).copied()
    }

    /// The member that shows a position, and the position in it; `None` exactly where the position isn't below the length. It takes
    /// time logarithmic in the number of members.
    pub fn locate(&self, position: usize) -> Option<(usize, usize)>
        ensures view { (shows : ℕ → List Tree) → StandsFor self.now shows
            → found_in self.now.lists shows result ≡ slice_get (composite_view self.now.lists shows) position }
        ensures position { IsLocated self.now.lens position result }
    {
        self.lens.locate(position)
    }

    /// How many elements are shown.
    pub fn len(&self) -> usize
        ensures view { (shows : ℕ → List Tree) → StandsFor self.now shows
            → result ≡ length (composite_view self.now.lists shows) }
        ensures len { result ≡ shown_len self.now }
        ensures within { result ≤ self.now.limit }
    {
        self.lens.total()
    }
}
