//! A collection.

ghost use Rattle.std.specs.Prelude.{◌≡◌, ◌↔◌, ◌<◌, ◌≤◌, ℕ, List, length, map, slice_get, Err, IfOk, OnOk, OnErr, IsSome};
ghost use Rattle.gl_joined.specs.Tree.{Tree};
ghost use Rattle.gl_joined.specs.Piece.{inverted};
ghost use Rattle.gl_joined.specs.Leads.{LeadsTo, applied};
ghost use Rattle.spec_lang.specs.Kids.{kids};
ghost use Rattle.spec_views.specs.Collection.{collection_view, collection_follow};
ghost use Rattle.gl_kernel.specs.Found.{found_among};
ghost use Rattle.gl_collection.specs.Kept.{shown_len};
ghost use Rattle.gl_collection.specs.Stands.{StandsFor, children_at, contents, before, CanRetreat, IsUndo};

use crate::count::{count, new_total, total};
use crate::follow::follow;
use gl_delta::{Delta, Find, KernelFault};
use gl_joined::LengthList;
use gl_kernel::{Editable, LogStep, apply, element, take_back};
use gl_lang::Kids;
use gl_value::{Shelf, Steps};
use std::alloc::{AllocError, Global};
use std::marker::Model;
use std::sync::ledger::Ledger;

/// The children of each element of a list, one after another: the CollectionList of Glazed Lists. It keeps none of them,
/// but how many each element has, in a balanced tree.
#[derive(Drop)]
pub struct Collection {
    alloc: Global,
    limit: u64,
    model: Kids,
    lens: LengthList,
}

impl Model for Collection {
    ghost use Rattle.gl_collection.specs.Kept.{Kept, kept_code, IsWithin};

    ghost Value = { Kept };

    ghost coded = { kept_code };

    ghost view = { λ c. record { kids = c.model; limit = c.limit; lens = c.lens.lens; room = c.lens.room } };

    ghost invariant = { λ c. IsWithin c.limit c.lens.lens };
}

/// What takes a collection back to where it stood before a change.
#[derive(Drop)]
pub struct CollectionUndo {
    pub(crate) log: Vec<LogStep<u32>>,
}

impl Collection {
    /// The collection of a list, of at most so many children. It takes memory for each element.
    pub fn make<S: Shelf, L: Ledger>(
        alloc: Global,
        param: Kids,
        limit: u64,
        input: &S,
        steps: &mut Steps<L>,
    ) -> Result<Collection, KernelFault>
        requires few_elements { length (S.items input.now) ≤ 2147483647 }
        requires few { limit ≤ 2147483647 }
        ensures stands { IfOk result (λ collection. StandsFor collection (S.items input.now)) }
        ensures kids { IfOk result (λ collection. collection.kids ≡ param) }
        ensures limit { IfOk result (λ collection. collection.limit ≡ limit) }
        ensures too_long { (len : ℕ) → (result ≡ Err (KernelFault.TooLong len))
            ↔ ((limit < len) × (len ≡ length (collection_view (kids param) (S.items input.now)))) }
        ensures counted { steps.new ≡ steps.old }
    {
        let _ = steps;
        let len = total(&param, input);
        if len > limit as u128 {
            return Err(KernelFault::TooLong { len });
        }
        match Collection::counted(alloc, param, limit, input) {
            Ok(made) => Ok(made),
            Err(_) => Err(KernelFault::Memory),
        }
    }

    // The same, where it doesn't pass the limit.
    fn counted<S: Shelf>(
        alloc: Global,
        model: Kids,
        limit: u64,
        input: &S,
    ) -> Result<Collection, AllocError>
        requires few_elements { length (S.items input.now) ≤ 2147483647 }
        requires few { limit ≤ 2147483647 }
        requires within { length (collection_view (kids model) (S.items input.now)) ≤ limit }
        ensures stands { IfOk result (λ collection. StandsFor collection (S.items input.now)) }
        ensures kids { IfOk result (λ collection. collection.kids ≡ model) }
        ensures limit { IfOk result (λ collection. collection.limit ≡ limit) }
    {
        let mut lens = LengthList::new(alloc);
        lens.reserve(input.len())?;
        'elements: for position in 0..input.len() {
            let len = count(&model, element(input, position));
            lens.insert(position, len as u32);
        }
        Ok(Collection {
            alloc,
            limit,
            model,
            lens,
        })
    }

    /// Follows a change of the list, whose new side is `input`. It takes memory, and time, for each child of a deleted, an
    /// inserted and an updated element; kept ones are passed over in time logarithmic in their number for each stretch of
    /// them.
    pub fn advance<S: Shelf, L: Ledger>(
        &mut self,
        input: &S,
        d: &Delta,
        steps: &mut Steps<L>,
    ) -> Result<(Delta, CollectionUndo), KernelFault>
        requires leads { LeadsTo d.now.pieces (S.items input.now) }
        requires stands { StandsFor self.old
            (applied (map inverted d.now.pieces) (S.items input.now)) }
        ensures pieces { IfOk result (λ told. told.0.pieces ≡ collection_follow (kids self.old.kids)
            (applied (map inverted d.now.pieces) (S.items input.now)) d.now.pieces) }
        ensures stands { OnOk result (StandsFor self.new (S.items input.now)) }
        ensures too_long { (len : ℕ) → (result ≡ Err (KernelFault.TooLong len))
            ↔ ((self.old.limit < len) × (len ≡ length (collection_view (kids self.old.kids) (S.items input.now)))) }
        ensures undo { IfOk result (λ told. IsUndo told.1 self.old self.new) }
        ensures err { OnErr result (contents self.new ≡ contents self.old) }
        ensures kids { self.new.kids ≡ self.old.kids }
        ensures limit { self.new.limit ≡ self.old.limit }
        ensures room { self.old.room ≤ self.new.room }
        ensures counted { steps.new ≡ steps.old }
    {
        let _ = steps;
        let len = self.len_after(input, d);
        if len > self.limit as u128 {
            return Err(KernelFault::TooLong { len });
        }
        match self.advance_within(input, d) {
            Ok(done) => Ok(done),
            Err(_) => Err(KernelFault::Memory),
        }
    }

    // How many children there are after a change.
    fn len_after<S: Shelf>(&self, input: &S, d: &Delta) -> u128
        requires leads { LeadsTo d.now.pieces (S.items input.now) }
        requires stands { StandsFor self.now
            (applied (map inverted d.now.pieces) (S.items input.now)) }
        ensures { result ≡ length (collection_view (kids self.now.kids) (S.items input.now)) }
    {
        let _ = input;
        let _normal = d.old_len();
        new_total(&self.model, &self.lens, d)
    }

    // Follows a change that doesn't pass the limit.
    fn advance_within<S: Shelf>(
        &mut self,
        input: &S,
        d: &Delta,
    ) -> Result<(Delta, CollectionUndo), AllocError>
        requires leads { LeadsTo d.now.pieces (S.items input.now) }
        requires stands { StandsFor self.old
            (applied (map inverted d.now.pieces) (S.items input.now)) }
        requires within { length (collection_view (kids self.old.kids) (S.items input.now))
            ≤ self.old.limit }
        ensures pieces { IfOk result (λ told. told.0.pieces ≡ collection_follow (kids self.old.kids)
            (applied (map inverted d.now.pieces) (S.items input.now)) d.now.pieces) }
        ensures stands { OnOk result (StandsFor self.new (S.items input.now)) }
        ensures undo { IfOk result (λ told. IsUndo told.1 self.old self.new) }
        ensures err { OnErr result (contents self.new ≡ contents self.old) }
        ensures kids { self.new.kids ≡ self.old.kids }
        ensures limit { self.new.limit ≡ self.old.limit }
        ensures room { self.old.room ≤ self.new.room }
    {
        let _ = input;
        let _olds = d.old_len();
        let _news = d.new_len();
        let plan = follow(self.alloc, &self.model, &self.lens, d)?;
        let log = apply(self.alloc, &mut self.lens, plan.log)?;
        Ok((plan.out, CollectionUndo { log }))
    }

    /// Goes back to where the collection stood before its last change, whose undo this is. It takes no memory.
    pub fn retreat(&mut self, undo: CollectionUndo)
        requires { CanRetreat undo self.old }
        ensures back { contents self.new ≡ before undo self.old }
        ensures room { self.old.room ≤ self.new.room }
    {
        let CollectionUndo { log } = undo;
        take_back(&mut self.lens, log);
    }

    /// How many children are shown.
    pub fn len(&self) -> usize
        ensures view { (xs : List Tree) → StandsFor self.now xs
            → result ≡ length (collection_view (kids self.now.kids) xs) }
        ensures len { result ≡ shown_len self.now }
        ensures within { result ≤ self.now.limit }
    {
        self.lens.total()
    }

    /// Where the child that is shown at a position stands, or `None` exactly where the position isn't below the length. It takes
    /// time logarithmic in the number of elements.
    pub fn find(&self, position: usize) -> Option<Find<'_>>
        ensures view { (xs : List Tree) → StandsFor self.now xs
            → found_among (children_at self.now.kids xs) xs result
            ≡ slice_get (collection_view (kids self.now.kids) xs) position }
        ensures some { IsSome result ↔ (position < shown_len self.now) }
    {
        match self.lens.locate(position) {
            Some((index, within)) => Some(Find::Child(index, within)),
            None => None,
        }
    }

    /// The child model that it shows by.
    pub fn kids(&self) -> &Kids
        ensures { result.now ≡ self.now.kids }
    {
        &self.model
    }
}
