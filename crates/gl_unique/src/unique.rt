//! A unique list.

ghost use Rattle.std.specs.Prelude.{◌≡◌, ◌+◌, ◌*◌, ◌^◌, ◌<◌, ◌≤◌, ◌↔◌, ℕ, List, length, map, slice_get, IsSome, IfOk, OnOk, OnErr};
ghost use Rattle.spec_sorting.specs.Tree.{Tree};
ghost use Rattle.spec_sorting.specs.Piece.{inverted, old_len};
ghost use Rattle.spec_sorting.specs.Leads.{LeadsTo, applied};
ghost use Rattle.spec_classes.specs.Unique.{unique_view, unique_follow, unique_change};
ghost use Rattle.gl_kernel.specs.Found.{found};
ghost use Rattle.gl_classes.specs.Sorting.{order_cmp};
ghost use Rattle.gl_classes.specs.Changes.{fresh_len};
ghost use Rattle.gl_classes.specs.Stands.{StandsFor, contents, before, rooms, rooms_back, CanRetreat, AreNoMore, IsUndo};

use crate::replaced::replaced;
use crate::told::told;
use gl_classes::{Classes, ClassesUndo, Followed};
use gl_delta::{Delta, Find};
use gl_lang::Order;
use gl_value::{Shelf, Steps};
use std::alloc::{AllocError, Global};
use std::marker::Model;
use std::sync::ledger::Ledger;

/// Of each class of elements of equal key the one that stands first in the list, in the order of their keys: the UniqueList
/// of Glazed Lists. The list itself isn't kept, but its classes.
#[derive(Drop)]
pub struct Unique {
    alloc: Global,
    classes: Classes,
}

impl Model for Unique {
    ghost use Rattle.std.specs.Coded.{codes};
    ghost use Rattle.gl_classes.specs.Kept.{Kept};

    ghost Value = { Kept };

    ghost coded = { Prim.hlevel codes };

    ghost view = { λ u. u.classes };
}

/// What takes a unique list back to where it stood before a change.
pub type UniqueUndo = ClassesUndo;

impl Unique {
    /// The unique list of a list. It takes memory for the list's length, and compares for each element at most three times
    /// the binary digits of that length, and three times more.
    pub fn make<S: Shelf, L: Ledger>(
        alloc: Global,
        param: Order,
        input: &S,
        steps: &mut Steps<L>,
    ) -> Result<Unique, AllocError>
        requires few { length (S.items input.now) ≤ 2147483647 }
        ensures stands { IfOk result (λ unique. StandsFor unique (S.items input.now)) }
        ensures order { IfOk result (λ unique. unique.list.order ≡ param) }
        ensures counted { (digits : ℕ)
            → length (S.items input.now) < 2 ^ digits
            → steps.new ≤ steps.old + length (S.items input.now) * (4 * (digits + 1)) }
    {
        let classes = Classes::make(alloc, param, input, steps)?;
        Ok(Unique { alloc, classes })
    }

    /// Follows a change of the list, whose new side is `input`. A class that both lists have stays in its place; its shown
    /// element is kept exactly where it is one that wasn't changed and was shown before, and else updated. It takes work
    /// for the touched classes alone, a logarithm each; it compares for each inserted and each updated element, and takes
    /// memory for what changed.
    pub fn advance<S: Shelf, L: Ledger>(
        &mut self,
        input: &S,
        d: &Delta,
        steps: &mut Steps<L>,
    ) -> Result<(Delta, UniqueUndo), AllocError>
        requires leads { LeadsTo d.now.pieces (S.items input.now) }
        requires stands { StandsFor self.old
            (applied (map inverted d.now.pieces) (S.items input.now)) }
        ensures pieces { IfOk result (λ told. told.0.pieces
            ≡ unique_follow (order_cmp self.old.list.order) (applied (map inverted d.now.pieces) (S.items input.now)) d.now.pieces) }
        ensures stands { OnOk result (StandsFor self.new (S.items input.now)) }
        ensures undo { IfOk result (λ told. IsUndo told.1 self.old self.new) }
        ensures err { OnErr result (contents self.new ≡ contents self.old) }
        ensures order { self.new.list.order ≡ self.old.list.order }
        ensures rooms { AreNoMore (rooms self.old) (rooms self.new) }
        ensures counted { (digits : ℕ)
            → length (S.items input.now) < 2 ^ digits
            → old_len d.now.pieces < 2 ^ digits
            → steps.new ≤ steps.old + fresh_len d.now.pieces * (4 * (digits + 1)) }
    {
        let _old = d.old_len();
        let _new = d.new_len();
        let olds = self.classes.len();
        let Followed { slots, undo } = self.classes.advance(input, d, steps)?;
        match told(self.alloc, olds, input, d, slots.as_slice()) {
            Ok(out) => Ok((out, undo)),
            Err(failed) => {
                self.classes.retreat(undo);
                Err(failed)
            }
        }
    }

    /// Takes another order in place of the one that it shows by: all elements are deleted and inserted. It compares as
    /// `make` does, and takes memory for the list's length.
    pub fn change<S: Shelf, L: Ledger>(
        &mut self,
        param: Order,
        input: &S,
        steps: &mut Steps<L>,
    ) -> Result<(Delta, UniqueUndo), AllocError>
        requires stands { StandsFor self.old (S.items input.now) }
        requires few { length (S.items input.now) ≤ 2147483647 }
        ensures pieces { IfOk result (λ told. told.0.pieces
            ≡ unique_change (order_cmp self.old.list.order) (order_cmp param) (S.items input.now)) }
        ensures stands { OnOk result (StandsFor self.new (S.items input.now)) }
        ensures order { OnOk result (self.new.list.order ≡ param) }
        ensures undo { IfOk result (λ told. IsUndo told.1 self.old self.new) }
        ensures err { OnErr result (self.new ≡ self.old) }
        ensures counted { (digits : ℕ)
            → length (S.items input.now) < 2 ^ digits
            → steps.new ≤ steps.old + length (S.items input.now) * (4 * (digits + 1)) }
    {
        let classes = Classes::make(self.alloc, param, input, steps)?;
        let out = replaced(self.alloc, &self.classes, &classes, input)?;
        Ok((out, self.classes.exchange(classes)))
    }

    /// Goes back to where the unique list stood before its last change, whose undo this is. It takes no memory and compares
    /// nothing.
    pub fn retreat(&mut self, undo: UniqueUndo)
        requires { CanRetreat undo self.old }
        ensures back { contents self.new ≡ before undo self.old }
        ensures rooms { AreNoMore (rooms_back undo self.old) (rooms self.new) }
    {
        self.classes.retreat(undo);
    }

    /// How many elements are shown.
    pub fn len(&self) -> usize
        ensures view { (xs : List Tree) → StandsFor self.now xs
            → result ≡ length (unique_view (order_cmp self.now.list.order) xs) }
    {
        self.classes.len()
    }

    /// Where the element that is shown at a place stands, or `None` exactly where the place isn't below the length. It takes
    /// a logarithm of the list's length.
    pub fn find(&self, place: usize) -> Option<Find<'_>>
        ensures some { (xs : List Tree) → StandsFor self.now xs
            → IsSome result ↔ (place < length (unique_view (order_cmp self.now.list.order) xs)) }
        ensures found { (xs : List Tree) → StandsFor self.now xs
            → found result xs ≡ slice_get (unique_view (order_cmp self.now.list.order) xs) place }
    {
        match self.classes.find_first(place) {
            Some(first) => Some(Find::Input(first)),
            None => None,
        }
    }

    /// The order that it shows by.
    pub fn order(&self) -> &Order
        ensures { result.now ≡ self.now.list.order }
    {
        self.classes.order()
    }
}
