//! A sorted list.

ghost use Rattle.std.specs.Prelude.{◌≡◌, ◌+◌, ◌*◌, ◌^◌, ◌<◌, ◌≤◌, ◌↔◌, ℕ, List, length, map, slice_get, IsSome, IfOk, OnOk, OnErr};
ghost use Rattle.spec_sorting.specs.Tree.{Tree};
ghost use Rattle.spec_sorting.specs.Piece.{inverted};
ghost use Rattle.spec_sorting.specs.Leads.{LeadsTo, applied, undone};
ghost use Rattle.gl_arranged.specs.Sorting.{order_cmp};
ghost use Rattle.spec_sorting.specs.Sides.{sides};
ghost use Rattle.spec_sorting.specs.Arrangement.{arrangement};
ghost use Rattle.spec_sorting.specs.Sorted.{sorted_view, sorted_follow, sorted_change};
ghost use Rattle.gl_kernel.specs.Found.{found};
ghost use Rattle.gl_arranged.specs.Changes.{fresh_len, AreRanked};
ghost use Rattle.gl_arranged.specs.Stands.{StandsFor, contents, before, CanRetreat, IsUndo};

use crate::leaving::settle;
use crate::merged::merged;
use crate::replaced::replaced;
use gl_arranged::{Arrangement, ArrangementUndo, Moves, Ranked};
use gl_delta::{Delta, Find};
use gl_lang::Order;
use gl_value::{Shelf, Steps};
use std::alloc::{AllocError, Global};
use std::marker::Model;
use std::sync::ledger::Ledger;

// What is told of a change, from the changed elements in sorted order. `list` is the new arrangement.
fn told<S: Shelf>(
    alloc: Global,
    list: &Arrangement,
    input: &S,
    d: &Delta,
    gone: Vec<Ranked>,
    came: Vec<Ranked>,
) -> Result<Delta, AllocError>
    requires leads { LeadsTo d.now.pieces (S.items input.now) }
    requires stands { StandsFor list.now (S.items input.now) }
    requires gone { AreRanked
        (arrangement (order_cmp list.now.order) (undone d.now.pieces (S.items input.now)))
        (sides d.now.pieces).old gone.items }
    requires came { AreRanked list.now.tree.places (sides d.now.pieces).new came.items }
    ensures { IfOk result (λ out. out.pieces
        ≡ sorted_follow (order_cmp list.now.order) (undone d.now.pieces (S.items input.now)) d.now.pieces) }
{
    let _olds = d.old_len();
    let _news = d.new_len();
    let leaving = settle(alloc, list, gone.as_slice(), came.as_slice())?;
    let out = merged(alloc, input, d, leaving.as_slice(), came.as_slice())?;
    Ok(out)
}

/// The elements of a list in the order of their keys, those of equal key as they stand in the list: the SortedList of
/// Glazed Lists. The list itself isn't kept, but where its elements stand in sorted order.
#[derive(Drop)]
pub struct Sorted {
    alloc: Global,
    list: Arrangement,
}

impl Model for Sorted {
    ghost use Rattle.std.specs.Coded.{codes};
    ghost use Rattle.gl_arranged.specs.Kept.{Kept};

    ghost Value = { Kept };

    ghost coded = { Prim.hlevel codes };

    ghost view = { λ s. s.list };
}

/// What takes a sorted list back to where it stood before a change.
pub type SortedUndo = ArrangementUndo;

impl Sorted {
    /// The sorted list of a list. It takes memory for the list's length, and compares for each element at most three times
    /// the binary digits of that length, and three times more.
    pub fn make<S: Shelf, L: Ledger>(
        alloc: Global,
        param: Order,
        input: &S,
        steps: &mut Steps<L>,
    ) -> Result<Sorted, AllocError>
        requires few { length (S.items input.now) ≤ 2147483647 }
        ensures stands { IfOk result (λ sorted. StandsFor sorted (S.items input.now)) }
        ensures order { IfOk result (λ sorted. sorted.order ≡ param) }
        ensures counted { (digits : ℕ)
            → length (S.items input.now) < 2 ^ digits
            → steps.new ≤ steps.old + length (S.items input.now) * (4 * (digits + 1)) }
    {
        let list = Arrangement::make(alloc, param, input, steps)?;
        Ok(Sorted { alloc, list })
    }

    /// Follows a change of the list, whose new side is `input`. An updated element stays exactly where its order against
    /// every other paired element does; the others are deleted and inserted. It compares for each inserted and each
    /// updated element alone, and takes memory for what changed.
    pub fn advance<S: Shelf, L: Ledger>(
        &mut self,
        input: &S,
        d: &Delta,
        steps: &mut Steps<L>,
    ) -> Result<(Delta, SortedUndo), AllocError>
        requires leads { LeadsTo d.now.pieces (S.items input.now) }
        requires stands { StandsFor self.old
            (applied (map inverted d.now.pieces) (S.items input.now)) }
        ensures pieces { IfOk result (λ told. told.0.pieces
            ≡ sorted_follow (order_cmp self.old.order) (applied (map inverted d.now.pieces) (S.items input.now)) d.now.pieces) }
        ensures stands { OnOk result (StandsFor self.new (S.items input.now)) }
        ensures undo { IfOk result (λ told. IsUndo told.1 self.old self.new) }
        ensures err { OnErr result (contents self.new ≡ contents self.old) }
        ensures order { self.new.order ≡ self.old.order }
        ensures room { self.old.tree.room ≤ self.new.tree.room }
        ensures counted { (digits : ℕ)
            → length (S.items input.now) < 2 ^ digits
            → steps.new ≤ steps.old + fresh_len d.now.pieces * (4 * (digits + 1)) }
    {
        let Moves { gone, came, undo } = self.list.advance(input, d, steps)?;
        match told(self.alloc, &self.list, input, d, gone, came) {
            Ok(out) => Ok((out, undo)),
            Err(failed) => {
                self.list.retreat(undo);
                Err(failed)
            }
        }
    }

    /// Takes another order in place of the one that it shows by: all elements are deleted and inserted. It compares as
    /// `make` does, and takes memory for the list's length.
    pub fn change<S: Shelf, L: Ledger>(
        &mut self,
        param: Order,
        input: &S,
        steps: &mut Steps<L>,
    ) -> Result<(Delta, SortedUndo), AllocError>
        requires stands { StandsFor self.old (S.items input.now) }
        requires few { length (S.items input.now) ≤ 2147483647 }
        ensures pieces { IfOk result (λ told. told.0.pieces
            ≡ sorted_change (order_cmp self.old.order) (order_cmp param) (S.items input.now)) }
        ensures stands { OnOk result (StandsFor self.new (S.items input.now)) }
        ensures order { OnOk result (self.new.order ≡ param) }
        ensures undo { IfOk result (λ told. IsUndo told.1 self.old self.new) }
        ensures err { OnErr result (self.new ≡ self.old) }
        ensures counted { (digits : ℕ)
            → length (S.items input.now) < 2 ^ digits
            → steps.new ≤ steps.old + length (S.items input.now) * (4 * (digits + 1)) }
    {
        let list = Arrangement::make(self.alloc, param, input, steps)?;
        let out = replaced(self.alloc, &self.list, &list, input)?;
        Ok((out, self.list.exchange(list)))
    }

    /// Goes back to where the sorted list stood before its last change, whose undo this is. It takes no memory and compares
    /// nothing.
    pub fn retreat(&mut self, undo: SortedUndo)
        requires { CanRetreat undo self.old }
        ensures { self.new ≡ before undo self.old }
    {
        self.list.retreat(undo);
    }

    /// How many elements are shown.
    pub fn len(&self) -> usize
        ensures view { (xs : List Tree) → StandsFor self.now xs
            → result ≡ length (sorted_view (order_cmp self.now.order) xs) }
        ensures len { result ≡ length self.now.tree.places }
    {
        self.list.len()
    }

    /// Where the element that is shown at a place stands, or `None` exactly where the place isn't below the length.
    pub fn find(&self, place: usize) -> Option<Find<'_>>
        ensures some { IsSome result ↔ (place < length self.now.tree.places) }
        ensures found { (xs : List Tree) → StandsFor self.now xs
            → found result xs ≡ slice_get (sorted_view (order_cmp self.now.order) xs) place }
    {
        if place < self.list.len() {
            Some(Find::Input(self.list.source_of(place)))
        } else {
            None
        }
    }

    /// The order that it shows by.
    pub fn order(&self) -> &Order
        ensures { result.now ≡ self.now.order }
    {
        self.list.order()
    }
}
