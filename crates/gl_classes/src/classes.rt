//! The classes of a list.

ghost use Rattle.std.specs.Prelude.{◌≡◌, ◌+◌, ◌*◌, ◌^◌, ◌<◌, ◌≤◌, ℕ, List, length, map, slice_get, option_map, Some, IfOk, OnOk, OnErr};
ghost use Rattle.spec_sorting.specs.Tree.{Tree};
ghost use Rattle.spec_sorting.specs.Piece.{inverted, old_len};
ghost use Rattle.spec_sorting.specs.Sides.{sides};
ghost use Rattle.spec_sorting.specs.Leads.{LeadsTo, applied, undone};
ghost use Rattle.gl_arranged.specs.Changes.{AreRanked, fresh_len};
ghost use Rattle.gl_arranged.specs.Sorting.{order_cmp};
ghost use Rattle.spec_classes.specs.Classes.{classes, first_of};
ghost use Rattle.spec_classes.specs.Slots.{slots};
ghost use Rattle.gl_barcode.specs.Bars.{count_shown, stretch_count, IsKthShown};
ghost use Rattle.gl_kernel.specs.Edits.{played, CanPlay};
ghost use Rattle.gl_classes.specs.Stands.{StandsFor, contents, before, rooms, rooms_back, CanRetreat, AreNoMore, IsUndo};
ghost use Rattle.gl_classes.specs.Follows.{TookSteps, taken, Follows};
ghost use Rattle.gl_classes.specs.Unmet.{AreTouchedOld};

use crate::firsts::{edits, firsts_of};
use crate::meeting::meet;
use crate::slots::told_slots;
use crate::touched::{Touched, find_touched};
use gl_arranged::{Arrangement, ArrangementUndo, Moves, Ranked, Step};
use gl_barcode::Barcode;
use gl_delta::Delta;
use gl_kernel::{LogStep, apply, take_back};
use gl_lang::Order;
use gl_value::{Shelf, Steps};
use spec_classes::Slot;
use std::alloc::{AllocError, Global};
use std::marker::Model;
use std::mem;
use std::sync::ledger::Ledger;

/// The classes of equal key of a list by an order, in key order, their members as they stand in the list. The list itself
/// isn't kept.
///
/// Contracts see the arrangement of the list, and for each place in it whether the element there is the first of its class.
#[derive(Drop)]
pub struct Classes {
    alloc: Global,
    list: Arrangement,
    firsts: Barcode,
}

impl Model for Classes {
    ghost use Rattle.std.specs.Coded.{codes};
    ghost use Rattle.gl_classes.specs.Kept.{Kept};

    ghost Value = { Kept };

    ghost coded = { Prim.hlevel codes };

    ghost view = { λ c. record { list = c.list; firsts = c.firsts } };
}

/// What takes the classes back to where they stood before a change: edits, or what they were.
#[derive(Drop)]
pub enum ClassesUndo {
    Edits(ArrangementUndo, Vec<LogStep<bool>>),
    Whole(Classes),
}

/// What the classes did to follow a delta.
#[derive(Drop)]
pub struct Followed {
    /// The touched keys, in key order.
    pub slots: Vec<Slot>,
    /// What takes the classes back.
    pub undo: ClassesUndo,
}

// The steps that an arrangement took.
fn steps_of(undo: &ArrangementUndo) -> &[Step]
    requires { TookSteps undo.now }
    ensures { result.now ≡ taken undo.now }
{
    match undo {
        ArrangementUndo::Steps(steps) => steps.as_slice(),
        ArrangementUndo::Whole(_) => unreachable!(),
    }
}

impl Classes {
    /// The classes of a list. It takes memory for the list's length, and compares for each element at most three times the
    /// binary digits of that length, and three times more.
    pub fn make<S: Shelf, L: Ledger>(
        alloc: Global,
        order: Order,
        input: &S,
        steps: &mut Steps<L>,
    ) -> Result<Classes, AllocError>
        requires few { length (S.items input.now) ≤ 2147483647 }
        ensures stands { IfOk result (λ made. StandsFor made (S.items input.now)) }
        ensures order { IfOk result (λ made. made.list.order ≡ order) }
        ensures counted { (digits : ℕ)
            → length (S.items input.now) < 2 ^ digits
            → steps.new ≤ steps.old + length (S.items input.now) * (3 * (digits + 1)) }
    {
        let list = Arrangement::make(alloc, order, input, steps)?;
        let firsts = firsts_of(alloc, &list)?;
        Ok(Classes {
            alloc,
            list,
            firsts,
        })
    }

    /// Follows a change of the list, whose new side is `input`. It compares for each inserted and each updated element
    /// alone, takes memory for what changed, and time for that by a logarithm of the list's length.
    pub fn advance<S: Shelf, L: Ledger>(
        &mut self,
        input: &S,
        d: &Delta,
        steps: &mut Steps<L>,
    ) -> Result<Followed, AllocError>
        requires leads { LeadsTo d.now.pieces (S.items input.now) }
        requires stands { StandsFor self.old
            (applied (map inverted d.now.pieces) (S.items input.now)) }
        ensures slots { IfOk result (λ followed. followed.slots.items
            ≡ slots (order_cmp self.old.list.order) (applied (map inverted d.now.pieces) (S.items input.now)) d.now.pieces) }
        ensures stands { OnOk result (StandsFor self.new (S.items input.now)) }
        ensures undo { IfOk result (λ followed. IsUndo followed.undo self.old self.new) }
        ensures err { OnErr result (contents self.new ≡ contents self.old) }
        ensures order { self.new.list.order ≡ self.old.list.order }
        ensures rooms { AreNoMore (rooms self.old) (rooms self.new) }
        ensures counted { (digits : ℕ)
            → length (S.items input.now) < 2 ^ digits
            → old_len d.now.pieces < 2 ^ digits
            → steps.new ≤ steps.old + fresh_len d.now.pieces * (4 * (digits + 1)) }
    {
        let Moves { gone, came, undo } = self.list.advance(input, d, steps)?;
        match self.follow(input, d, gone.as_slice(), came.as_slice(), &undo, steps) {
            Ok((slots, log)) => Ok(Followed {
                slots,
                undo: ClassesUndo::Edits(undo, log),
            }),
            Err(failed) => {
                self.list.retreat(undo);
                Err(failed)
            }
        }
    }

    // Follows with the marks, where the arrangement did; and the touched keys, and the log that takes the marks back.
    fn follow<S: Shelf, L: Ledger>(
        &mut self,
        input: &S,
        d: &Delta,
        gone: &[Ranked],
        came: &[Ranked],
        undo: &ArrangementUndo,
        steps: &mut Steps<L>,
    ) -> Result<(Vec<Slot>, Vec<LogStep<bool>>), AllocError>
        requires leads { LeadsTo d.now.pieces (S.items input.now) }
        requires follows { Follows self.old (undone d.now.pieces (S.items input.now))
            (S.items input.now) d.now.pieces gone.now came.now undo.now }
        ensures slots { IfOk result (λ told. told.0.items
            ≡ slots (order_cmp self.old.list.order) (undone d.now.pieces (S.items input.now)) d.now.pieces) }
        ensures stands { OnOk result (StandsFor self.new (S.items input.now)) }
        ensures list { self.new.list ≡ self.old.list }
        ensures back { IfOk result
            (λ told. played told.1.items self.new.firsts.shown ≡ self.old.firsts.shown) }
        ensures can_go_back { IfOk result
            (λ told. CanPlay stretch_count self.new.firsts.room told.1.items self.new.firsts.shown) }
        ensures err { OnErr result (self.new.firsts.shown ≡ self.old.firsts.shown) }
        ensures room { self.old.firsts.room ≤ self.new.firsts.room }
        ensures counted { (digits : ℕ)
            → old_len d.now.pieces < 2 ^ digits
            → steps.new ≤ steps.old + fresh_len d.now.pieces * digits }
    {
        let _olds = d.old_len();
        let _news = d.new_len();
        let olds = find_touched(self.alloc, &self.firsts, gone)?;
        let log = edits(self.alloc, steps_of(undo))?;
        let back = apply(self.alloc, &mut self.firsts, log)?;
        match self.slots(input, d, olds, came, steps) {
            Ok(slots) => Ok((slots, back)),
            Err(failed) => {
                take_back(&mut self.firsts, back);
                Err(failed)
            }
        }
    }

    // The touched keys, where the classes are those of the new list.
    fn slots<S: Shelf, L: Ledger>(
        &self,
        input: &S,
        d: &Delta,
        mut olds: Vec<Touched>,
        came: &[Ranked],
        steps: &mut Steps<L>,
    ) -> Result<Vec<Slot>, AllocError>
        requires leads { LeadsTo d.now.pieces (S.items input.now) }
        requires stands { StandsFor self.now (S.items input.now) }
        requires came { AreRanked self.now.list.tree.places (sides d.now.pieces).new came.now }
        requires olds { AreTouchedOld (order_cmp self.now.list.order)
            (undone d.now.pieces (S.items input.now)) d.now.pieces olds.items }
        ensures slots { IfOk result (λ told. told.items
            ≡ slots (order_cmp self.now.list.order) (undone d.now.pieces (S.items input.now)) d.now.pieces) }
        ensures counted { (digits : ℕ)
            → old_len d.now.pieces < 2 ^ digits
            → steps.new ≤ steps.old + fresh_len d.now.pieces * digits }
    {
        let _news = d.new_len();
        let mut news = find_touched(self.alloc, &self.firsts, came)?;
        let olds = olds.as_mut_slice();
        let news = news.as_mut_slice();
        meet(self.list.order(), input, d, olds, news, steps);
        told_slots(self.alloc, self, input, d, olds, news)
    }

    /// Becomes other classes, and keeps what they were in the undo.
    pub fn exchange(&mut self, other: Classes) -> ClassesUndo
        ensures value { self.new ≡ other }
        ensures undo { IsUndo result self.old self.new }
    {
        ClassesUndo::Whole(mem::replace(self, other))
    }

    /// Goes back to where the classes stood before their last change, whose undo this is. It takes no memory and compares
    /// nothing.
    pub fn retreat(&mut self, undo: ClassesUndo)
        requires { CanRetreat undo self.old }
        ensures back { contents self.new ≡ before undo self.old }
        ensures rooms { AreNoMore (rooms_back undo self.old) (rooms self.new) }
    {
        match undo {
            ClassesUndo::Edits(steps, log) => {
                self.list.retreat(steps);
                take_back(&mut self.firsts, log);
            }
            ClassesUndo::Whole(whole) => *self = whole,
        }
    }

    /// How many classes there are.
    pub fn len(&self) -> usize
        ensures value { result ≡ count_shown self.now.firsts.shown }
        ensures classes { (xs : List Tree) → StandsFor self.now xs
            → result ≡ length (classes (order_cmp self.now.list.order) xs) }
    {
        self.firsts.shown_len()
    }

    /// The sorted place of the first member of a class.
    pub fn start_of(&self, class: usize) -> usize
        requires { class < count_shown self.now.firsts.shown }
        ensures { IsKthShown class self.now.firsts.shown result }
    {
        match self.firsts.select(class) {
            Some(place) => place,
            None => unreachable!(),
        }
    }

    /// The place in the list of the first member of a class, or `None` where there are no more classes.
    pub fn find_first(&self, class: usize) -> Option<usize>
        ensures { (xs : List Tree) → StandsFor self.now xs
            → result
            ≡ option_map first_of (slice_get (classes (order_cmp self.now.list.order) xs) class) }
    {
        match self.firsts.select(class) {
            Some(place) => {
                if place < self.list.len() {
                    Some(self.list.source_of(place))
                } else {
                    None
                }
            }
            None => None,
        }
    }

    /// The place in the list of the element at a sorted place.
    pub fn source_of(&self, place: usize) -> usize
        requires { place < length self.now.list.tree.places }
        ensures at { slice_get self.now.list.tree.places place ≡ Some result }
    {
        self.list.source_of(place)
    }

    /// The order.
    pub fn order(&self) -> &Order
        ensures { result.now ≡ self.now.list.order }
    {
        self.list.order()
    }
}
