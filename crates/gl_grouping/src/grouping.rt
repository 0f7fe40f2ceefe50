//! A grouping.

ghost use Rattle.std.specs.Prelude.{◌≡◌, ◌+◌, ◌*◌, ◌^◌, ◌<◌, ◌≤◌, ◌↔◌, ℕ, List, length, map, slice_get, IsSome, IfOk, OnOk, OnErr};
ghost use Rattle.spec_sorting.specs.Tree.{Tree};
ghost use Rattle.spec_sorting.specs.Piece.{inverted, old_len};
ghost use Rattle.spec_sorting.specs.Leads.{LeadsTo, applied};
ghost use Rattle.spec_classes.specs.Grouping.{grouping_view, grouping_follow, grouping_change};
ghost use Rattle.gl_kernel.specs.Found.{found};
ghost use Rattle.gl_classes.specs.Sorting.{order_cmp};
ghost use Rattle.gl_classes.specs.Changes.{fresh_len};
ghost use Rattle.gl_grouping.specs.Stands.{StandsFor, contents, before, rooms, rooms_back, CanRetreat, AreNoMore, IsUndo};

use crate::follow::regroup;
use crate::group::all_groups;
use crate::replaced::replaced;
use gl_classes::{Classes, ClassesUndo, Followed};
use gl_delta::{Delta, Find};
use gl_kernel::{LogStep, ValueList, take_back};
use gl_lang::Order;
use gl_value::{Shelf, Steps, Value};
use std::alloc::{AllocError, Global};
use std::marker::Model;
use std::mem;
use std::sync::ledger::Ledger;

/// The classes of equal key of a list, in key order, each as the list of its members as they stand in the list: the
/// GroupingList of Glazed Lists. The list itself isn't kept, but where its elements stand in sorted order, and the groups.
///
/// To follow a change takes work for the changed elements by a logarithm of the list's length, and for all members of the
/// groups that the change touches: each of these is made anew, once. The others are shared with what they were.
#[derive(Drop)]
pub struct Grouping {
    alloc: Global,
    classes: Classes,
    groups: ValueList,
}

impl Model for Grouping {
    ghost use Rattle.std.specs.Coded.{codes};
    ghost use Rattle.gl_kernel.specs.Values.{stored_code};
    ghost use Rattle.gl_grouping.specs.Kept.{Kept};

    ghost Value = { Kept };

    ghost coded = { Prim.hlevel (codes, stored_code) };

    ghost view = { λ g. record { classes = g.classes; groups = g.groups } };
}

/// What takes a grouping back to where it stood before a change: edits, or what it was.
#[derive(Drop)]
pub enum GroupingUndo {
    Edits(ClassesUndo, Vec<LogStep<Value>>),
    Whole(Grouping),
}

impl Grouping {
    /// The grouping of a list. It takes memory for the list's length, and compares for each element at most three times the
    /// binary digits of that length, and three times more.
    pub fn make<S: Shelf, L: Ledger>(
        alloc: Global,
        param: Order,
        input: &S,
        steps: &mut Steps<L>,
    ) -> Result<Grouping, AllocError>
        requires few { length (S.items input.now) ≤ 2147483647 }
        ensures stands { IfOk result (λ grouping. StandsFor grouping (S.items input.now)) }
        ensures order { IfOk result (λ grouping. grouping.classes.list.order ≡ param) }
        ensures counted { (digits : ℕ)
            → length (S.items input.now) < 2 ^ digits
            → steps.new ≤ steps.old + length (S.items input.now) * (4 * (digits + 1)) }
    {
        let classes = Classes::make(alloc, param, input, steps)?;
        let groups = all_groups(alloc, &classes, input)?;
        Ok(Grouping {
            alloc,
            classes,
            groups,
        })
    }

    /// Follows a change of the list, whose new side is `input`. A group is kept exactly where no member of it was inserted,
    /// deleted or updated. It compares for each inserted and each updated element alone, and takes memory for what changed
    /// and for the lists of the members of the groups that it touches.
    pub fn advance<S: Shelf, L: Ledger>(
        &mut self,
        input: &S,
        d: &Delta,
        steps: &mut Steps<L>,
    ) -> Result<(Delta, GroupingUndo), AllocError>
        requires leads { LeadsTo d.now.pieces (S.items input.now) }
        requires stands { StandsFor self.old
            (applied (map inverted d.now.pieces) (S.items input.now)) }
        ensures pieces { IfOk result (λ told. told.0.pieces
            ≡ grouping_follow (order_cmp self.old.classes.list.order) (applied (map inverted d.now.pieces) (S.items input.now)) d.now.pieces) }
        ensures stands { OnOk result (StandsFor self.new (S.items input.now)) }
        ensures undo { IfOk result (λ told. IsUndo told.1 self.old self.new) }
        ensures err { OnErr result (contents self.new ≡ contents self.old) }
        ensures order { self.new.classes.list.order ≡ self.old.classes.list.order }
        ensures rooms { AreNoMore (rooms self.old) (rooms self.new) }
        ensures counted { (digits : ℕ)
            → length (S.items input.now) < 2 ^ digits
            → old_len d.now.pieces < 2 ^ digits
            → steps.new ≤ steps.old + fresh_len d.now.pieces * (4 * (digits + 1)) }
    {
        let _olds = d.old_len();
        let _news = d.new_len();
        let Followed { slots, undo } = self.classes.advance(input, d, steps)?;
        match regroup(
            self.alloc,
            &self.classes,
            &mut self.groups,
            input,
            slots.as_slice(),
        ) {
            Ok((out, log)) => Ok((out, GroupingUndo::Edits(undo, log))),
            Err(failed) => {
                self.classes.retreat(undo);
                Err(failed)
            }
        }
    }

    /// Takes another order in place of the one that it shows by: all groups are deleted and inserted. It compares as `make`
    /// does, and takes memory for the list's length.
    pub fn change<S: Shelf, L: Ledger>(
        &mut self,
        param: Order,
        input: &S,
        steps: &mut Steps<L>,
    ) -> Result<(Delta, GroupingUndo), AllocError>
        requires stands { StandsFor self.old (S.items input.now) }
        requires few { length (S.items input.now) ≤ 2147483647 }
        ensures pieces { IfOk result (λ told. told.0.pieces
            ≡ grouping_change (order_cmp self.old.classes.list.order) (order_cmp param) (S.items input.now)) }
        ensures stands { OnOk result (StandsFor self.new (S.items input.now)) }
        ensures order { OnOk result (self.new.classes.list.order ≡ param) }
        ensures undo { IfOk result (λ told. IsUndo told.1 self.old self.new) }
        ensures err { OnErr result (self.new ≡ self.old) }
        ensures counted { (digits : ℕ)
            → length (S.items input.now) < 2 ^ digits
            → steps.new ≤ steps.old + length (S.items input.now) * (4 * (digits + 1)) }
    {
        let other = Grouping::make(self.alloc, param, input, steps)?;
        let out = replaced(self.alloc, &self.groups, &other.groups)?;
        Ok((out, self.exchange(other)))
    }

    // Becomes another grouping, and keeps the one that it was in the undo.
    fn exchange(&mut self, other: Grouping) -> GroupingUndo
        ensures value { self.new ≡ other }
        ensures undo { IsUndo result self.old self.new }
    {
        GroupingUndo::Whole(mem::replace(self, other))
    }

    /// Goes back to where the grouping stood before its last change, whose undo this is. It takes no memory and compares
    /// nothing.
    pub fn retreat(&mut self, undo: GroupingUndo)
        requires { CanRetreat undo self.old }
        ensures back { contents self.new ≡ before undo self.old }
        ensures rooms { AreNoMore (rooms_back undo self.old) (rooms self.new) }
    {
        match undo {
            GroupingUndo::Edits(classes, log) => {
                self.classes.retreat(classes);
                take_back(&mut self.groups, log);
            }
            GroupingUndo::Whole(whole) => *self = whole,
        }
    }

    /// How many groups are shown.
    pub fn len(&self) -> usize
        ensures view { (xs : List Tree) → StandsFor self.now xs
            → result ≡ length (grouping_view (order_cmp self.now.classes.list.order) xs) }
        ensures len { result ≡ length self.now.groups.values }
    {
        self.groups.len()
    }

    /// Where the group that is shown at a place stands, or `None` exactly where the place isn't below the length.
    pub fn find(&self, place: usize) -> Option<Find<'_>>
        ensures some { IsSome result ↔ (place < length self.now.groups.values) }
        ensures found { (xs : List Tree) → StandsFor self.now xs
            → found result xs
            ≡ slice_get (grouping_view (order_cmp self.now.classes.list.order) xs) place }
    {
        match self.groups.get(place) {
            Some(group) => Some(Find::Own(group)),
            None => None,
        }
    }

    /// The order that it shows by.
    pub fn order(&self) -> &Order
        ensures { result.now ≡ self.now.classes.list.order }
    {
        self.classes.order()
    }
}
