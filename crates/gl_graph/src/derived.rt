//! A list over one input: all that goes by its kind.

ghost use Rattle.std.specs.Prelude.{◌≡◌, ◌≤◌, ◌+◌, ℕ, List, Some, length, slice_get, IfOk, IfErr, OnOk, OnErr};
ghost use Rattle.spec_states.specs.Tree.{Tree};
ghost use Rattle.spec_states.specs.Leads.{LeadsTo, undone};
ghost use Rattle.spec_states.specs.Kind.{kind as kind_of};
ghost use Rattle.spec_states.specs.Matcher.{accepts};
ghost use Rattle.spec_states.specs.Filter.{filter_change};
ghost use Rattle.spec_states.specs.View.{view_of, follow_of, Parameter};
ghost use Rattle.spec_states.specs.Wave.{parameter_of, parameter_change, view_after};
ghost use Rattle.gl_kernels.specs.Stands as filter_stands;
ghost use Rattle.gl_kernels.specs.Told.{change_cost};
ghost use Rattle.gl_graph.specs.Spots.{spotted, OnSpot};
ghost use Rattle.gl_graph.specs.Commands.{Gives};
ghost use Rattle.gl_graph.specs.Room.{IsNoMore};
ghost use Rattle.gl_graph.specs.Derived.{view_of_derived, StandsFor, contents, room_of, room_back, before, CanRetreat, IsUndo, IsOver, limit_of, AsksOf, AsksFor};

use crate::command::{bounds_of, func_of, matcher_of, order_of};
use crate::spot::{Spot, child_in, spot_in};
use gl_kernels::{
    Collection, CollectionUndo, Delta, Filter, FilterUndo, Function, FunctionUndo, Grouping,
    GroupingUndo, KernelFault, RangeKernel, RangeUndo, Sorted, SortedUndo, Unique, UniqueUndo,
    kind,
};
use gl_plan::{Command, Matcher, Shelf, Steps};
use std::alloc::{AllocError, Global};
use std::sync::ledger::Ledger;

/// A list over one input, by its kind.
#[derive(Drop)]
pub enum Derived {
    Filter(Filter),
    Sorted(Sorted),
    Unique(Unique),
    Grouping(Grouping),
    Range(RangeKernel),
    Function(Function),
    Collection(Collection),
}

/// What takes such a list back to where it stood before a change.
#[derive(Drop)]
pub enum DerivedUndo {
    Filter(FilterUndo),
    Sorted(SortedUndo),
    Unique(UniqueUndo),
    Grouping(GroupingUndo),
    Range(RangeUndo),
    Function(FunctionUndo),
    Collection(CollectionUndo),
}

impl Derived {
    /// How many elements the list shows.
    pub fn len(&self) -> usize
        ensures { (xs : List Tree) → StandsFor self.now xs
            → result ≡ length (view_of (view_of_derived self.now) xs) }
    {
        match self {
            Derived::Filter(filter) => filter.len(),
            Derived::Sorted(sorted) => sorted.len(),
            Derived::Unique(unique) => unique.len(),
            Derived::Grouping(grouping) => grouping.len(),
            Derived::Range(range) => range.len(),
            Derived::Function(function) => function.len(),
            Derived::Collection(collection) => collection.len(),
        }
    }

    /// Where the element stands that is shown at a position, or `None` exactly where the position isn't below the length.
    /// The list is over the input of this number.
    pub fn find(&self, input: u32, position: usize) -> Option<Spot<'_>>
        ensures spotted { (shows : ℕ → List Tree) → StandsFor self.now (shows input)
            → spotted result shows
            ≡ slice_get (view_of (view_of_derived self.now) (shows input)) position }
        ensures on { OnSpot (λ list. list ≡ input) result }
    {
        match self {
            Derived::Filter(filter) => spot_in(input, filter.find(position)),
            Derived::Sorted(sorted) => spot_in(input, sorted.find(position)),
            Derived::Unique(unique) => spot_in(input, unique.find(position)),
            Derived::Grouping(grouping) => spot_in(input, grouping.find(position)),
            Derived::Range(range) => spot_in(input, range.find(position)),
            Derived::Function(function) => spot_in(input, function.find(position)),
            Derived::Collection(collection) => {
                child_in(input, collection.kids(), collection.find(position))
            }
        }
    }

    /// Follows a change of its input, which then shows `input`. It takes memory for what it tells.
    pub fn advance<S: Shelf, L: Ledger>(
        &mut self,
        input: &S,
        d: &Delta,
        steps: &mut Steps<L>,
    ) -> Result<(Delta, DerivedUndo), KernelFault>
        requires leads { LeadsTo d.now.pieces (S.items input.now) }
        requires stands { StandsFor self.old (undone d.now.pieces (S.items input.now)) }
        ensures delta { IfOk result (λ told. told.0.pieces
            ≡ follow_of (view_of_derived self.old) (undone d.now.pieces (S.items input.now)) d.now.pieces) }
        ensures stands { OnOk result (StandsFor self.new (S.items input.now)) }
        ensures view { OnOk result (view_of_derived self.new ≡ view_of_derived self.old) }
        ensures undo { IfOk result (λ told. IsUndo told.1 self.old self.new) }
        ensures err { OnErr result (contents self.new ≡ contents self.old) }
        ensures room { OnErr result (IsNoMore (room_of self.old) (room_of self.new)) }
        ensures limit { OnOk result (limit_of self.new ≡ limit_of self.old) }
        ensures over { IfErr result (IsOver self.old (S.items input.now)) }
        ensures counted { AsksOf self.old d.now.pieces (length (S.items input.now)) steps.old
            steps.new }
    {
        match self {
            Derived::Filter(filter) => match filter.advance(input, d, steps) {
                Ok((out, undo)) => Ok((out, DerivedUndo::Filter(undo))),
                Err(_) => Err(KernelFault::Memory),
            },
            Derived::Sorted(sorted) => match sorted.advance(input, d, steps) {
                Ok((out, undo)) => Ok((out, DerivedUndo::Sorted(undo))),
                Err(_) => Err(KernelFault::Memory),
            },
            Derived::Unique(unique) => match unique.advance(input, d, steps) {
                Ok((out, undo)) => Ok((out, DerivedUndo::Unique(undo))),
                Err(_) => Err(KernelFault::Memory),
            },
            Derived::Grouping(grouping) => match grouping.advance(input, d, steps) {
                Ok((out, undo)) => Ok((out, DerivedUndo::Grouping(undo))),
                Err(_) => Err(KernelFault::Memory),
            },
            Derived::Range(range) => match range.advance(input, d, steps) {
                Ok((out, undo)) => Ok((out, DerivedUndo::Range(undo))),
                Err(_) => Err(KernelFault::Memory),
            },
            Derived::Function(function) => match function.advance(input, d, steps) {
                Ok((out, undo)) => Ok((out, DerivedUndo::Function(undo))),
                Err(_) => Err(KernelFault::Memory),
            },
            Derived::Collection(collection) => match collection.advance(input, d, steps) {
                Ok((out, undo)) => Ok((out, DerivedUndo::Collection(undo))),
                Err(fault) => Err(fault),
            },
        }
    }

    /// Takes the parameter that a command gives in place of its own. It takes memory for what it tells.
    pub fn change<S: Shelf, L: Ledger>(
        &mut self,
        alloc: Global,
        command: &Command,
        input: &S,
        steps: &mut Steps<L>,
    ) -> Result<(Delta, DerivedUndo), AllocError>
        requires gives { Gives (view_of_derived self.old) (parameter_of command.now) }
        requires stands { StandsFor self.old (S.items input.now) }
        requires few { length (S.items input.now) ≤ 2147483647 }
        ensures delta { IfOk result (λ told. told.0.pieces
            ≡ parameter_change (parameter_of command.now) (view_of_derived self.old) (S.items input.now)) }
        ensures stands { OnOk result (StandsFor self.new (S.items input.now)) }
        ensures view { OnOk result
            (view_of_derived self.new ≡ view_after (parameter_of command.now) (view_of_derived self.old)) }
        ensures undo { IfOk result (λ told. IsUndo told.1 self.old self.new) }
        ensures err { OnErr result (contents self.new ≡ contents self.old) }
        ensures room { OnErr result (IsNoMore (room_of self.old) (room_of self.new)) }
        ensures limit { OnOk result (limit_of self.new ≡ limit_of self.old) }
        ensures counted { (given : Parameter) → parameter_of command.now ≡ Some given
            → AsksFor self.old given (length (S.items input.now)) steps.old steps.new }
    {
        match self {
            Derived::Filter(filter) => {
                let (out, undo) = change_filter(filter, alloc, matcher_of(command), input, steps)?;
                Ok((out, DerivedUndo::Filter(undo)))
            }
            Derived::Sorted(sorted) => {
                let (out, undo) = sorted.change(order_of(command).copy(alloc)?, input, steps)?;
                Ok((out, DerivedUndo::Sorted(undo)))
            }
            Derived::Unique(unique) => {
                let (out, undo) = unique.change(order_of(command).copy(alloc)?, input, steps)?;
                Ok((out, DerivedUndo::Unique(undo)))
            }
            Derived::Grouping(grouping) => {
                let (out, undo) = grouping.change(order_of(command).copy(alloc)?, input, steps)?;
                Ok((out, DerivedUndo::Grouping(undo)))
            }
            Derived::Range(range) => {
                let (out, undo) = range.change(bounds_of(command), input)?;
                Ok((out, DerivedUndo::Range(undo)))
            }
            Derived::Function(function) => {
                let (out, undo) = function.change(func_of(command).copy(alloc)?, input)?;
                Ok((out, DerivedUndo::Function(undo)))
            }
            Derived::Collection(_) => unreachable!(),
        }
    }

    /// Goes back to where the list stood before its last change, whose undo this is. It takes no memory.
    pub fn retreat(&mut self, undo: DerivedUndo)
        requires { CanRetreat undo self.old }
        ensures back { contents self.new ≡ before undo self.old }
        ensures room { IsNoMore (room_back undo self.old) (room_of self.new) }
    {
        match undo {
            DerivedUndo::Filter(undo) => match self {
                Derived::Filter(filter) => filter.retreat(undo),
                _ => unreachable!(),
            },
            DerivedUndo::Sorted(undo) => match self {
                Derived::Sorted(sorted) => sorted.retreat(undo),
                _ => unreachable!(),
            },
            DerivedUndo::Unique(undo) => match self {
                Derived::Unique(unique) => unique.retreat(undo),
                _ => unreachable!(),
            },
            DerivedUndo::Grouping(undo) => match self {
                Derived::Grouping(grouping) => grouping.retreat(undo),
                _ => unreachable!(),
            },
            DerivedUndo::Range(undo) => match self {
                Derived::Range(range) => range.retreat(undo),
                _ => unreachable!(),
            },
            DerivedUndo::Function(undo) => match self {
                Derived::Function(function) => function.retreat(undo),
                _ => unreachable!(),
            },
            DerivedUndo::Collection(undo) => match self {
                Derived::Collection(collection) => collection.retreat(undo),
                _ => unreachable!(),
            },
        }
    }
}

// A filter takes another matcher.
fn change_filter<S: Shelf, L: Ledger>(
    filter: &mut Filter,
    alloc: Global,
    matcher: &Matcher,
    input: &S,
    steps: &mut Steps<L>,
) -> Result<(Delta, FilterUndo), AllocError>
    requires stands { filter_stands.StandsFor filter.old (S.items input.now) }
    requires few { length (S.items input.now) ≤ 2147483647 }
    ensures delta { IfOk result (λ told. told.0.pieces
        ≡ filter_change (accepts filter.old.matcher) (accepts matcher.now) (S.items input.now)) }
    ensures stands { OnOk result (filter_stands.StandsFor filter.new (S.items input.now)) }
    ensures matcher { OnOk result (filter.new.matcher ≡ matcher.now) }
    ensures undo { IfOk result (λ told. filter_stands.IsUndo told.1 filter.old filter.new) }
    ensures err { OnErr result
        (filter_stands.contents filter.new ≡ filter_stands.contents filter.old) }
    ensures room { filter.old.room ≤ filter.new.room }
    ensures counted { steps.new
        ≤ steps.old + change_cost (kind_of filter.old.matcher matcher.now) filter.old.shown }
{
    let kind = kind(filter.matcher(), matcher);
    filter.change(matcher.copy(alloc)?, kind, input, steps)
}
