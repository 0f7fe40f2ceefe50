//! A list that can be held: all that goes by its kind.

ghost use Rattle.std.specs.Prelude.{◌≡◌, ◌≤◌, ℕ, List, true, Some, length, slice_get, IfOk, IfErr, OnOk, OnErr};
ghost use Rattle.spec_states.specs.Tree.{Tree};
ghost use Rattle.spec_states.specs.Piece.{old_len};
ghost use Rattle.spec_states.specs.Shown.{is_held, shown_of};
ghost use Rattle.spec_states.specs.Shown.{undone_all};
ghost use Rattle.spec_states.specs.Wave.{command as made_by};
ghost use Rattle.spec_states.specs.Laws.{LedTo};
ghost use Rattle.gl_source.specs.Found.{found};
ghost use Rattle.gl_held.specs.Levels.{BeginsWith, IsShown, held_len};
ghost use Rattle.gl_graph.specs.declared.held.Held.TheVariants as Held;
ghost use Rattle.gl_graph.specs.Held.{own_of_held, deltas_of, StandsFor, contents, room_of, before, CanRetreat, IsUndo, Takes, HasTaken, told_at, composed_with};
ghost use Rattle.gl_graph.specs.Holds.{hold_of};
ghost use Rattle.gl_graph.specs.Room.{IsNoMore};
ghost use Rattle.gl_graph.specs.Spots.{spotted, OnSpot};
ghost use Rattle.gl_graph.specs.Spread.{IsRefusalOf};
ghost use Rattle.gl_graph.specs.Faults.{IsRefusalByClose};

use crate::graph::Refused;
use crate::hold::Hold;
use crate::spot::{Spot, spot_in};
use gl_held::{CloseFault, Closed, Freezable, FreezeFault, HeldUndo, ThawFault, Transaction};
use gl_kernels::{Delta, Find};
use gl_plan::Command;
use std::alloc::AllocError;

/// A list that can be held, by its kind.
#[derive(Drop)]
pub enum Held {
    Transaction(Transaction),
    Freezable(Freezable),
}

impl Held {
    /// Whether it is held.
    pub fn hold(&self) -> Hold
        ensures { (input : ℕ) → result ≡ hold_of (own_of_held input self.now) }
    {
        match self {
            Held::Transaction(transaction) => match transaction.depth() {
                0 => Hold::Free,
                depth => Hold::Open(depth),
            },
            Held::Freezable(freezable) => {
                if freezable.is_frozen() {
                    Hold::Frozen
                } else {
                    Hold::Free
                }
            }
        }
    }

    pub fn is_held(&self) -> bool
        ensures { (input : ℕ) → result ≡ is_held (own_of_held input self.now) }
    {
        match self {
            Held::Transaction(transaction) => transaction.depth() > 0,
            Held::Freezable(freezable) => freezable.is_frozen(),
        }
    }

    /// How many elements are shown, `None` exactly where it isn't held and shows what its input does.
    pub fn held_len(&self) -> Option<usize>
        ensures { result ≡ held_len (deltas_of self.now) }
    {
        match self {
            Held::Transaction(transaction) => transaction.held_len(),
            Held::Freezable(freezable) => freezable.held_len(),
        }
    }

    /// Where the element stands that is shown at a position, over the input of this number: in the list itself, or at a
    /// position of the input.
    pub fn find(&self, input: u32, position: usize) -> Option<Spot<'_>>
        ensures spotted { (shows : ℕ → List Tree) → StandsFor self.now (shows input)
            → spotted result shows
            ≡ slice_get (shown_of (own_of_held input self.now) shows) position }
        ensures on { OnSpot (λ list. list ≡ input) result }
    {
        match self.held_len() {
            None => Some(Spot::Of(input, position)),
            Some(len) => {
                if position >= len {
                    return None;
                }
                spot_in(input, Some(self.at(position)))
            }
        }
    }

    // The same, where a position is that of an element that is shown.
    fn at(&self, position: usize) -> Find<'_>
        requires { IsShown position (deltas_of self.now) }
        ensures { (ys : List Tree) → LedTo (deltas_of self.now) ys
            → found (Some result) ys ≡ slice_get (undone_all (deltas_of self.now) ys) position }
    {
        match self {
            Held::Transaction(transaction) => transaction.find(position),
            Held::Freezable(freezable) => freezable.find(position),
        }
    }

    /// Takes a command that is about it, over an input of so many elements: it tells the delta with which the wave of the
    /// command begins, or nothing where none begins. It takes memory by what it keeps.
    pub fn take(
        &mut self,
        command: &Command,
        len: usize,
    ) -> Result<(Option<Delta>, HeldUndo), Refused>
        requires takes { Takes command.now self.old }
        requires begins { BeginsWith len (deltas_of self.old) }
        requires few { len ≤ 2147483647 }
        ensures ok { IfOk result (HasTaken command.now len self.old self.new) }
        ensures err { OnErr result (contents self.new ≡ contents self.old) }
        ensures refused { (input : ℕ)
            → IfErr result (IsRefusalOf (own_of_held input self.old) (made_by command.now)) }
        ensures room { IsNoMore (room_of self.old) (room_of self.new) }
    {
        match self {
            Held::Transaction(transaction) => level(transaction, command, len),
            Held::Freezable(freezable) => freeze(freezable, command, len),
        }
    }

    /// Keeps a delta of its input while it is held. It takes memory by what it keeps.
    pub fn compose(&mut self, d: &Delta) -> Result<HeldUndo, AllocError>
        requires held { (input : ℕ) → is_held (own_of_held input self.old) ≡ true }
        requires begins { BeginsWith (old_len d.now.pieces) (deltas_of self.old) }
        ensures kept { OnOk result (contents self.new ≡ composed_with d.now.pieces self.old) }
        ensures undo { IfOk result (λ undo. IsUndo undo self.old self.new) }
        ensures err { OnErr result (contents self.new ≡ contents self.old) }
        ensures room { IsNoMore (room_of self.old) (room_of self.new) }
    {
        match self {
            Held::Transaction(transaction) => transaction.follow(d),
            Held::Freezable(freezable) => freezable.follow(d),
        }
    }

    /// Goes back to where it stood before its last change, whose undo this is. It takes no memory.
    pub fn retreat(&mut self, undo: HeldUndo)
        requires { CanRetreat undo self.old }
        ensures back { contents self.new ≡ before undo self.old }
        ensures room { IsNoMore (room_of self.old) (room_of self.new) }
    {
        match self {
            Held::Transaction(transaction) => transaction.retreat(undo),
            Held::Freezable(freezable) => freezable.retreat(undo),
        }
    }
}

// A level is opened, or the innermost one is committed.
fn level(
    transaction: &mut Transaction,
    command: &Command,
    len: usize,
) -> Result<(Option<Delta>, HeldUndo), Refused>
    requires takes { Takes command.now (Held.Transaction transaction.old) }
    requires begins { BeginsWith len transaction.old.levels }
    requires few { len ≤ 2147483647 }
    ensures ok { IfOk result (HasTaken command.now len (Held.Transaction transaction.old)
        (Held.Transaction transaction.new)) }
    ensures err { OnErr result (transaction.new.levels ≡ transaction.old.levels) }
    ensures refused { (input : ℕ) → IfErr result
        (IsRefusalOf (own_of_held input (Held.Transaction transaction.old)) (made_by command.now)) }
    ensures room { transaction.old.room ≤ transaction.new.room }
{
    match command {
        Command::Begin { list: _ } => {
            let undo = transaction.begin(len)?;
            Ok((None, undo))
        }
        Command::Commit { list: _ } => match transaction.commit() {
            Ok((closed, undo)) => Ok((told_of(closed), undo)),
            Err(fault) => Err(close_refusal(fault)),
        },
        _ => unreachable!(),
    }
}

// What a commit tells of the list.
fn told_of(closed: Closed) -> Option<Delta>
    ensures { result ≡ told_at closed }
{
    match closed {
        Closed::Inner => None,
        Closed::Outer(d) => Some(d),
    }
}

// A list is frozen, or let go.
fn freeze(
    freezable: &mut Freezable,
    command: &Command,
    len: usize,
) -> Result<(Option<Delta>, HeldUndo), Refused>
    requires takes { Takes command.now (Held.Freezable freezable.old) }
    requires few { len ≤ 2147483647 }
    ensures ok { IfOk result (HasTaken command.now len (Held.Freezable freezable.old)
        (Held.Freezable freezable.new)) }
    ensures err { OnErr result (freezable.new ≡ freezable.old) }
    ensures refused { (input : ℕ) → IfErr result
        (IsRefusalOf (own_of_held input (Held.Freezable freezable.old)) (made_by command.now)) }
{
    match command {
        Command::Freeze { list: _ } => match freezable.freeze(len) {
            Ok(undo) => Ok((None, undo)),
            Err(FreezeFault::AlreadyFrozen) => Err(Refused::AlreadyFrozen),
            Err(FreezeFault::Memory) => Err(Refused::Memory),
        },
        Command::Thaw { list: _ } => match freezable.thaw() {
            Ok((d, undo)) => Ok((Some(d), undo)),
            Err(ThawFault::NotFrozen) => Err(Refused::NotFrozen),
            Err(ThawFault::Memory) => Err(Refused::Memory),
        },
        _ => unreachable!(),
    }
}

/// Why a level isn't closed.
pub(crate) fn close_refusal(fault: CloseFault) -> Refused
    ensures { IsRefusalByClose fault result }
{
    match fault {
        CloseFault::NotOpen => Refused::NotOpen,
        CloseFault::Memory => Refused::Memory,
    }
}
