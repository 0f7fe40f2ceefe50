//! The teller of a plan.

ghost use Rattle.std.specs.Prelude.{◌≡◌, ◌+◌, ◌≤◌, ◌<◌, ◌++◌, [], length, All, IfOk, OnOk};
ghost use Rattle.std.specs.List.{AllByRecursion};
ghost use Rattle.std.specs.Vec.{vec_capacity};
ghost use Rattle.spec_states.specs.Wave.{Deltas as ListDeltas};
ghost use Rattle.spec_runs.specs.Telling.{tellings, listener_dependency_order};
ghost use Rattle.gl_tell.specs.Told.{tellings_of, IsFresh};
ghost use Rattle.gl_tell.specs.Heard.{heard_all, AreHeard, HasHeard, AreOnce};
ghost use Rattle.gl_tell.specs.Handed.{AreHanded};

use crate::handing::hand;
use crate::listeners::listeners_by_list;
use crate::telling::{Telling, tell};
use gl_delta::Deltas;
use gl_plan::{ListenerDecl, Plan};
use gl_value::{Items, Memory};
use std::alloc::Global;
use std::marker::Model;

/// Tells the listeners of a plan what became of their lists, and keeps all that was told. Contracts see the plan, the
/// tellings in the order in which they were told, and for how many there is room.
#[derive(Drop)]
pub struct Teller {
    alloc: Global,
    plan: Plan,
    // The numbers of the listeners of each list.
    by_list: Vec<Items<u32>>,
    told: Vec<Telling>,
}

impl Model for Teller {
    ghost use Rattle.std.specs.Prelude.{vec_capacity};
    ghost use Rattle.std.specs.Coded.{codes};
    ghost use Rattle.spec_states.specs.Code.{tree_code};
    ghost use Rattle.spec_states.specs.MatcherCode.{matcher_code};
    ghost use Rattle.spec_states.specs.FuncCode.{func_code};
    ghost use Rattle.spec_states.specs.Piece.{piece_code};
    ghost use Rattle.gl_tell.specs.Told.{tellings_of};
    ghost use Rattle.gl_tell.specs.Teller.{TellerModel, IsTeller};

    ghost Value = { TellerModel };

    ghost coded = { Prim.hlevel (codes, tree_code, matcher_code, func_code, piece_code) };

    ghost view = { λ t. record {
      plan = t.plan;
      told = tellings_of t.told.items;
      room = vec_capacity t.told;
    } };

    ghost invariant = { λ t. IsTeller t.plan t.by_list.items t.told.items };
}

impl Teller {
    /// The teller of a plan, which has told nothing yet. It takes memory for the numbers of the listeners; the plan is
    /// shared.
    pub fn make(alloc: Global, plan: &Plan) -> Result<Teller, Memory>
        ensures plan { IfOk result (λ teller. teller.plan ≡ plan.now) }
        ensures told { IfOk result (λ teller. teller.told ≡ []) }
    {
        let by_list = listeners_by_list(alloc, plan.lists().len(), plan.listeners())?;
        let copy = plan.copy(alloc)?;
        Ok(Teller {
            alloc,
            plan: copy,
            by_list,
            told: Vec::new(alloc),
        })
    }

    /// Makes room for the tellings of one entry.
    pub fn reserve(&mut self) -> Result<(), Memory>
        ensures room { OnOk result
            (length self.new.told + length self.new.plan.listeners ≤ self.new.room) }
        ensures plan { self.new.plan ≡ self.old.plan }
        ensures told { self.new.told ≡ self.old.told }
        ensures more { self.old.room ≤ self.new.room }
    {
        self.told.reserve(self.plan.listeners().len())
    }

    /// The deltas of lists, by their numbers, as deltas of the listeners of those lists, by theirs. Only listeners of lists
    /// that have a delta are gone through. The last one of a list has the delta itself; it takes memory for the copies of
    /// the others.
    pub fn by_listener(&self, mut deltas: Deltas) -> Result<Deltas, Memory>
        requires { length deltas ≡ length self.now.plan.lists }
        ensures { IfOk result (AreHanded self.now.plan deltas) }
    {
        let listeners = self.plan.listeners().len() as u32;
        let mut heard = Deltas::make(self.alloc, listeners)?;
        for (list, listeners) in self.by_list.iter().enumerate() {
            hand(list as u32, listeners.as_slice(), &mut deltas, &mut heard)?;
        }
        Ok(heard)
    }

    /// Tells each listener of the entry at a place the delta under its number, unless that is the identity, in the order
    /// `turn`. An echo listener then tries to remove the first element of its list. It takes no memory, and a step for each
    /// listener.
    pub fn tell(&mut self, place: u64, deltas: Deltas)
        requires reserved { length self.old.told + length self.old.plan.listeners ≤ self.old.room }
        requires deltas { HasHeard self.old.plan deltas }
        ensures told { (lists : ListDeltas) → AreHeard self.old.plan lists deltas
            → self.new.told ≡ self.old.told ++ tellings self.old.plan place lists }
        ensures plan { self.new.plan ≡ self.old.plan }
        ensures room { self.new.room ≡ self.old.room }
    {
        let listeners = self.plan.listeners();
        let turn = self.plan.listener_order();
        tell_all(listeners, turn, place, deltas, &mut self.told);
    }

    /// All tellings of all listeners, in the order in which they were told. None of the changes of their events has been
    /// given yet.
    pub fn told(&self) -> &[Telling]
        ensures told { tellings_of result.now ≡ self.now.told }
        ensures fresh { All IsFresh result.now }
    {
        self.told.as_slice()
    }

    /// The listeners in the order in which they are told: each after those that it is told after, and always the least
    /// number that may come next.
    pub fn turn(&self) -> &[u32]
        ensures { result.now ≡ listener_dependency_order self.now.plan }
    {
        self.plan.listener_order()
    }
}

// Tells the listeners of a turn, one after another.
fn tell_all(
    listeners: &[ListenerDecl],
    turn: &[u32],
    place: u64,
    mut deltas: Deltas,
    told: &mut Vec<Telling>,
)
    requires known { AllByRecursion (λ k. k < length listeners.now) turn.now }
    requires once { AreOnce turn.now }
    requires long { length deltas ≡ length listeners.now }
    requires room { length told.old.items + length turn.now ≤ vec_capacity told.old }
    ensures told { tellings_of told.new.items
        ≡ tellings_of told.old.items ++ heard_all listeners.now place deltas turn.now }
    ensures capacity { vec_capacity told.new ≡ vec_capacity told.old }
    ensures fresh { All IsFresh told.old.items → All IsFresh told.new.items }
{
    for index in 0..turn.len() {
        tell(turn[index], listeners, place, &mut deltas, told);
    }
}
