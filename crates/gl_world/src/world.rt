//! The world of a plan.

ghost use Rattle.std.specs.Prelude.{◌≡◌, ◌<◌, ◌≤◌, [], length, slice_get, Some, None, All, IfOk, IfErr, OnOk, OnErr};
ghost use Rattle.std.specs.Option.{option_copied};
ghost use Rattle.spec_states.specs.Opening.{opening};
ghost use Rattle.spec_states.specs.Shown.{EachShowsItsView};
ghost use Rattle.spec_states.specs.Plan.{proxies_of};
ghost use Rattle.spec_states.specs.State.{own_at};
ghost use Rattle.spec_states.specs.Step.{too_long};
ghost use Rattle.spec_runs.specs.Fits.{Fits};
ghost use Rattle.spec_runs.specs.Run.{run, left_to, replies_at, shown_after};
ghost use Rattle.spec_runs.specs.Telling.{listener_dependency_order};
ghost use Rattle.gl_graph.specs.Build.{IsReason};
ghost use Rattle.gl_graph.specs.Holds.{hold_of};
ghost use Rattle.gl_tell.specs.Told.{tellings_of, IsFresh};

use crate::entering::enter;
use crate::log::Log;
use crate::next::{Next, Spent};
use crate::pump::take_pump;
use crate::pumped::{Idle, Pumped};
use crate::section::take_all;
use gl_graph::{BuildFault, Graph, Hold, PumpFault};
use gl_outside::Actor;
use gl_plan::{Plan, Reply};
use gl_tell::{Teller, Telling};
use gl_value::{Memory, Steps, Value};
use std::alloc::Global;
use std::marker::{Model, PhantomData};
use std::sync::ledger::Ledger;

/// Names one run of a program. It has no part at run time.
pub trait RunName {}

/// The lists of a plan, as the entries so far have left them.
#[derive(Drop)]
pub struct World<N: RunName> {
    alloc: Global,
    plan: Plan,
    graph: Graph,
    log: Log,
    teller: Teller,
    taken: Vec<usize>,
    name: PhantomData<N>,
}

impl<N: RunName> Model for World<N> {
    ghost use Rattle.std.specs.Coded.{codes};
    ghost use Rattle.spec_states.specs.Code.{tree_code};
    ghost use Rattle.spec_states.specs.MatcherCode.{matcher_code};
    ghost use Rattle.spec_states.specs.FuncCode.{func_code};
    ghost use Rattle.gl_world.specs.History.{History};
    ghost use Rattle.gl_world.specs.World.{IsWorld};

    ghost Value = { History };

    ghost coded = { Prim.hlevel (codes, tree_code, matcher_code, func_code) };

    ghost view = { λ w. record { plan = w.plan; order = w.log.order.items } };

    ghost invariant = { λ w. IsWorld w.plan w.log.order.items w.graph w.log.replies.items w.teller w.taken.items };
}

impl<N: RunName> World<N> {
    ghost use Rattle.gl_world.specs.Next.{TakesSection};
    ghost use Rattle.gl_world.specs.Pumped.{TakesPump};

    /// The world of the plan before its first entry. It takes memory for what its lists keep; the plan is shared.
    pub fn open(alloc: Global, plan: &Plan) -> Result<World<N>, BuildFault>
        ensures world { IfOk result (λ w. w ≡ record { plan = plan.now; order = [] }) }
        ensures within { OnOk result (too_long plan.now.limit (opening plan.now) ≡ None) }
        ensures fault { IfErr result (IsReason plan.now.limit (opening plan.now)) }
    {
        let taken = vec![in alloc; 0usize; plan.writers() as usize]?;
        let copy = plan.copy(alloc)?;
        let teller = Teller::make(alloc, plan)?;
        let graph = Graph::build(alloc, plan)?;
        Ok(World {
            alloc,
            plan: copy,
            graph,
            log: Log::new(alloc),
            teller,
            taken,
            name: PhantomData,
        })
    }

    /// The plan.
    pub fn plan(&self) -> &Plan
        ensures { result.now ≡ self.now.plan }
    {
        &self.plan
    }

    /// The actors of the entries so far.
    pub fn order(&self) -> &[Actor]
        ensures order { result.now ≡ self.now.order }
        ensures fits { Fits self.now.plan self.now.order }
    {
        self.log.order.as_slice()
    }

    /// The replies of an entry to its commands.
    pub fn replies(&self, place: u64) -> &[Reply]
        requires { place < length self.now.order }
        ensures { result.now ≡ replies_at self.now.plan self.now.order place }
    {
        match self.log.replies.get(place as usize) {
            Some(replies) => replies.as_slice(),
            None => &[],
        }
    }

    /// All tellings of all listeners, in the order in which they were told.
    pub fn told(&self) -> &[Telling]
        ensures told { tellings_of result.now ≡ (run self.now.plan self.now.order).told }
        ensures fresh { All IsFresh result.now }
    {
        self.teller.told()
    }

    /// The listeners in the order in which they are told at an entry.
    pub fn turn(&self) -> &[u32]
        ensures { result.now ≡ listener_dependency_order self.now.plan }
    {
        self.teller.turn()
    }

    /// How many sections a writer has left.
    pub fn left(&self, writer: u32) -> usize
        requires { writer < length self.now.plan.writers }
        ensures { result ≡ left_to self.now.plan writer self.now.order }
    {
        self.plan
            .sections(writer)
            .saturating_sub(self.taken[writer as usize])
    }

    /// How many elements a list shows.
    pub fn len(&self, list: u32) -> usize
        requires { list < length self.now.plan.lists }
        ensures len { result ≡ length (shown_after self.now.plan self.now.order list) }
        ensures few { result ≤ self.now.plan.limit }
    {
        self.graph.law();
        self.graph.len(list)
    }

    /// What a list shows at a place.
    pub fn shown(&self, list: u32, place: usize) -> Option<&Value>
        requires { list < length self.now.plan.lists }
        ensures value { option_copied result
            ≡ slice_get (shown_after self.now.plan self.now.order list) place }
        ensures views { EachShowsItsView (run self.now.plan self.now.order).state }
    {
        self.graph.get(list, place)
    }

    /// Whether a list is held, or how much a proxy is yet to take.
    pub fn hold(&self, list: u32) -> Hold
        requires { list < length self.now.plan.lists }
        ensures { result ≡ hold_of (own_at (run self.now.plan self.now.order).state list) }
    {
        self.graph.hold(list)
    }

    /// Takes a writer's next section, as one entry; its place among the entries is answered. The room for its entry and its
    /// tellings is made first; it then takes memory for its replies and its changes, for a copy of what each listener but the
    /// last of a list is told, and for one of what each proxy queues. A section that finds none goes back by the undos of its
    /// commands.
    pub fn section<L: Ledger>(
        &mut self,
        writer: u32,
        steps: &mut Steps<L>,
    ) -> Result<Next<N>, Memory>
        requires { writer < length self.old.plan.writers }
        ensures taken { IfOk result (λ next. TakesSection writer self.old next self.new) }
        ensures err { OnErr result (self.new ≡ self.old) }
    {
        let section = self.taken[writer as usize];
        if section >= self.plan.sections(writer) {
            return Ok(Next::None(Spent {
                writer,
                name: PhantomData,
            }));
        }
        self.teller.reserve()?;
        self.log.reserve()?;
        let taken = take_all(
            self.alloc,
            &mut self.graph,
            self.plan.lists().len() as u32,
            self.plan.commands(writer, section),
            steps,
        )?;
        let place = enter(
            self.alloc,
            &self.plan,
            &mut self.graph,
            &mut self.log,
            &mut self.teller,
            Actor::Writer(writer),
            taken,
        )?;
        self.taken[writer as usize] = section + 1;
        Ok(Next::Some(place))
    }

    /// Takes the first delta that a proxy is yet to take, as one entry; its place among the entries is answered. Proxies are
    /// numbered as actors, by their place among the plan's. It takes memory as a section does, and goes back where it finds
    /// none.
    pub fn pump<L: Ledger>(&mut self, proxy: u32, steps: &mut Steps<L>) -> Result<Pumped<N>, Memory>
        requires { proxy < length (proxies_of self.old.plan) }
        ensures taken { IfOk result (λ pumped. TakesPump proxy self.old pumped self.new) }
        ensures err { OnErr result (self.new ≡ self.old) }
    {
        let list = list_of(&self.plan, proxy);
        self.teller.reserve()?;
        self.log.reserve()?;
        match take_pump(self.alloc, &mut self.graph, list, steps) {
            Ok(taken) => {
                let place = enter(
                    self.alloc,
                    &self.plan,
                    &mut self.graph,
                    &mut self.log,
                    &mut self.teller,
                    Actor::Proxy(proxy),
                    taken,
                )?;
                Ok(Pumped::Done(place))
            }
            Err(PumpFault::Nothing) => Ok(Pumped::Nothing(Idle {
                proxy,
                entries: self.log.order.len() as u64,
                name: PhantomData,
            })),
            Err(PumpFault::Memory) => Err(Memory),
        }
    }
}

// The number among the lists of a proxy.
#[tactic(auto, using(crate::proofs::Entries::nth_of))]
fn list_of(plan: &Plan, proxy: u32) -> u32
    requires { proxy < length (proxies_of plan.now) }
    ensures { slice_get (proxies_of plan.now) proxy ≡ Some result }
{
    plan.proxies()[proxy as usize]
}
