//! The lists of a plan.

ghost use Rattle.std.specs.Prelude.{◌≡◌, ◌≢◌, ◌<◌, ◌↔◌, ℕ, [], None, Some, Err, length, slice_get, slice_set, IfOk, IfErr, OnOk, OnErr};
ghost use Rattle.std.specs.Option.{option_copied};
ghost use Rattle.spec_states.specs.Plan.{origin as about};
ghost use Rattle.spec_states.specs.State.{own_at};
ghost use Rattle.spec_states.specs.Shown.{shown};
ghost use Rattle.spec_states.specs.Opening.{opening};
ghost use Rattle.spec_states.specs.Wave.{command as made_by, pump as made_by_pump, subject, wave};
ghost use Rattle.spec_states.specs.Step.{too_long, unmoved};
ghost use Rattle.gl_graph.specs.Nodes.{numbers};
ghost use Rattle.gl_graph.specs.Graph.{state_of, IsGraph};
ghost use Rattle.gl_graph.specs.Commands.{Suits};
ghost use Rattle.gl_graph.specs.Causes.{SuitsCause, cause_of, unmoved_of};
ghost use Rattle.gl_graph.specs.Queues.{IsProxy, queue_of, LeadsOn, with_one_queued, HasQueueRoom};
ghost use Rattle.gl_graph.specs.Holds.{hold_of};
ghost use Rattle.gl_held.specs.declared.fault.PumpFault.TheVariants as PumpFault;
ghost use Rattle.gl_graph.specs.Build.{IsReason};
ghost use Rattle.gl_graph.specs.Waves.{AreTold, AreApart, IsRefused, IsStopping, IsUndo, CanRetreat, CanAllGoBack, HaveRoomBack, HaveRoomOf, IsAsRoomy, contents, contents_of, before, before_all, by_position};
ghost use Rattle.gl_graph.specs.Backs.{CanGoBackAt, IsBackAt};

use crate::cause::Cause;
use crate::fault::BuildFault;
use crate::hold::Hold;
use crate::keeps::KeepsUndo;
use crate::node::Node;
use crate::queue::{queue_at, reserve_at};
use crate::rollback::rollback_of;
use crate::seen::{element, node_of, shown_len};
use crate::spread::spread_all;
use crate::start::{dependency_order_of, open_all};
use gl_held::PumpFault;
use gl_kernels::{Delta, Deltas};
use gl_plan::{Command, Memory, Plan, Steps, Value};
use std::alloc::Global;
use std::marker::Model;
use std::sync::ledger::Ledger;

/// The lists of a plan in their dependency order. What a list shows isn't kept, but found through the lists before it.
#[derive(Drop)]
pub struct Graph {
    pub(crate) alloc: Global,
    pub(crate) limit: u64,
    pub(crate) nodes: Vec<Node>,
    pub(crate) positions: Vec<u32>,
}

impl Model for Graph {
    ghost use Rattle.std.specs.Coded.{codes};
    ghost use Rattle.spec_states.specs.Code.{tree_code};
    ghost use Rattle.spec_states.specs.MatcherCode.{matcher_code};
    ghost use Rattle.spec_states.specs.FuncCode.{func_code};
    ghost use Rattle.gl_graph.specs.Graph.{Kept, IsGraph};

    ghost Value = { Kept };

    ghost coded = { Prim.hlevel (codes, tree_code, matcher_code, func_code) };

    ghost view = { λ g. record { limit = g.limit; nodes = g.nodes.items; positions = g.positions.items } };

    ghost invariant = { λ g. IsGraph g.limit g.nodes.items g.positions.items };
}

/// What a command did: the delta of each list by number, none where it is the identity, and the way back.
#[derive(Drop)]
pub struct Wave {
    pub deltas: Deltas,
    pub undo: GraphUndo,
}

/// What takes a graph back to where it stood before a change: the undos of the lists that changed, each with its place
/// in the dependency order, in the order in which they were made.
#[derive(Drop)]
pub struct GraphUndo {
    pub(crate) made: Vec<(u32, KeepsUndo)>,
}

/// Why a command changes nothing.
#[derive(Debug, Drop)]
pub enum Refused {
    /// The index lies outside a source of `len` elements.
    OutOfRange { index: u64, len: u64 },
    /// The list would show `len` elements, which are more than it may; the first such list in dependency order.
    TooLong { list: u32, len: u128 },
    /// The list is frozen.
    AlreadyFrozen,
    /// The list isn't frozen.
    NotFrozen,
    /// The transaction list has no open level.
    NotOpen,
    /// There was no memory for it.
    Memory,
}

impl From<Memory> for Refused {
    ghost use Rattle.std.specs.Prelude.{◌≡◌};
    ghost use Rattle.gl_graph.specs.declared.graph.Refused.TheVariants.{Memory};

    ghost from_gives = { λ _ refused. refused ≡ Memory };

    fn from(_memory: Memory) -> Refused {
        Refused::Memory
    }
}

impl Graph {
    /// The lists of a plan as they open, or the first in their dependency order that would be too long. It takes memory
    /// for what each list keeps.
    pub fn build(alloc: Global, plan: &Plan) -> Result<Graph, BuildFault>
        ensures state { IfOk result (λ g. state_of g ≡ opening plan.now) }
        ensures limit { IfOk result (λ g. g.limit ≡ plan.now.limit) }
        ensures within { OnOk result (too_long plan.now.limit (opening plan.now) ≡ None) }
        ensures fault { IfErr result (IsReason plan.now.limit (opening plan.now)) }
    {
        let dependency_order = dependency_order_of(alloc, plan)?;
        let nodes = open_all(alloc, &dependency_order)?;
        Ok(Graph {
            alloc,
            limit: dependency_order.limit,
            nodes,
            positions: dependency_order.positions,
        })
    }

    /// How many elements a list shows; a number past the lists' shows none.
    pub fn len(&self, list: u32) -> usize
        ensures { result ≡ length (shown (state_of self.now) list) }
    {
        if list as usize >= self.positions.len() {
            return 0;
        }
        shown_len(&self.nodes, &self.positions, list)
    }

    /// The element that a list shows at a place, or `None` exactly where there is none. It takes time logarithmic in
    /// the length of each list that the element comes by.
    pub fn get(&self, list: u32, position: usize) -> Option<&Value>
        ensures { option_copied result ≡ slice_get (shown (state_of self.now) list) position }
    {
        if list as usize >= self.positions.len() {
            return None;
        }
        element(&self.nodes, &self.positions, list, position)
    }

    /// Whether a list is held; a number past the lists' isn't.
    pub fn hold(&self, list: u32) -> Hold
        ensures { result ≡ hold_of (own_at (state_of self.now) list) }
    {
        if list as usize >= self.positions.len() {
            return Hold::Free;
        }
        node_of(&self.nodes, &self.positions, list).keeps.hold()
    }

    /// Takes a command to the list where its wave begins, and then to each list after that which depends on one that
    /// changed: wholly, or not at all. Lists before it aren't visited, and one that is told nothing is passed over. It
    /// takes memory for the changes.
    pub fn wave<L: Ledger>(
        &mut self,
        command: &Command,
        steps: &mut Steps<L>,
    ) -> Result<Wave, Refused>
        requires within { about command.now < length (state_of self.old) }
        requires suits { Suits command.now (own_at (state_of self.old) (about command.now)) }
        ensures moves { OnOk result
            (unmoved self.old.limit (state_of self.old) command.now ≡ None) }
        ensures state { OnOk result
            (state_of self.new ≡ wave (state_of self.old) (made_by command.now)) }
        ensures told { IfOk result
            (λ done. AreTold (state_of self.old) (made_by command.now) done.deltas) }
        ensures undo { IfOk result (λ done. IsUndo done.undo self.old self.new) }
        ensures limit { self.new.limit ≡ self.old.limit }
        ensures refused { IfErr result (IsRefused self.old.limit (state_of self.old) command.now) }
        ensures err { OnErr result (contents self.new ≡ contents self.old) }
        ensures room { OnErr result (HaveRoomOf self.old.nodes self.new.nodes) }
    {
        self.make_wave(&Cause::Command(command), steps)
    }

    /// Takes the first queued delta of a proxy, and no more, to each list that depends on it: wholly, or not at all. It
    /// takes memory for the changes.
    pub fn pump<L: Ledger>(&mut self, list: u32, steps: &mut Steps<L>) -> Result<Wave, PumpFault>
        requires proxy { IsProxy (own_at (state_of self.old) list) }
        requires short { too_long self.old.limit (wave (state_of self.old) (made_by_pump list))
            ≡ None }
        ensures state { OnOk result
            (state_of self.new ≡ wave (state_of self.old) (made_by_pump list)) }
        ensures told { IfOk result
            (λ done. AreTold (state_of self.old) (made_by_pump list) done.deltas) }
        ensures undo { IfOk result (λ done. IsUndo done.undo self.old self.new) }
        ensures limit { self.new.limit ≡ self.old.limit }
        ensures nothing { (result ≡ Err PumpFault.Nothing)
            ↔ (queue_of (own_at (state_of self.old) list) ≡ []) }
        ensures err { OnErr result (contents self.new ≡ contents self.old) }
        ensures room { OnErr result (HaveRoomOf self.old.nodes self.new.nodes) }
    {
        if let Hold::Queued(0) = self.hold(list) {
            return Err(PumpFault::Nothing);
        }
        match self.make_wave(&Cause::Pump(list), steps) {
            Ok(done) => Ok(done),
            Err(Refused::Memory) => Err(PumpFault::Memory),
            Err(_) => unreachable!(),
        }
    }

    // A wave, wholly or not at all.
    fn make_wave<L: Ledger>(
        &mut self,
        cause: &Cause<'_>,
        steps: &mut Steps<L>,
    ) -> Result<Wave, Refused>
        requires within { subject (cause_of cause.now) < length (state_of self.old) }
        requires suits { SuitsCause (cause_of cause.now)
            (own_at (state_of self.old) (subject (cause_of cause.now))) }
        ensures moves { OnOk result
            (unmoved_of self.old.limit (state_of self.old) (cause_of cause.now) ≡ None) }
        ensures state { OnOk result
            (state_of self.new ≡ wave (state_of self.old) (cause_of cause.now)) }
        ensures told { IfOk result
            (λ done. AreTold (state_of self.old) (cause_of cause.now) done.deltas) }
        ensures undo { IfOk result (λ done. IsUndo done.undo self.old self.new) }
        ensures limit { self.new.limit ≡ self.old.limit }
        ensures refused { IfErr result
            (IsStopping self.old.limit (state_of self.old) (cause_of cause.now)) }
        ensures err { OnErr result (contents self.new ≡ contents self.old) }
        ensures room { OnErr result (HaveRoomOf self.old.nodes self.new.nodes) }
    {
        let rollback = match rollback_of(
            self.nodes.as_slice(),
            self.positions.as_slice(),
            self.limit,
            cause,
        ) {
            Ok(rollback) => rollback,
            Err(why) => return Err(why),
        };
        let mut deltas = Deltas::make(self.alloc, self.positions.len() as u32)?;
        let mut made = Vec::new(self.alloc);
        match spread_all(
            self.alloc,
            &mut self.nodes,
            self.positions.as_slice(),
            self.limit,
            cause,
            &rollback,
            &mut deltas,
            &mut made,
            steps,
        ) {
            Ok(()) => Ok(Wave {
                deltas,
                undo: GraphUndo { made },
            }),
            Err(why) => {
                take_back(&mut self.nodes, made);
                Err(why)
            }
        }
    }

    /// Makes room for one more delta in the queue of a proxy.
    pub fn reserve_queue(&mut self, list: u32) -> Result<(), Memory>
        requires proxy { IsProxy (own_at (state_of self.old) list) }
        ensures ok { OnOk result (HasQueueRoom list self.new) }
        ensures contents { contents self.new ≡ contents self.old }
        ensures room { HaveRoomOf self.old.nodes self.new.nodes }
        ensures others { (other : ℕ) → HasQueueRoom other self.old → HasQueueRoom other self.new }
    {
        reserve_at(&mut self.nodes, self.positions[list as usize] as usize)?;
        Ok(())
    }

    /// Queues a delta for a proxy, which leads on from what its queue leads to. It takes no memory, but room that
    /// `reserve_queue` made.
    pub fn queue(&mut self, list: u32, d: Delta)
        requires leads { LeadsOn d.pieces (own_at (state_of self.old) list) }
        requires reserved { HasQueueRoom list self.old }
        ensures state { state_of self.new ≡ slice_set (state_of self.old) list
            (with_one_queued d.pieces (own_at (state_of self.old) list)) }
        ensures limit { self.new.limit ≡ self.old.limit }
        ensures others { (other : ℕ) → other ≢ list
            → HasQueueRoom other self.old → HasQueueRoom other self.new }
    {
        queue_at(&mut self.nodes, self.positions[list as usize] as usize, d);
    }

    /// Goes back to where the lists stood before their last change, whose undo this is. It takes no memory, and time for
    /// the lists that changed alone.
    pub fn retreat(&mut self, undo: GraphUndo)
        requires { CanRetreat undo self.old }
        ensures back { contents self.new ≡ before undo self.old }
        ensures room { IsAsRoomy undo self.old self.new }
    {
        take_back(&mut self.nodes, undo.made);
    }

    /// What holds of each graph, for callers that keep its undos.
    pub fn law(&self)
        ensures { IsGraph self.now.limit self.now.nodes self.now.positions }
    {
        let _nodes = &self.nodes;
    }
}

// Takes back the changes of lists whose undos these are, the last one first.
fn take_back(nodes: &mut Vec<Node>, mut made: Vec<(u32, KeepsUndo)>)
    requires can { CanAllGoBack (by_position (length nodes.old.items) made.items) nodes.old.items }
    requires apart { AreApart (length nodes.old.items) made.items }
    ensures back { contents_of nodes.new.items
        ≡ before_all (by_position (length nodes.old.items) made.items) nodes.old.items }
    ensures numbers { numbers nodes.new.items ≡ numbers nodes.old.items }
    ensures room { HaveRoomBack (by_position (length nodes.old.items) made.items) nodes.old.items
        [] nodes.new.items }
{
    'made: while let Some((position, undo)) = made.pop() {
        go_back(nodes, position as usize, undo);
    }
}

// Takes back the change of the list at a place.
#[tactic(auto, using(crate::proofs::Taken::can_here, crate::proofs::Taken::back_here, crate::proofs::Taken::back_past))]
fn go_back(nodes: &mut Vec<Node>, position: usize, undo: KeepsUndo)
    requires { CanGoBackAt (Some undo) position nodes.old.items }
    ensures { IsBackAt (Some undo) position nodes.old.items nodes.new.items }
{
    if position < nodes.len() {
        nodes[position].keeps.retreat(undo);
    }
}
