//! Plans from lines.

ghost use Rattle.std.specs.Prelude.{◌≡◌, ◌≤◌, ◌++◌, None, length, All, IfOk, IfErr, OnOk};
ghost use Rattle.spec_plans.specs.Edges.{AreWithin};
ghost use Rattle.spec_plans.specs.Cycle.{HasCycle};
ghost use Rattle.spec_plans.specs.DependencyOrder.{dependency_order};
ghost use Rattle.spec_lines.specs.Within.{IsWithin};
ghost use Rattle.spec_plans.specs.Plan.{list_edges, listener_edges, proxies_from};
ghost use Rattle.spec_plans.specs.NameFaults.{first_fault_at};
ghost use Rattle.spec_plans.specs.Making.{plan_of};
ghost use Rattle.spec_plans.specs.Cycles.{IsAcyclic};
ghost use Rattle.gl_plan.specs.Fault.{IsFaultOf, IsRound, IsCycleFault};
ghost use Rattle.gl_plan.specs.Whole.{IsPrepared, IsWhole};
ghost use Rattle.gl_plan.specs.Proxies.{proxy_here};
ghost use Rattle.gl_plan.specs.Tables.{AreTables};

use crate::depend::{edges_of_listeners, edges_of_lists, in_order};
use crate::draft::Draft;
use crate::fault::PlanFault;
use crate::part::part;
use crate::plan::{Contents, Plan};
use crate::tables::Tables;
use gl_lines::{Lines, ListDecl, ListKind};
use gl_plan_faults::first_fault;
use gl_publisher::Numbers;
use gl_value::{Items, Name};
use std::alloc::{AllocError, Global};

impl Plan {
    /// The plan that the lines make, or what is wrong with them: their first fault, or else the first cycle of what
    /// lists or listeners depend on. Each line is within the limits of the language, as every answer of `read_line`
    /// is. What lines hold is moved into the plan. It takes time in proportion to the lines, times a logarithm, and
    /// memory in proportion to the lines.
    #[tactic(auto, using(crate::proofs::Sound::fault_of))]
    pub fn from_lines(alloc: Global, lines: Lines) -> Result<Plan, PlanFault>
        requires { All (λ l. IsWithin l.what) lines }
        ensures plan { IfOk result (λ p. p ≡ plan_of lines) }
        ensures sound { OnOk result (first_fault_at lines ≡ None) }
        ensures acyclic { IfOk result IsAcyclic }
        ensures fault { IfErr result (IsFaultOf lines) }
    {
        match first_fault(alloc, &lines)? {
            Some(found) => Err(PlanFault::At {
                line: found.line,
                column: found.column,
                kind: found.kind,
            }),
            None => sound_plan(alloc, lines),
        }
    }
}

// The plan of lines without a fault, or their first cycle.
#[tactic(auto, using(crate::proofs::Sound::few_lists, crate::proofs::Sound::few_listeners))]
fn sound_plan(alloc: Global, lines: Lines) -> Result<Plan, PlanFault>
    requires sound { first_fault_at lines ≡ None }
    requires within { All (λ l. IsWithin l.what) lines }
    ensures plan { IfOk result (λ p. p ≡ plan_of lines) }
    ensures acyclic { IfOk result IsAcyclic }
    ensures cycle { IfErr result (IsCycleFault (plan_of lines)) }
{
    let tables = Tables::new(alloc, lines.as_slice())?;
    let draft = drafted(alloc, lines, &tables)?;
    acyclic_plan(
        alloc,
        draft,
        tables.lists.as_slice(),
        tables.listeners.as_slice(),
    )
}

// The plan, or the names of its first cycle.
#[tactic(auto, using(crate::proofs::Sound::prepared_lists, crate::proofs::Sound::prepared_listeners, crate::proofs::Sound::lists_round))]
fn acyclic_plan(
    alloc: Global,
    draft: Draft,
    names: &[Name],
    listeners: &[Name],
) -> Result<Plan, PlanFault>
    requires { IsPrepared draft names.now listeners.now }
    ensures plan { IfOk result (λ p. p ≡ draft) }
    ensures acyclic { IfOk result IsAcyclic }
    ensures cycle { IfErr result (IsCycleFault draft) }
{
    match ordered_lists(alloc, &draft, names) {
        Err(fault) => Err(fault),
        Ok(list_order) => match ordered_listeners(alloc, &draft, listeners) {
            Err(fault) => Err(fault),
            Ok(listener_order) => Ok(ordered_plan(alloc, draft, list_order, listener_order)?),
        },
    }
}

// The plan with its orders.
fn ordered_plan(
    alloc: Global,
    draft: Draft,
    list_order: Numbers,
    listener_order: Numbers,
) -> Result<Plan, AllocError>
    requires whole { IsWhole draft }
    requires lists { list_order ≡ dependency_order (length draft.lists) (list_edges draft) }
    requires listeners { listener_order
        ≡ dependency_order (length draft.listeners) (listener_edges draft) }
    ensures { IfOk result (λ p. p ≡ draft) }
{
    let proxies = proxies(alloc, draft.lists.as_slice())?;
    Plan::new(
        alloc,
        Contents {
            draft,
            proxies,
            list_order,
            listener_order,
        },
    )
}

// The dependency order of the lists, where none depends on itself through others, or else the names of the first cycle.
fn ordered_lists(alloc: Global, draft: &Draft, names: &[Name]) -> Result<Numbers, PlanFault>
    requires few { length draft.now.lists ≤ 256 }
    requires names { length names.now ≡ length draft.now.lists }
    requires within { AreWithin (length draft.now.lists) (list_edges draft.now) }
    ensures order { IfOk result (λ order.
        order ≡ dependency_order (length draft.now.lists) (list_edges draft.now)) }
    ensures acyclic { OnOk result (¬ HasCycle (list_edges draft.now)) }
    ensures cycle { IfErr result (λ fault. IsRound (list_edges draft.now) names.now fault) }
{
    let edges = edges_of_lists(alloc, draft.lists.as_slice())?;
    in_order(alloc, names, edges.as_slice())
}

// The same of the listeners.
fn ordered_listeners(alloc: Global, draft: &Draft, names: &[Name]) -> Result<Numbers, PlanFault>
    requires few { length draft.now.listeners ≤ 256 }
    requires names { length names.now ≡ length draft.now.listeners }
    requires within { AreWithin (length draft.now.listeners) (listener_edges draft.now) }
    ensures order { IfOk result (λ order.
        order ≡ dependency_order (length draft.now.listeners) (listener_edges draft.now)) }
    ensures acyclic { OnOk result (¬ HasCycle (listener_edges draft.now)) }
    ensures cycle { IfErr result (λ fault. IsRound (listener_edges draft.now) names.now fault) }
{
    let edges = edges_of_listeners(alloc, draft.listeners.as_slice())?;
    in_order(alloc, names, edges.as_slice())
}

// What the lines make.
#[tactic(auto, using(crate::proofs::Parts::same_parts))]
fn drafted(alloc: Global, lines: Lines, tables: &Tables) -> Result<Draft, AllocError>
    requires { AreTables tables.now lines }
    ensures { IfOk result (λ draft. draft ≡ plan_of lines) }
{
    let mut draft = Draft::new(alloc);
    for line in lines.into_vec() {
        draft = draft.with(part(alloc, tables, line.what)?)?;
    }
    Ok(draft)
}

// The numbers of the proxies.
#[tactic(auto, using(crate::proofs::Proxies::proxies_more))]
fn proxies(alloc: Global, lists: &[ListDecl]) -> Result<Items<u32>, AllocError>
    requires { length lists.now ≤ 256 }
    ensures { IfOk result (λ found. found ≡ proxies_from 0 lists.now) }
{
    let mut found = Vec::new(alloc);
    for i in 0..lists.len() {
        found = with_proxy(found, i as u32, &lists[i].kind)?;
    }
    Ok(Items::from_vec(found))
}

// The numbers with that of a list more, if it is a proxy.
fn with_proxy(mut found: Vec<u32>, number: u32, kind: &ListKind) -> Result<Vec<u32>, AllocError>
    ensures { IfOk result (λ more. more.items ≡ found.items ++ proxy_here number kind.now) }
{
    if let ListKind::Proxy { .. } = kind {
        found.push(number)?;
        Ok(found)
    } else {
        Ok(found)
    }
}
