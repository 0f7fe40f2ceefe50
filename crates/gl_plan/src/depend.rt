//! On what lists and listeners depend.

ghost use Rattle.std.specs.Prelude.{◌≡◌, ◌≤◌, ◌<◌, ◌++◌, [], length, map, slice_get, unwrap_or, All, IfOk, IfErr, OnOk};
ghost use Rattle.spec_plans.specs.Edges.{AreWithin};
ghost use Rattle.spec_plans.specs.Cycle.{HasCycle};
ghost use Rattle.spec_plans.specs.DependencyOrder.{dependency_order};
ghost use Rattle.spec_plans.specs.Plan.{inputs_of, edges_from};
ghost use Rattle.spec_plans.specs.Cycles.{names_of};
ghost use Rattle.gl_plan.specs.Fault.{IsRound};

use crate::fault::{Names, PlanFault};
use gl_lines::{ListDecl, ListKind, ListenerDecl};
use gl_publisher::{Numbers, OrderFault, order};
use gl_value::{Items, Name};
use std::alloc::{AllocError, Global};
use std::slice;

/// The dependencies of lists: each pair is a list and one that it depends on, by number.
#[tactic(auto, using(crate::proofs::Edges::lists_more))]
pub(crate) fn edges_of_lists(
    alloc: Global,
    lists: &[ListDecl],
) -> Result<Vec<(u32, u32)>, AllocError>
    requires { length lists.now ≤ 256 }
    ensures { IfOk result
        (λ edges. edges.items ≡ edges_from 0 (map (λ d. inputs_of d.kind) lists.now)) }
{
    let mut edges = Vec::new(alloc);
    for i in 0..lists.len() {
        edges = with_inputs(edges, i as u32, &lists[i].kind)?;
    }
    Ok(edges)
}

// The edges with those of a list more.
fn with_inputs(
    edges: Vec<(u32, u32)>,
    list: u32,
    kind: &ListKind,
) -> Result<Vec<(u32, u32)>, AllocError>
    ensures { IfOk result
        (λ more. more.items ≡ edges.items ++ map (λ input. (list, input)) (inputs_of kind.now)) }
{
    match kind {
        ListKind::Source { .. } => Ok(edges),
        ListKind::Composite { members, may } => {
            let edges = with_edges(edges, list, members.as_slice())?;
            with_edges(edges, list, may.as_slice())
        }
        ListKind::Filter { input, .. }
        | ListKind::Sorted { input, .. }
        | ListKind::Unique { input, .. }
        | ListKind::Grouping { input, .. }
        | ListKind::Range { input, .. }
        | ListKind::Function { input, .. }
        | ListKind::Collection { input, .. }
        | ListKind::Transaction { input }
        | ListKind::Freezable { input }
        | ListKind::Proxy { input } => with_edges(edges, list, slice::from_ref(input)),
    }
}

// The edges with one more from an item to each of those that it depends on.
fn with_edges(
    mut edges: Vec<(u32, u32)>,
    item: u32,
    needed: &[u32],
) -> Result<Vec<(u32, u32)>, AllocError>
    ensures { IfOk result
        (λ more. more.items ≡ edges.items ++ map (λ other. (item, other)) needed.now) }
{
    for other in needed {
        edges.push((item, *other))?;
    }
    Ok(edges)
}

/// The dependencies of listeners: each pair is a listener and one that it is told after, by number.
#[tactic(auto, using(crate::proofs::Edges::listeners_more))]
pub(crate) fn edges_of_listeners(
    alloc: Global,
    listeners: &[ListenerDecl],
) -> Result<Vec<(u32, u32)>, AllocError>
    requires { length listeners.now ≤ 256 }
    ensures { IfOk result (λ edges. edges.items ≡ edges_from 0 (map (λ d. d.after) listeners.now)) }
{
    let mut edges = Vec::new(alloc);
    for i in 0..listeners.len() {
        edges = with_after(edges, i as u32, &listeners[i])?;
    }
    Ok(edges)
}

// The edges with those of a listener more.
fn with_after(
    edges: Vec<(u32, u32)>,
    number: u32,
    listener: &ListenerDecl,
) -> Result<Vec<(u32, u32)>, AllocError>
    ensures { IfOk result
        (λ more. more.items ≡ edges.items ++ map (λ other. (number, other)) listener.now.after) }
{
    with_edges(edges, number, listener.after.as_slice())
}

/// The dependency order of items, where none depends on itself through others, or else the names of the first cycle.
pub(crate) fn in_order(
    alloc: Global,
    names: &[Name],
    edges: &[(u32, u32)],
) -> Result<Numbers, PlanFault>
    requires few { length names.now ≤ 256 }
    requires within { AreWithin (length names.now) edges.now }
    ensures order { IfOk result (λ placed. placed ≡ dependency_order (length names.now) edges.now) }
    ensures acyclic { OnOk result (¬ HasCycle edges.now) }
    ensures cycle { IfErr result (λ fault. IsRound edges.now names.now fault) }
{
    match order(alloc, names.len() as u32, edges) {
        Ok(placed) => Ok(placed),
        Err(OrderFault::Cycle(cycle)) => {
            let names = named(alloc, names, cycle.as_slice())?;
            Err(PlanFault::Cycle { names })
        }
        Err(OrderFault::Memory) => Err(PlanFault::Memory),
    }
}

// The names of numbers.
fn named(alloc: Global, names: &[Name], numbers: &[u32]) -> Result<Names, AllocError>
    requires { All (λ number. number < length names.now) numbers.now }
    ensures { IfOk result (λ found. found ≡ names_of names.now numbers.now) }
{
    let mut found = Vec::with_capacity(alloc, numbers.len())?;
    for number in numbers {
        found.push(name_of(names, *number)?)?;
    }
    Ok(Items::from_vec(found))
}

fn name_of(names: &[Name], number: u32) -> Result<Name, AllocError>
    requires { number < length names.now }
    ensures { IfOk result (λ name. name ≡ unwrap_or (slice_get names.now number) []) }
{
    match names.get(number as usize) {
        Some(name) => name.copy(),
        None => unreachable!(),
    }
}
