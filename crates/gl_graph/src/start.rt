//! How all lists of a plan open.

ghost use Rattle.std.specs.Prelude.{◌≡◌, ◌<◌, ◌+◌, length, IfOk, IfErr, OnOk};
ghost use Rattle.gl_graph.specs.Build.{AreDependencyOrder, AreOpenTo, AllAreOpen, IsReasonOf};

use crate::build::open_next;
use crate::fault::BuildFault;
use crate::node::Node;
use crate::position::positions_in;
use gl_plan::{ListDecl, Memory, Plan, Steps};
use std::alloc::Global;
use std::marker::Brand;
use std::sync::ledger::{Blank, Ledger};

/// The lists of a plan in the order in which they open, each with its place there.
#[derive(Drop)]
pub(crate) struct DependencyOrder<'a> {
    pub(crate) lists: &'a [ListDecl],
    pub(crate) limit: u64,
    pub(crate) order: &'a [u32],
    pub(crate) positions: Vec<u32>,
}

/// The lists of a plan in their dependency order, with their places there.
pub(crate) fn dependency_order_of<'a>(
    alloc: Global,
    plan: &'a Plan,
) -> Result<DependencyOrder<'a>, Memory>
    ensures ready { IfOk result AreDependencyOrder }
    ensures lists { IfOk result (λ dependency_order. dependency_order.lists.now ≡ plan.now.lists) }
    ensures limit { IfOk result (λ dependency_order. dependency_order.limit ≡ plan.now.limit) }
{
    let lists = plan.lists();
    let order = plan.list_order();
    let limit = plan.limit();
    let positions = positions_in(alloc, lists.len() as u32, order)?;
    Ok(DependencyOrder {
        lists,
        limit,
        order,
        positions,
    })
}

/// The nodes of all lists. It takes memory for what each list keeps.
pub(crate) fn open_all(
    alloc: Global,
    dependency_order: &DependencyOrder<'_>,
) -> Result<Vec<Node>, BuildFault>
    requires { AreDependencyOrder dependency_order.now }
    ensures open { IfOk result (λ nodes. AllAreOpen dependency_order.now nodes.items) }
    ensures fault { IfErr result (IsReasonOf dependency_order.now) }
{
    open_counted::<Brand>(alloc, dependency_order, Blank::new(1))
}

// The same, with a ledger for the steps.
fn open_counted<L: Ledger>(
    alloc: Global,
    dependency_order: &DependencyOrder<'_>,
    blank: Blank,
) -> Result<Vec<Node>, BuildFault>
    requires ready { AreDependencyOrder dependency_order.now }
    requires name { blank.name ≡ L.name }
    requires parts { blank.parts ≡ L.parts }
    requires some { 0 < blank.parts }
    ensures open { IfOk result (λ nodes. AllAreOpen dependency_order.now nodes.items) }
    ensures fault { IfErr result (IsReasonOf dependency_order.now) }
{
    let mut steps: Steps<L> = Steps::new(blank);
    let mut nodes = Vec::new(alloc);
    'positions: for position in 0..dependency_order.order.len() {
        open_at(alloc, dependency_order, position, &mut nodes, &mut steps)?;
    }
    Ok(nodes)
}

// The list at a place of the order, after those before it.
fn open_at<L: Ledger>(
    alloc: Global,
    dependency_order: &DependencyOrder<'_>,
    position: usize,
    nodes: &mut Vec<Node>,
    steps: &mut Steps<L>,
) -> Result<(), BuildFault>
    requires ready { AreDependencyOrder dependency_order.now }
    requires within { position < length dependency_order.now.order.now }
    requires opened { AreOpenTo dependency_order.now position nodes.old.items }
    ensures opened { OnOk result (AreOpenTo dependency_order.now (position + 1) nodes.new.items) }
    ensures fault { IfErr result (IsReasonOf dependency_order.now) }
{
    let list = dependency_order.order[position];
    let kind = &dependency_order.lists[list as usize].kind;
    open_next(
        alloc,
        nodes,
        dependency_order.positions.as_slice(),
        list,
        kind,
        dependency_order.limit,
        steps,
    )?;
    Ok(())
}
