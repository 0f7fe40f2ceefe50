ghost use Rattle.std.specs.Prelude.{◌≡◌, ◌↔◌, IfOk, IfErr, OnOk};
ghost use Rattle.spec_order.specs.Edges.{AreWithin};
ghost use Rattle.spec_order.specs.Order.{HasOrder, IsOrder};
ghost use Rattle.spec_order.specs.DependencyOrder.{dependency_order};
ghost use Rattle.spec_order.specs.Cycle.{HasCycle, IsFirstCycle};
ghost use Rattle.gl_publisher.specs.Fault.{IfCycle};

use super::cycle::first_cycle;
use super::neighbours::{Neighbours, reversed};
use super::waiting::{free_numbers, open_counts, release};
use super::{Numbers, OrderFault};
use std::alloc::Global;

/// The dependency order of the numbers below `n`, where an edge (a, b) says that a depends on b: as
/// Glazed Lists' `ListEventPublisher` does, it puts each after all that it depends on, and here always the
/// least that may come next. Edges may repeat, and may join a number to itself.
///
/// An order takes time in proportion to `n` and the edges, times a logarithm. A cycle takes that time again
/// for each number that waits for another. Memory is in proportion to `n` and the edges, all of it but the
/// answer's let go at the end.
pub fn order(alloc: Global, n: u32, edges: &[(u32, u32)]) -> Result<Numbers, OrderFault>
    requires { AreWithin n edges.now }
    ensures order { IfOk result (IsOrder n edges.now) }
    ensures computed { IfOk result (λ placed. placed ≡ dependency_order n edges.now) }
    ensures cycle { IfErr result (λ fault. IfCycle fault (IsFirstCycle edges.now)) }

    // A cycle is answered exactly where there is one, but for want of memory.
    ensures acyclic { OnOk result (¬ HasCycle edges.now) }
    ensures exists { HasOrder n edges.now ↔ (¬ HasCycle edges.now) }
{
    let dependents = Neighbours::new(reversed(alloc, edges)?);
    let mut counts = open_counts(alloc, n, edges)?;
    let mut free = free_numbers(alloc, counts.as_slice())?;
    let mut placed = Numbers::new(alloc);
    for _position in 0..n {
        let Some(next) = free.pop_first() else {
            return Err(OrderFault::Cycle(first_cycle(alloc, n, edges, &dependents, &counts)?));
        };
        release(dependents.of(next), &mut counts, &mut free)?;
        placed.push(next).map_err(|_| OrderFault::Memory)?;
    }
    Ok(placed)
}
