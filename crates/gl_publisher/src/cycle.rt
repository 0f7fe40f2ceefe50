ghost use Rattle.std.specs.Prelude.{◌≡◌, ◌==◌, ◌<◌, length, map, filter, All, Some, IfOk, IsPermutation};
ghost use Rattle.spec_order.specs.Edges.{AreWithin, DependsOn};
ghost use Rattle.spec_order.specs.Cycle.{HasCycle, IsFirstCycle};
ghost use Rattle.gl_publisher.specs.Distances.{AreDistances};
ghost use Rattle.gl_publisher.specs.Shortest.{IsLeast, IsShortestCycle, distance_to};
ghost use Rattle.gl_publisher.specs.Waiting.{AreSettled};

use super::distances::distances_to;
use super::least::{least_distance, least_number};
use super::neighbours::Neighbours;
use super::{Memory, Numbers};
use std::alloc::Global;

/// The first cycle, where there is any: the shortest through the first number from which dependencies
/// lead back to it. Numbers whose count of open dependencies is 0 are passed over.
pub(crate) fn first_cycle(
    alloc: Global,
    n: u32,
    edges: &[(u32, u32)],
    dependents: &Neighbours,
    counts: &[usize],
) -> Result<Numbers, Memory>
    requires ends { AreWithin n edges.now }
    requires cyclic { HasCycle edges.now }
    requires reversed { IsPermutation (map (λ e. (e.1, e.0)) edges.now) dependents.now }
    requires counted { length counts.now ≡ n }
    requires settled { AreSettled edges.now counts.now }
    ensures { IfOk result (IsFirstCycle edges.now) }
{
    let dependencies = Neighbours::new(Vec::from_slice(alloc, edges)?);
    for start in 0..n {
        if counts[start as usize] == 0 {
            continue;
        }
        let distances = distances_to(alloc, n, start, dependents)?;
        if let Some(distance) = least_distance(dependencies.of(start), &distances) {
            return shortest_cycle(alloc, start, distance, &dependencies, &distances);
        }
    }
    unreachable!()
}

/// The shortest cycle through `start`, whose nearest dependency is at the distance: each next item is the
/// least dependency that is a step nearer to `start`.
fn shortest_cycle(
    alloc: Global,
    start: u32,
    distance: u32,
    dependencies: &Neighbours,
    distances: &[Option<u32>],
) -> Result<Numbers, Memory>
    requires within { All (λ p. p.1 < length distances.now) dependencies.now }
    requires exact { AreDistances (length distances.now) (DependsOn dependencies.now) start
        distances.now }
    requires nearest { IsLeast (distance_to distances.now)
        (filter (λ p. p.0 == start) dependencies.now) (Some distance) }
    ensures { IfOk result (IsShortestCycle dependencies.now start) }
{
    let mut cycle = Numbers::new(alloc);
    let mut last = start;
    let mut left = distance;
    cycle.push(start).map_err(|(_, memory)| memory)?;
    while left > 0 {
        last = least_number(dependencies.of(last), distances, left).unwrap();
        left -= 1;
        cycle.push(last).map_err(|(_, memory)| memory)?;
    }
    Ok(cycle)
}
