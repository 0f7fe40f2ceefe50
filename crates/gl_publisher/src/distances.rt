ghost use Rattle.std.specs.Prelude.{[], ◌<◌, vec_len, All, IfOk, OnOk};
ghost use Rattle.gl_publisher.specs.Distances.{AreDistances, IsDependent, IsRelatedToSome, EndsWith, Finds};

use super::neighbours::Neighbours;
use std::alloc::{AllocError, Global};

/// How many steps each of the `n` numbers is from `start` along dependencies, by levels: first the numbers
/// that depend on it, then those that depend on these, and so on.
pub(crate) fn distances_to(
    alloc: Global,
    n: u32,
    start: u32,
    dependents: &Neighbours,
) -> Result<Vec<Option<u32>>, AllocError>
    requires within { All (λ p. p.1 < n) dependents.now }
    requires starts_within { start < n }
    ensures { IfOk result (λ distances.
        AreDistances n (IsDependent dependents.now) start distances.items) }
{
    let mut distances = vec![in alloc; None; n as usize]?;
    distances[start as usize] = Some(0);
    let mut listed = vec![in alloc; start]?;
    let mut level = 0;
    'levels: while !listed.is_empty() {
        level += 1;
        listed = next_level(alloc, dependents, &listed, level, &mut distances)?;
    }
    Ok(distances)
}

/// The numbers that have no distance yet and depend on one of those listed. Sets their distance.
fn next_level(
    alloc: Global,
    dependents: &Neighbours,
    listed: &[u32],
    distance: u32,
    distances: &mut Vec<Option<u32>>,
) -> Result<Vec<u32>, AllocError>
    requires { All (λ p. p.1 < vec_len distances.old) dependents.now }
    ensures { IfOk result (λ found. Finds (IsRelatedToSome (IsDependent dependents.now) listed.now)
        distance distances.old.items distances.new.items [] found.items) }
{
    let mut found = Vec::new(alloc);
    for number in listed {
        find(dependents.of(*number), distance, distances, &mut found)?;
    }
    Ok(found)
}

/// Sets the distance of those second numbers of the pairs that have none yet, and puts them at the end
/// of `found`.
fn find(
    pairs: &[(u32, u32)],
    distance: u32,
    distances: &mut Vec<Option<u32>>,
    found: &mut Vec<u32>,
) -> Result<(), AllocError>
    requires { All (λ p. p.1 < vec_len distances.old) pairs.now }
    ensures { OnOk result (Finds (EndsWith pairs.now)
        distance distances.old.items distances.new.items found.old.items found.new.items) }
{
    for (_, number) in pairs {
        if distances[*number as usize].is_none() {
            distances[*number as usize] = Some(distance);
            found.push(*number)?;
        }
    }
    Ok(())
}
