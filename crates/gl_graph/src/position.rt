//! The places of lists.

ghost use Rattle.std.specs.Prelude.{◌≡◌, length, IfOk};
ghost use Rattle.gl_graph.specs.Positions.{AreBelow, AreDistinct, ArePositions};

use std::alloc::{AllocError, Global};

/// The place of each number in an order of all numbers below `n`.
#[tactic(auto, using(crate::proofs::Positions::positions_more))]
pub(crate) fn positions_in(alloc: Global, n: u32, order: &[u32]) -> Result<Vec<u32>, AllocError>
    requires whole { length order.now ≡ n }
    requires below { AreBelow n order.now }
    requires distinct { AreDistinct order.now }
    ensures len { IfOk result (λ positions. length positions.items ≡ n) }
    ensures positions { IfOk result (λ positions. ArePositions positions.items order.now n) }
{
    let mut positions = zeros(alloc, n)?;
    'order: for position in 0..order.len() {
        positions[order[position] as usize] = position as u32;
    }
    Ok(positions)
}

fn zeros(alloc: Global, n: u32) -> Result<Vec<u32>, AllocError>
    ensures { IfOk result (λ positions. length positions.items ≡ n) }
{
    let mut positions = Vec::with_capacity(alloc, n as usize)?;
    for _ in 0..n {
        positions.push(0)?;
    }
    Ok(positions)
}
