ghost use Rattle.std.specs.Prelude.{◌≡◌, ◌==◌, filter, map, IfOk, IsPermutation};

use std::alloc::{AllocError, Global};
use std::marker::Model;

/// Pairs by their first number, for finding all pairs of one first number.
#[derive(Drop)]
pub(crate) struct Neighbours {
    pairs: Vec<(u32, u32)>,
}

impl Model for Neighbours {
    ghost use Rattle.std.specs.Prelude.{ℕ, List};
    ghost use Rattle.std.specs.List.Sorted.{IsNonDecreasingBy};

    ghost Value = { List (ℕ × ℕ) };

    ghost view = { λ neighbours. neighbours.pairs.items };

    ghost invariant = { λ neighbours. IsNonDecreasingBy (λ p. p.0) neighbours.pairs.items };
}

impl Neighbours {
    /// Sorts the pairs in place, which takes no memory.
    pub(crate) fn new(mut pairs: Vec<(u32, u32)>) -> Neighbours
        ensures { IsPermutation pairs.items result }
    {
        pairs.sort_unstable_by_key(|pair| pair.0);
        Neighbours { pairs }
    }

    /// The pairs that begin with `key`, found by two searches by halves.
    pub(crate) fn of(&self, key: u32) -> &[(u32, u32)]
        ensures { result.now ≡ filter (λ p. p.0 == key) self.now }
    {
        let pairs = self.pairs.as_slice();
        let up_to_key = &pairs[..pairs.partition_point(|pair| pair.0 <= key)];
        &up_to_key[up_to_key.partition_point(|pair| pair.0 < key)..]
    }
}

/// The edges the other way round.
pub(crate) fn reversed(alloc: Global, edges: &[(u32, u32)]) -> Result<Vec<(u32, u32)>, AllocError>
    ensures { IfOk result (λ pairs. pairs.items ≡ map (λ e. (e.1, e.0)) edges.now) }
{
    edges.iter().map(|edge| (edge.1, edge.0)).collect(alloc)
}
