//! A list of lengths in a balanced tree.

ghost use Rattle.std.specs.Prelude.{◌≡◌, ◌<◌, ◌≤◌, ◌^◌, [], length, take, sum, slice_get};
ghost use Rattle.gl_joined.specs.Located.{IsLocated};

use crate::length::{ByElement, ByPart, Length};
use gl_ranktree::RankTree;
use std::alloc::Global;
use std::marker::Model;

/// A list of lengths, at most 4,294,967,294 of them. Each call but `new`, `len` and `total` takes time logarithmic in their
/// number; 36 bytes stand for one.
#[derive(Drop)]
pub struct LengthList {
    pub(crate) tree: RankTree<Length>,
}

impl Model for LengthList {
    ghost use Rattle.gl_joined.specs.Kept.{Kept, kept_code, lens_of, IsKept};

    ghost Value = { Kept };

    ghost coded = { kept_code };

    ghost view = { λ l. record { lens = lens_of l.tree.entries; room = l.tree.room } };

    ghost invariant = { λ l. IsKept l.tree.entries };
}

impl LengthList {
    /// The empty list, which takes no memory until the first reserve.
    pub fn new(alloc: Global) -> LengthList
        ensures { result.lens ≡ [] }
    {
        LengthList {
            tree: RankTree::new(alloc),
        }
    }

    /// How many lengths there are.
    pub fn len(&self) -> usize
        ensures value { result ≡ length self.now.lens }
        ensures few { result ≤ 4294967294 }
    {
        self.tree.len()
    }

    /// The length at an index.
    pub fn get(&self, index: usize) -> Option<u32>
        ensures { result ≡ slice_get self.now.lens index }
    {
        match self.tree.get(index) {
            Some((_slot, own)) => Some(own.elements),
            None => None,
        }
    }

    /// All lengths added up.
    pub fn total(&self) -> usize
        requires { sum self.now.lens < 2 ^ 32 }
        ensures { result ≡ sum self.now.lens }
    {
        self.tree.sum().elements as usize
    }

    /// The lengths before an index added up.
    pub fn before(&self, index: usize) -> usize
        requires small { sum self.now.lens < 2 ^ 32 }
        requires within { index ≤ length self.now.lens }
        ensures { result ≡ sum (take index self.now.lens) }
    {
        self.tree.seek(ByPart, index).before.elements as usize
    }

    /// The part in which a position of the whole stands, and its position there; `None` exactly where the position isn't below the
    /// whole length.
    pub fn locate(&self, position: usize) -> Option<(usize, usize)>
        requires { sum self.now.lens < 2 ^ 32 }
        ensures { IsLocated self.now.lens position result }
    {
        let found = self.tree.seek(ByElement, position);
        match found.own {
            Some(_own) => Some((found.position, position - found.before.elements as usize)),
            None => None,
        }
    }
}
