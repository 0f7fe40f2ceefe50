//! The inverse of a delta.

ghost use Rattle.std.specs.Prelude.{◌≡◌};
ghost use Rattle.spec_lists.specs.Delta.{inverse};

use crate::delta::Delta;

impl Delta {
    /// The delta from the new list to the old one: its pairs are turned round, in place. It takes no memory.
    pub fn inverse(self) -> Delta
        ensures pieces { result.pieces ≡ inverse self.pieces }
        ensures room { result.room ≡ self.room }
    {
        let Delta { store, olds, news } = self;
        Delta {
            store: store.inverted(),
            olds: news,
            news: olds,
        }
    }
}
