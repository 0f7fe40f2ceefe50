//! A part of a delta's new list.

ghost use Rattle.std.specs.Prelude.{◌≡◌, ◌≤◌, length};
ghost use Rattle.spec_lists.specs.Piece.{new_len};
ghost use Rattle.gl_delta.specs.Part.{part_of, part_items};

use crate::delta::Delta;
use crate::plain::{plain_before, plain_position};
use gl_value::{Shelf, Value};

/// The elements of a delta's new list below a place, then those from there on that are of a plain pair: what a
/// derived list knows while it follows the delta, takes out what was deleted or updated, and then puts in elements
/// from left to right.
#[derive(Clone, Copy)]
pub struct Part<'a, S: Shelf> {
    delta: &'a Delta,
    new: &'a S,
    upto: usize,
}

impl Delta {
    /// The part of the new list that has all elements below `upto`, and from there on those of a plain pair. It takes
    /// no memory, and constant time. An element of it is found in time logarithmic in the changes of the delta.
    pub fn part<'a, S: Shelf>(&'a self, new: &'a S, upto: usize) -> Part<'a, S>
        requires new { length (S.items new.now) ≡ new_len self.now.pieces }
        requires within { upto ≤ new_len self.now.pieces }
        ensures { part_items S.items result ≡ part_of self.now.pieces upto (S.items new.now) }
    {
        Part {
            delta: self,
            new,
            upto,
        }
    }
}

impl<'a, S: Shelf> Shelf for Part<'a, S> {
    ghost items = { part_items S.items };

    fn len(&self) -> usize {
        let all = self.new.len();
        if self.upto >= all {
            return all;
        }
        let before = plain_before(self.delta, self.upto);
        self.upto + (plain_before(self.delta, all) - before)
    }

    fn get(&self, position: usize) -> Option<&Value> {
        if position < self.upto {
            return self.new.get(position);
        }
        let before = plain_before(self.delta, self.upto);
        self.new.get(plain_position(self.delta, before + (position - self.upto))?)
    }
}
