//! An event: what became of a list, told as changes one after another.

ghost use Rattle.std.specs.Prelude.{◌≡◌, ◌+◌, ⊤, drop, option_map, slice_get};
ghost use Rattle.spec_lists.specs.Piece.{old_len};
ghost use Rattle.spec_lists.specs.Cells.{cells_of};
ghost use Rattle.spec_lists.specs.Changes.{changes, changed_len};
ghost use Rattle.gl_delta.specs.Cells.{cells_rest};
ghost use Rattle.gl_event.specs.Blocks.{first_block, block_len};
ghost use Rattle.gl_event.specs.Changes.{change_ref, changes_rest, IsFew};
ghost use Rattle.gl_event.specs.Heard.{IsAt};

use crate::block::Block;
use crate::change::Change;
use crate::walk::Walk;
use gl_delta::{Cells, Delta};
use std::marker::Model;

/// What became of a list, as a list event of Glazed Lists tells it: its changes in order. Contracts see the pieces of its
/// delta and how many changes were given.
#[derive(Drop)]
pub struct Event {
    delta: Delta,
    given: usize,
    // How many elements stand to the left of what the changes given have left.
    at: usize,
}

impl Model for Event {
    ghost use Rattle.gl_event.specs.Heard.{Heard, heard_code, IsAt};

    ghost Value = { Heard };

    ghost coded = { heard_code };

    ghost view = { λ e. record { pieces = e.delta.pieces; given = e.given } };

    ghost invariant = { λ e. IsAt e.delta.pieces e.given e.at };
}

impl Event {
    ghost use Rattle.std.specs.Borrow.{sem, follows_so};
    ghost use Rattle.gl_event.specs.contracts.event.Event.{the_row};
    ghost use Rattle.gl_event.specs.Heard.{further};
    ghost use mathlib.Core.Option.{none};

    /// The event of a delta, with no change given. It takes no memory.
    pub fn of(d: Delta) -> Event
        ensures pieces { result.pieces ≡ d.pieces }
        ensures given { result.given ≡ 0 }
    {
        let _few = d.new_len();
        Event {
            delta: d,
            given: 0,
            at: 0,
        }
    }

    /// How many elements the list had.
    pub fn old_len(&self) -> usize
        ensures { result ≡ old_len self.now.pieces }
    {
        self.delta.old_len()
    }

    /// How many changes there are, in constant time.
    pub fn len(&self) -> usize
        ensures { result ≡ changed_len self.now.pieces }
    {
        self.delta.changes()
    }

    /// All changes, from the first on. It takes no memory.
    pub fn walk(&self) -> Walk<'_>
        ensures changes { changes_rest result ≡ changes self.now.pieces }
        ensures few { IsFew result }
    {
        Walk {
            cells: self.delta.cells(),
            at: 0,
        }
    }

    /// The next change; `None` exactly after the last. It takes no memory.
    pub fn next(&mut self) -> Option<Change<'_>>
        ensures gives { option_map change_ref result
            ≡ slice_get (changes self.old.pieces) self.old.given }
        ensures* after { sem 𝓛 (follows_so the_row the_row self.entry.ghost_name none (λ _ _. ⊤)
            (λ n. n ≡ further self.old)) }
    {
        let _few = self.delta.changes();
        let mut walk = rest(&self.delta, self.given, self.at);
        let change = walk.step()?;
        self.at = walk.at;
        self.given += 1;
        Some(change)
    }

    /// The next block: the next change, and those after it of the same kind that go on from it. `None` exactly after
    /// the last change. It takes no memory, and a step for each change of the block.
    pub fn next_block(&mut self) -> Option<Block>
        ensures gives { result ≡ first_block (drop self.old.given (changes self.old.pieces)) }
        ensures pieces { self.new.pieces ≡ self.old.pieces }
        ensures given { self.new.given ≡ self.old.given + block_len result }
    {
        let _few = self.delta.changes();
        let mut walk = rest(&self.delta, self.given, self.at);
        let first = walk.step()?;
        let kind = first.kind();
        let start = first.index();
        let (more, at) = walk.run(kind);
        let count = more + 1;
        self.at = at;
        self.given += count;
        Some(Block { kind, start, count })
    }

    /// Goes back to the first change.
    pub fn rewind(&mut self)
        ensures pieces { self.new.pieces ≡ self.old.pieces }
        ensures given { self.new.given ≡ 0 }
    {
        self.given = 0;
        self.at = 0;
    }

    /// The cells of its delta.
    pub(crate) fn cells(&self) -> Cells<'_>
        ensures { cells_rest result ≡ cells_of self.now.pieces }
    {
        self.delta.cells()
    }
}

// The changes after so many, to the left of which so many elements stand.
fn rest(delta: &Delta, given: usize, at: usize) -> Walk<'_>
    requires { IsAt delta.now.pieces given at }
    ensures changes { changes_rest result ≡ drop given (changes delta.now.pieces) }
    ensures few { IsFew result }
    ensures at { result.at ≡ at }
{
    Walk {
        cells: delta.cells_from(given),
        at,
    }
}
