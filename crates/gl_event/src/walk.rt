//! The changes of an event, one after another.

ghost use Rattle.std.specs.Prelude.{◌≡◌, ◌+◌, ◌<◌, ◌≤◌, length, IfSome};
ghost use Rattle.std.specs.Iterator.{YieldsFirstBy, item_count};
ghost use Rattle.gl_event.specs.Blocks.{index_after, run, run_end};
ghost use Rattle.gl_event.specs.Changes.{change_ref, changes_rest, IsFew};

use crate::block::ChangeKind;
use crate::change::Change;
use gl_delta::{CellRef, Cells};

/// The changes of an event from left to right.
#[derive(Drop)]
pub struct Walk<'a> {
    pub(crate) cells: Cells<'a>,
    // How many elements stand to the left of the cells that are left.
    pub(crate) at: usize,
}

impl<'a> Walk<'a> {
    // The next change, and how many elements stand to the left of what is after it.
    pub(crate) fn step(&mut self) -> Option<Change<'a>>
        requires { IsFew self.old }
        ensures gives { YieldsFirstBy change_ref changes_rest self.old result self.new }
        ensures index_after { IfSome result (λ c. self.new.at ≡ index_after (change_ref c)) }
        ensures few { IsFew self.new }
    {
        while let Some(cell) = self.cells.next() {
            let at = self.at;
            match cell {
                CellRef::Keep(n) => self.at += n,
                CellRef::Update(old, new) => {
                    self.at += 1;
                    return Some(Change::Update { at, old, new });
                }
                CellRef::Delete(old) => return Some(Change::Delete { at, old }),
                CellRef::Insert(new) => {
                    self.at += 1;
                    return Some(Change::Insert { at, new });
                }
            }
        }
        None
    }

    // How many of the changes go on: of a kind, and each at the index right after the one before. Beside that number
    // the index right after the last of them.
    pub(crate) fn run(mut self, kind: ChangeKind) -> (usize, usize)
        requires few { IsFew self }
        requires fits { length (changes_rest self) ≤ 4294967294 }
        ensures count { result.0 ≡ run kind self.entry.at (changes_rest self.entry) }
        ensures at { result.1 ≡ run_end kind self.entry.at (changes_rest self.entry) }
    {
        let mut at = self.at;
        let mut count = 0;
        while let Some(change) = self.step() {
            if !change.goes_on(kind, at) {
                return (count, at);
            }
            at = self.at;
            count += 1;
        }
        (count, at)
    }
}

impl<'a> Iterator for Walk<'a> {
    type Item = Change<'a>;

    ghost can_next = { IsFew };

    ghost next_gives = { YieldsFirstBy change_ref changes_rest };

    ghost remaining = { item_count changes_rest };

    /// The next change; `None` exactly after the last.
    fn next(&mut self) -> Option<Change<'a>> {
        self.step()
    }
}
