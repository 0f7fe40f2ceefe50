//! The cells of a delta, one after another.

ghost use Rattle.std.specs.Prelude.{◌≡◌, ◌≤◌};
ghost use Rattle.std.specs.Iterator.{YieldsFirstBy, item_count};
ghost use Rattle.spec_lists.specs.Cells.{cells_of};
ghost use Rattle.spec_lists.specs.Changes.{after_changes, changed_len};
ghost use Rattle.gl_delta.specs.Cells.{cell_ref, cells_rest};
ghost use Rattle.gl_delta.specs.Pieces.{pieces};

use crate::cell::CellRef;
use crate::pieces::Pieces;

/// The cells of a delta from left to right, kept elements next to one another in one cell. A step takes time logarithmic
/// in the changes of the delta.
#[derive(Drop)]
pub struct Cells<'a> {
    pub(crate) store: &'a Pieces,
    // The place of the first piece that wasn't given.
    pub(crate) at: usize,
}

impl<'a> Iterator for Cells<'a> {
    type Item = CellRef<'a>;

    ghost next_gives = { YieldsFirstBy cell_ref cells_rest };

    ghost remaining = { item_count cells_rest };

    fn next(&mut self) -> Option<CellRef<'a>> {
        let len = self.store.len();
        if self.at >= len {
            return None;
        }
        let found = self.store.next_changed(self.at);
        if self.at < found {
            let keeps = found - self.at;
            self.at = found;
            return Some(CellRef::Keep(keeps));
        }
        self.at += 1;
        Some(self.store.cell(found))
    }
}

impl Pieces {
    /// The cells after so many changes.
    pub(crate) fn cells_from(&self, changes: usize) -> Cells<'_>
        requires { changes ≤ changed_len (pieces self.now) }
        ensures { cells_rest result ≡ cells_of (after_changes changes (pieces self.now)) }
    {
        Cells {
            store: self,
            at: self.later(changes),
        }
    }

    /// The cells from left to right.
    pub(crate) fn cells(&self) -> Cells<'_>
        ensures { cells_rest result ≡ cells_of (pieces self.now) }
    {
        Cells { store: self, at: 0 }
    }
}
