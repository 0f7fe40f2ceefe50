//! What a delta changes, read off its cells.

ghost use Rattle.std.specs.Prelude.{◌≡◌, ◌+◌, ◌≤◌, [], IfOk, OnOk};
ghost use Rattle.spec_sorting.specs.Piece.{old_len, new_len};
ghost use Rattle.spec_sorting.specs.Cells.{pieces_in};
ghost use Rattle.spec_sorting.specs.Sides.{sides};
ghost use Rattle.gl_delta.specs.Cells.{cell_ref};
ghost use Rattle.gl_arranged.specs.Changes.{changed_of};
ghost use Rattle.gl_arranged.specs.Notes.{Notes};

use crate::changed::Changed;
use gl_delta::{CellRef, Delta};
use std::alloc::{AllocError, Global};

/// The elements that a delta changes, from left to right, and how many elements of either list were passed.
#[derive(Drop)]
pub(crate) struct Collected {
    // Those of the old list, deleted or updated.
    pub(crate) gone: Vec<Changed>,
    // Those of the new list, inserted or updated.
    pub(crate) came: Vec<Changed>,
    olds: usize,
    news: usize,
}

/// The elements that a delta changes. It takes memory for them, and time for them alone.
pub(crate) fn collect(alloc: Global, d: &Delta) -> Result<Collected, AllocError>
    ensures gone { IfOk result (λ c. c.gone.items ≡ changed_of 0 (sides d.now.pieces).old) }
    ensures came { IfOk result (λ c. c.came.items ≡ changed_of 0 (sides d.now.pieces).new) }
{
    let _olds = d.old_len();
    let _news = d.new_len();
    let mut found = Collected {
        gone: Vec::new(alloc),
        came: Vec::new(alloc),
        olds: 0,
        news: 0,
    };
    let mut cells = d.cells();
    while let Some(cell) = cells.next() {
        note(&mut found, cell)?;
    }
    Ok(found)
}

// One cell more.
fn note(found: &mut Collected, cell: CellRef<'_>) -> Result<(), AllocError>
    requires olds { found.old.olds + old_len (pieces_in (cell_ref cell)) ≤ 2147483647 }
    requires news { found.old.news + new_len (pieces_in (cell_ref cell)) ≤ 2147483647 }
    ensures { OnOk result (Notes (pieces_in (cell_ref cell.entry)) found.old found.new) }
{
    let old = found.olds;
    let new = found.news;
    match cell {
        CellRef::Keep(n) => {
            found.olds += n;
            found.news += n;
            Ok(())
        }
        CellRef::Update(_, _) => {
            found.gone.push(Changed {
                source: old,
                partner: Some(new),
            })?;
            found.came.push(Changed {
                source: new,
                partner: Some(old),
            })?;
            found.olds += 1;
            found.news += 1;
            Ok(())
        }
        CellRef::Delete(_) => {
            found.gone.push(Changed {
                source: old,
                partner: None,
            })?;
            found.olds += 1;
            Ok(())
        }
        CellRef::Insert(_) => {
            found.came.push(Changed {
                source: new,
                partner: None,
            })?;
            found.news += 1;
            Ok(())
        }
    }
}
