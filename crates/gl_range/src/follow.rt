//! What a range tells of a change of its list.

ghost use Rattle.std.specs.Prelude.{◌≡◌, ◌+◌, ◌≤◌, length, IfOk, OnOk};
ghost use Rattle.spec_views.specs.Piece.{old_len, new_len, normal};
ghost use Rattle.spec_views.specs.Cells.{pieces_in};
ghost use Rattle.gl_delta.specs.Cells.{cell_ref};
ghost use Rattle.gl_kernel.specs.Plans.{CanTell};
ghost use Rattle.gl_range.specs.Told.{told_in};
ghost use Rattle.gl_range.specs.Walks.{GoesOn};

use crate::keeps::tell_keeps;
use crate::slice::Slice;
use gl_delta::{CellRef, Delta};
use gl_kernel::{tell_delete, tell_insert, tell_update};
use gl_value::Shelf;
use std::alloc::{AllocError, Global};

/// What was shown, and what is shown.
#[derive(Clone, Copy)]
pub(crate) struct Slices {
    pub(crate) was: Slice,
    pub(crate) is: Slice,
}

/// What is told of the elements before a place of the old list and one of the new list.
#[derive(Drop)]
pub(crate) struct Walk {
    pub(crate) out: Delta,
    pub(crate) old_position: usize,
    pub(crate) new_position: usize,
}

/// What is told of a change that leads to this list.
pub(crate) fn follow<S: Shelf>(
    alloc: Global,
    slices: Slices,
    input: &S,
    d: &Delta,
) -> Result<Delta, AllocError>
    requires { new_len d.now.pieces ≡ length (S.items input.now) }
    ensures { IfOk result
        (λ out. out.pieces ≡ normal (told_in (S.items input.now) slices 0 0 d.now.pieces)) }
{
    let _olds = d.old_len();
    let _news = d.new_len();
    let mut walk = Walk {
        out: Delta::start(alloc),
        old_position: 0,
        new_position: 0,
    };
    let mut cells = d.cells();
    while let Some(cell) = cells.next() {
        step(&mut walk, slices, input, cell)?;
    }
    let _normal = walk.out.old_len();
    Ok(walk.out)
}

// One cell more.
fn step<S: Shelf>(
    walk: &mut Walk,
    slices: Slices,
    input: &S,
    cell: CellRef<'_>,
) -> Result<(), AllocError>
    requires news { walk.old.new_position + new_len (pieces_in (cell_ref cell))
        ≤ length (S.items input.now) }
    requires olds { walk.old.old_position + old_len (pieces_in (cell_ref cell)) ≤ 2147483647 }
    requires few { length (S.items input.now) ≤ 2147483647 }
    requires can { CanTell
        (told_in (S.items input.now) slices walk.old.old_position walk.old.new_position (pieces_in (cell_ref cell)))
        walk.old.out.pieces }
    ensures { OnOk result (GoesOn
        (told_in (S.items input.now) slices walk.old.old_position walk.old.new_position (pieces_in (cell_ref cell.entry)))
        (old_len (pieces_in (cell_ref cell.entry))) (new_len (pieces_in (cell_ref cell.entry))) walk.old walk.new) }
{
    match cell {
        CellRef::Keep(n) => tell_keeps(walk, slices, input, n),
        CellRef::Update(old, new) => {
            let was = slices.was.shows(walk.old_position);
            let is = slices.is.shows(walk.new_position);
            tell_update(&mut walk.out, was, is, old, new)?;
            walk.old_position += 1;
            walk.new_position += 1;
            Ok(())
        }
        CellRef::Delete(old) => {
            tell_delete(&mut walk.out, slices.was.shows(walk.old_position), old)?;
            walk.old_position += 1;
            Ok(())
        }
        CellRef::Insert(new) => {
            tell_insert(&mut walk.out, slices.is.shows(walk.new_position), new)?;
            walk.new_position += 1;
            Ok(())
        }
    }
}
