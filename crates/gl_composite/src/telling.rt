//! Telling of a member's change as part of a composite's.

ghost use Rattle.std.specs.Prelude.{◌≡◌, ◌++◌, IfOk, OnOk};
ghost use Rattle.gl_joined.specs.Piece.{normal};
ghost use Rattle.gl_delta.specs.Cells.{cell_of, cell_ref};
ghost use Rattle.gl_kernel.specs.Plans.{CanTell};

use gl_delta::{Cell, CellRef, Delta};
use gl_kernel::tell;
use std::alloc::AllocError;

/// Tells of another change after what is told. It takes memory for each of its changes.
pub(crate) fn tell_change(out: &mut Delta, d: &Delta) -> Result<(), AllocError>
    requires { CanTell d.now.pieces out.old.pieces }
    ensures { OnOk result (out.new.pieces ≡ normal (out.old.pieces ++ d.now.pieces)) }
{
    let mut cells = d.cells();
    'cells: while let Some(cell) = cells.next() {
        tell(out, copied(cell)?)?;
    }
    let _normal = out.old_len();
    Ok(())
}

// The same cell, with values of its own.
fn copied(cell: CellRef<'_>) -> Result<Cell, AllocError>
    ensures { IfOk result (λ copy. cell_of copy ≡ cell_ref cell.entry) }
{
    match cell {
        CellRef::Keep(n) => Ok(Cell::Keep(n)),
        CellRef::Update(old, new) => Ok(Cell::Update(old.copy()?, new.copy()?)),
        CellRef::Delete(old) => Ok(Cell::Delete(old.copy()?)),
        CellRef::Insert(new) => Ok(Cell::Insert(new.copy()?)),
    }
}
