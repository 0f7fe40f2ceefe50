//! The edits of a list of values that a delta comes to.

ghost use Rattle.std.specs.Prelude.{◌≡◌, ◌+◌, ◌≤◌, ◌++◌, map, IfOk, OnOk};
ghost use Rattle.spec_lists.specs.Piece.{old_len};
ghost use Rattle.spec_lists.specs.Cells.{pieces_in};
ghost use Rattle.gl_delta.specs.Cells.{cell_ref};
ghost use Rattle.gl_kernel.specs.Fates.{fate, edits_of};
ghost use Rattle.gl_source.specs.Kept.{itself};

use gl_delta::{CellRef, Delta};
use gl_kernel::LogStep;
use gl_value::Value;
use std::alloc::{AllocError, Global};

/// The edits of the values. It takes memory for them; kept elements cost one step for each stretch of them.
pub(crate) fn log_of(alloc: Global, d: &Delta) -> Result<Vec<LogStep<Value>>, AllocError>
    ensures { IfOk result (λ log. log.items ≡ edits_of 0 (map (fate itself) d.now.pieces)) }
{
    let _olds = d.old_len();
    let mut log = Vec::new(alloc);
    let mut position = 0;
    let mut cells = d.cells();
    'cells: while let Some(cell) = cells.next() {
        position = note(&mut log, position, cell)?;
    }
    Ok(log)
}

// The edits of one cell more. It answers the place after it.
fn note(
    log: &mut Vec<LogStep<Value>>,
    position: usize,
    cell: CellRef<'_>,
) -> Result<usize, AllocError>
    requires { position + old_len (pieces_in (cell_ref cell)) ≤ 2147483647 }
    ensures edits { OnOk result (log.new.items
        ≡ log.old.items ++ edits_of position (map (fate itself) (pieces_in (cell_ref cell.entry)))) }
    ensures position { IfOk result
        (λ rest. rest ≡ position + old_len (pieces_in (cell_ref cell.entry))) }
{
    match cell {
        CellRef::Keep(n) => Ok(position + n),
        CellRef::Update(_old, new) => {
            log.push(LogStep::Set(position, new.copy()?))?;
            Ok(position + 1)
        }
        CellRef::Delete(_old) => {
            log.push(LogStep::Remove(position))?;
            Ok(position + 1)
        }
        CellRef::Insert(new) => {
            log.push(LogStep::Insert(position, new.copy()?))?;
            Ok(position)
        }
    }
}
