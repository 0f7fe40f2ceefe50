//! Building the delta of a list whose elements are some of its input's, or one for each of them.

ghost use Rattle.std.specs.Prelude.{◌≡◌, ◌++◌, [], OnOk};
ghost use Rattle.spec_lists.specs.Piece.{kept, updated, normal};
ghost use Rattle.spec_lists.specs.Cells.{pieces_in};
ghost use Rattle.spec_views.specs.Chosen.{told_of_pair, told_of_old, told_of_new};
ghost use Rattle.gl_delta.specs.Cells.{cell_of};
ghost use Rattle.gl_kernel.specs.Plans.{CanTell};

use gl_delta::{Cell, Delta};
use gl_value::Value;
use std::alloc::AllocError;

/// One more cell at the right end. It takes memory for a change.
pub fn tell(out: &mut Delta, cell: Cell) -> Result<(), AllocError>
    requires { CanTell (pieces_in (cell_of cell)) out.old.pieces }
    ensures { OnOk result (out.new.pieces ≡ normal (out.old.pieces ++ pieces_in (cell_of cell))) }
{
    match out.push(cell) {
        Ok(()) => Ok(()),
        Err((_cell, failed)) => Err(failed),
    }
}

/// What is told of an updated element, by whether it was shown and is shown.
pub fn tell_update(
    out: &mut Delta,
    was: bool,
    is: bool,
    old: &Value,
    new: &Value,
) -> Result<(), AllocError>
    requires { CanTell (told_of_pair was is (updated old.now new.now) old.now new.now [])
        out.old.pieces }
    ensures { OnOk result
        (out.new.pieces
        ≡ normal
        (out.old.pieces ++ told_of_pair was is (updated old.now new.now) old.now new.now [])) }
{
    match (was, is) {
        (true, true) => tell(out, Cell::Update(old.copy()?, new.copy()?)),
        (true, false) => tell(out, Cell::Delete(old.copy()?)),
        (false, true) => tell(out, Cell::Insert(new.copy()?)),
        (false, false) => tell(out, Cell::Keep(0)),
    }
}

/// What is told of an element that stays, by whether it was shown and is shown.
pub fn tell_kept(out: &mut Delta, was: bool, is: bool, value: &Value) -> Result<(), AllocError>
    requires { CanTell (told_of_pair was is kept value.now value.now []) out.old.pieces }
    ensures { OnOk result
        (out.new.pieces
        ≡ normal (out.old.pieces ++ told_of_pair was is kept value.now value.now [])) }
{
    match (was, is) {
        (true, true) => tell(out, Cell::Keep(1)),
        (true, false) => tell(out, Cell::Delete(value.copy()?)),
        (false, true) => tell(out, Cell::Insert(value.copy()?)),
        (false, false) => tell(out, Cell::Keep(0)),
    }
}

/// What is told of a deleted element, by whether it was shown.
pub fn tell_delete(out: &mut Delta, was: bool, old: &Value) -> Result<(), AllocError>
    requires { CanTell (told_of_old was old.now []) out.old.pieces }
    ensures { OnOk result (out.new.pieces ≡ normal (out.old.pieces ++ told_of_old was old.now [])) }
{
    if was {
        tell(out, Cell::Delete(old.copy()?))
    } else {
        tell(out, Cell::Keep(0))
    }
}

/// What is told of an inserted element, by whether it is shown.
pub fn tell_insert(out: &mut Delta, is: bool, new: &Value) -> Result<(), AllocError>
    requires { CanTell (told_of_new is new.now []) out.old.pieces }
    ensures { OnOk result (out.new.pieces ≡ normal (out.old.pieces ++ told_of_new is new.now [])) }
{
    if is {
        tell(out, Cell::Insert(new.copy()?))
    } else {
        tell(out, Cell::Keep(0))
    }
}
