//! Telling of the elements of a part that is deleted or inserted.

ghost use Rattle.std.specs.Prelude.{◌≡◌, ◌++◌, ◌∷◌, [], map, drop, OnOk};
ghost use Rattle.spec_lists.specs.Piece.{normal};
ghost use Rattle.gl_kernel.specs.Plans.{CanTell};
ghost use Rattle.gl_joined.specs.Lone.{lone_piece};

use gl_delta::{Cell, Delta};
use gl_kernel::{element, tell};
use gl_value::{Shelf, Value};
use std::alloc::AllocError;

/// What becomes of elements that have no partner in the other list.
#[derive(Clone, Copy)]
pub enum Lone {
    Deleted,
    Inserted,
}

/// Tells of the elements of a part from one on, all of them deleted or all inserted. It takes memory for each of them.
pub fn tell_part<S: Shelf>(
    out: &mut Delta,
    lone: Lone,
    part: &S,
    from: usize,
) -> Result<(), AllocError>
    requires { CanTell (map (lone_piece lone) (drop from (S.items part.now))) out.old.pieces }
    ensures { OnOk result (out.new.pieces
        ≡ normal (out.old.pieces ++ map (lone_piece lone) (drop from (S.items part.now)))) }
{
    'elements: for position in from..part.len() {
        tell_one(out, lone, element(part, position))?;
    }
    let _normal = out.old_len();
    Ok(())
}

// One element more.
fn tell_one(out: &mut Delta, lone: Lone, value: &Value) -> Result<(), AllocError>
    requires { CanTell (lone_piece lone value.now ∷ []) out.old.pieces }
    ensures { OnOk result
        (out.new.pieces ≡ normal (out.old.pieces ++ lone_piece lone value.now ∷ [])) }
{
    match lone {
        Lone::Deleted => tell(out, Cell::Delete(value.copy()?)),
        Lone::Inserted => tell(out, Cell::Insert(value.copy()?)),
    }
}
