//! What a range tells of elements that its list keeps.

ghost use Rattle.std.specs.Prelude.{◌≡◌, ◌+◌, ◌++◌, ◌<◌, ◌≤◌, length, replicate, OnOk};
ghost use Rattle.spec_views.specs.Piece.{kept, normal};
ghost use Rattle.gl_kernel.specs.Plans.{CanTell};
ghost use Rattle.gl_range.specs.Told.{told_in, told_alike};
ghost use Rattle.gl_range.specs.Walks.{GoesOn};

use crate::follow::{Slices, Walk};
use gl_delta::{Cell, Delta};
use gl_kernel::{element, tell, tell_kept};
use gl_value::Shelf;
use std::alloc::AllocError;

/// What is told of so many kept elements. Those next to one another that all stay are told in one cell, and those that
/// stay hidden are passed over in one step: the four ends of both slices cut the elements into at most five stretches.
pub(crate) fn tell_keeps<S: Shelf>(
    walk: &mut Walk,
    slices: Slices,
    input: &S,
    n: usize,
) -> Result<(), AllocError>
    requires news { walk.old.new_position + n ≤ length (S.items input.now) }
    requires olds { walk.old.old_position + n ≤ 2147483647 }
    requires few { length (S.items input.now) ≤ 2147483647 }
    requires can { CanTell
        (told_in (S.items input.now) slices walk.old.old_position walk.old.new_position (replicate n kept))
        walk.old.out.pieces }
    ensures { OnOk result (GoesOn
        (told_in (S.items input.now) slices walk.old.old_position walk.old.new_position (replicate n kept))
        n n walk.old walk.new) }
{
    let mut left = n;
    'stretches: while 0 < left {
        let size = slices.is.alike(walk.new_position, slices.was.alike(walk.old_position, left));
        let was = slices.was.shows(walk.old_position);
        let is = slices.is.shows(walk.new_position);
        tell_alike(&mut walk.out, was, is, input, walk.new_position, size)?;
        walk.old_position += size;
        walk.new_position += size;
        left -= size;
    }
    let _normal = walk.out.old_len();
    Ok(())
}

// What is told of kept elements that were all shown or hidden, and are all shown or hidden.
fn tell_alike<S: Shelf>(
    out: &mut Delta,
    was: bool,
    is: bool,
    input: &S,
    position: usize,
    n: usize,
) -> Result<(), AllocError>
    requires within { position + n ≤ length (S.items input.now) }
    requires few { length (S.items input.now) ≤ 2147483647 }
    requires can { CanTell (told_alike (S.items input.now) was is position n) out.old.pieces }
    ensures { OnOk result
        (out.new.pieces
        ≡ normal (out.old.pieces ++ told_alike (S.items input.now) was is position n)) }
{
    match (was, is) {
        (true, true) => tell(out, Cell::Keep(n)),
        (false, false) => tell(out, Cell::Keep(0)),
        (true, false) => tell_each(out, was, is, input, position, n),
        (false, true) => tell_each(out, was, is, input, position, n),
    }
}

// The same, element by element.
fn tell_each<S: Shelf>(
    out: &mut Delta,
    was: bool,
    is: bool,
    input: &S,
    position: usize,
    n: usize,
) -> Result<(), AllocError>
    requires within { position + n ≤ length (S.items input.now) }
    requires few { length (S.items input.now) ≤ 2147483647 }
    requires can { CanTell (told_alike (S.items input.now) was is position n) out.old.pieces }
    ensures { OnOk result
        (out.new.pieces
        ≡ normal (out.old.pieces ++ told_alike (S.items input.now) was is position n)) }
{
    'elements: for at in position..position + n {
        tell_kept(out, was, is, element(input, at))?;
    }
    let _normal = out.old_len();
    Ok(())
}
