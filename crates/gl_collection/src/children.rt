//! What is told of the children of one element.

ghost use Rattle.std.specs.Prelude.{◌≡◌, ◌++◌, OnOk};
ghost use Rattle.gl_joined.specs.Piece.{normal};
ghost use Rattle.gl_kernel.specs.Plans.{CanTell};
ghost use Rattle.gl_collection.specs.Told.{child_updates};

use gl_delta::{Cell, Delta};
use gl_joined::{Lone, tell_part};
use gl_kernel::tell;
use gl_value::Value;
use std::alloc::AllocError;

/// Tells of the children of an updated element: as many as it had and has are updated, and the others are deleted or
/// inserted.
pub(crate) fn tell_children(
    out: &mut Delta,
    olds: &[Value],
    news: &[Value],
) -> Result<(), AllocError>
    requires { CanTell (child_updates olds.now news.now) out.old.pieces }
    ensures { OnOk result
        (out.new.pieces ≡ normal (out.old.pieces ++ child_updates olds.now news.now)) }
{
    let paired = olds.len().min(news.len());
    'children: for position in 0..paired {
        tell(
            out,
            Cell::Update(olds[position].copy()?, news[position].copy()?),
        )?;
    }
    tell_part(out, Lone::Deleted, &olds, paired)?;
    tell_part(out, Lone::Inserted, &news, paired)
}
