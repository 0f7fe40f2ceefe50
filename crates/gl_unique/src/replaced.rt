//! What a unique list tells when it gets another order.

ghost use Rattle.std.specs.Prelude.{◌≡◌, ◌<◌, ◌≤◌, ◌++◌, ◌∷◌, [], length, map, slice_get, Some, IfOk, OnOk};
ghost use Rattle.spec_sorting.specs.Piece.{normal};
ghost use Rattle.spec_sorting.specs.Making.{replaced};
ghost use Rattle.spec_classes.specs.Unique.{unique_view};
ghost use Rattle.gl_kernel.specs.Plans.{CanTell};
ghost use Rattle.gl_classes.specs.Sorting.{order_cmp};
ghost use Rattle.gl_classes.specs.Stands.{StandsFor};
ghost use Rattle.gl_unique.specs.Replacing.{turned};

use gl_classes::Classes;
use gl_delta::Delta;
use gl_kernel::{element, tell_delete, tell_insert};
use gl_value::{Shelf, Value};
use std::alloc::{AllocError, Global};

// The element that a class shows.
fn shown<'a, S: Shelf>(classes: &Classes, input: &'a S, class: usize) -> &'a Value
    requires stands { StandsFor classes.now (S.items input.now) }
    requires within { class
        < length (unique_view (order_cmp classes.now.list.order) (S.items input.now)) }
    ensures { slice_get (unique_view (order_cmp classes.now.list.order) (S.items input.now)) class
        ≡ Some result.now }
{
    match classes.find_first(class) {
        Some(first) => element(input, first),
        None => unreachable!(),
    }
}

// An element that was shown, or one that is.
fn tell_turned(out: &mut Delta, were: bool, value: &Value) -> Result<(), AllocError>
    requires { CanTell (turned were value.now ∷ []) out.old.pieces }
    ensures { OnOk result
        (out.new.pieces ≡ normal (out.old.pieces ++ turned were value.now ∷ [])) }
{
    if were {
        tell_delete(out, true, value)
    } else {
        tell_insert(out, true, value)
    }
}

// All elements deleted that were shown, or inserted that are.
fn tell_all<S: Shelf>(
    out: &mut Delta,
    classes: &Classes,
    input: &S,
    were: bool,
) -> Result<(), AllocError>
    requires stands { StandsFor classes.now (S.items input.now) }
    requires can { CanTell
        (map (turned were) (unique_view (order_cmp classes.now.list.order) (S.items input.now)))
        out.old.pieces }
    ensures { OnOk result (out.new.pieces ≡ normal (out.old.pieces
        ++ map (turned were) (unique_view (order_cmp classes.now.list.order) (S.items input.now)))) }
{
    let _olds = out.old_len();
    for class in 0..classes.len() {
        tell_turned(out, were, shown(classes, input, class))?;
    }
    Ok(())
}

/// What is told of another order: all elements are deleted and inserted.
pub(crate) fn replaced<S: Shelf>(
    alloc: Global,
    before: &Classes,
    after: &Classes,
    input: &S,
) -> Result<Delta, AllocError>
    requires before { StandsFor before.now (S.items input.now) }
    requires after { StandsFor after.now (S.items input.now) }
    requires few { length (S.items input.now) ≤ 2147483647 }
    ensures { IfOk result (λ out. out.pieces ≡ replaced
        (unique_view (order_cmp before.now.list.order) (S.items input.now))
        (unique_view (order_cmp after.now.list.order) (S.items input.now))) }
{
    let mut out = Delta::start(alloc);
    tell_all(&mut out, before, input, true)?;
    tell_all(&mut out, after, input, false)?;
    Ok(out)
}
