//! What a grouping tells when it gets another order.

ghost use Rattle.std.specs.Prelude.{◌≡◌, ◌++◌, ◌≤◌, length, map, IfOk, OnOk};
ghost use Rattle.spec_sorting.specs.Piece.{deleted, inserted, normal};
ghost use Rattle.spec_sorting.specs.Making.{replaced};
ghost use Rattle.gl_kernel.specs.Plans.{CanTell};

use gl_delta::{Cell, Delta};
use gl_kernel::{ValueList, element, tell};
use gl_value::Shelf;
use std::alloc::{AllocError, Global};

// All of these deleted, from the first to the last.
fn delete_all(out: &mut Delta, groups: &ValueList) -> Result<(), AllocError>
    requires { CanTell (map deleted groups.now.values) out.old.pieces }
    ensures { OnOk result
        (out.new.pieces ≡ normal (out.old.pieces ++ map deleted groups.now.values)) }
{
    for place in 0..groups.len() {
        tell(out, Cell::Delete(element(groups, place).copy()?))?;
    }
    let _normal = out.old_len();
    Ok(())
}

// All of these inserted, from the first to the last.
fn insert_all(out: &mut Delta, groups: &ValueList) -> Result<(), AllocError>
    requires { CanTell (map inserted groups.now.values) out.old.pieces }
    ensures { OnOk result
        (out.new.pieces ≡ normal (out.old.pieces ++ map inserted groups.now.values)) }
{
    for place in 0..groups.len() {
        tell(out, Cell::Insert(element(groups, place).copy()?))?;
    }
    let _normal = out.old_len();
    Ok(())
}

/// What is told of another order: all groups are deleted and inserted.
pub(crate) fn replaced(
    alloc: Global,
    before: &ValueList,
    after: &ValueList,
) -> Result<Delta, AllocError>
    requires before { length before.now.values ≤ 2147483647 }
    requires after { length after.now.values ≤ 2147483647 }
    ensures { IfOk result (λ out. out.pieces ≡ replaced before.now.values after.now.values) }
{
    let mut out = Delta::start(alloc);
    delete_all(&mut out, before)?;
    insert_all(&mut out, after)?;
    Ok(out)
}
