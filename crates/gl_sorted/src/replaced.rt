//! What a sorted list tells when it gets another order.

ghost use Rattle.std.specs.Prelude.{◌≡◌, ◌++◌, ◌≤◌, [], length, map, IfOk, OnOk};
ghost use Rattle.spec_sorting.specs.Piece.{deleted, inserted, old_len};
ghost use Rattle.spec_sorting.specs.Making.{replaced};
ghost use Rattle.spec_sorting.specs.Source.{element_at};
ghost use Rattle.gl_sorted.specs.Replaced.{AreDeleted};

use gl_arranged::Arrangement;
use gl_delta::{Cell, Delta};
use gl_kernel::{element, tell};
use gl_value::Shelf;
use std::alloc::{AllocError, Global};

// All elements deleted, in sorted order.
fn delete_all<S: Shelf>(out: &mut Delta, list: &Arrangement, input: &S) -> Result<(), AllocError>
    requires all { length list.now.tree.places ≡ length (S.items input.now) }
    requires few { length (S.items input.now) ≤ 2147483647 }
    requires start { out.old.pieces ≡ [] }
    ensures { OnOk result
        (out.new.pieces ≡ map deleted (map (element_at (S.items input.now)) list.now.tree.places)) }
{
    for place in 0..list.len() {
        let value = element(input, list.source_of(place));
        tell(out, Cell::Delete(value.copy()?))?;
    }
    Ok(())
}

// All elements inserted, in sorted order.
fn insert_all<S: Shelf>(out: &mut Delta, list: &Arrangement, input: &S) -> Result<(), AllocError>
    requires all { length list.now.tree.places ≡ length (S.items input.now) }
    requires few { length (S.items input.now) ≤ 2147483647 }
    requires start { AreDeleted out.old.pieces }
    requires olds { old_len out.old.pieces ≤ 2147483647 }
    ensures { OnOk result (out.new.pieces ≡ out.old.pieces
        ++ map inserted (map (element_at (S.items input.now)) list.now.tree.places)) }
{
    for place in 0..list.len() {
        let value = element(input, list.source_of(place));
        tell(out, Cell::Insert(value.copy()?))?;
    }
    Ok(())
}

/// What is told of another order: all elements are deleted and inserted.
pub(crate) fn replaced<S: Shelf>(
    alloc: Global,
    before: &Arrangement,
    after: &Arrangement,
    input: &S,
) -> Result<Delta, AllocError>
    requires before { length before.now.tree.places ≡ length (S.items input.now) }
    requires after { length after.now.tree.places ≡ length (S.items input.now) }
    requires few { length (S.items input.now) ≤ 2147483647 }
    ensures { IfOk result (λ out. out.pieces ≡ replaced
        (map (element_at (S.items input.now)) before.now.tree.places)
        (map (element_at (S.items input.now)) after.now.tree.places)) }
{
    let mut out = Delta::start(alloc);
    delete_all(&mut out, before, input)?;
    insert_all(&mut out, after, input)?;
    Ok(out)
}
