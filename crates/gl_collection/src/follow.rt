//! What a collection tells of a change of its list, and the edits of what it keeps.

ghost use Rattle.std.specs.Prelude.{◌≡◌, ◌+◌, ◌≤◌, length, map, drop, sum, IfOk, OnOk};
ghost use Rattle.gl_joined.specs.Piece.{old_len, new_len, normal};
ghost use Rattle.gl_joined.specs.Cells.{pieces_in};
ghost use Rattle.spec_lang.specs.Kids.{kids};
ghost use Rattle.gl_delta.specs.Cells.{cell_ref};
ghost use Rattle.gl_kernel.specs.Fates.{fate, edits_of};
ghost use Rattle.gl_kernel.specs.Plans.{GoesOn, CanTell};
ghost use Rattle.gl_collection.specs.Told.{child_len, told_children};

use crate::children::tell_children;
use gl_delta::{Cell, CellRef, Delta};
use gl_joined::{LengthList, Lone, tell_part};
use gl_kernel::{LogStep, Plan, tell};
use gl_lang::Kids;
use std::alloc::{AllocError, Global};

/// What is told of a change, and the edits of the numbers of children.
pub(crate) fn follow(
    alloc: Global,
    model: &Kids,
    lens: &LengthList,
    d: &Delta,
) -> Result<Plan<u32>, AllocError>
    requires olds { old_len d.now.pieces ≡ length lens.now.lens }
    requires old_children { old_len (told_children (kids model.now) lens.now.lens d.now.pieces)
        ≤ 2147483647 }
    requires new_children { new_len (told_children (kids model.now) lens.now.lens d.now.pieces)
        ≤ 2147483647 }
    requires small { sum lens.now.lens ≤ 2147483647 }
    ensures told { IfOk result (λ plan. plan.out.pieces
        ≡ normal (told_children (kids model.now) lens.now.lens d.now.pieces)) }
    ensures edits { IfOk result (λ plan. plan.log.items
        ≡ edits_of 0 (map (fate (child_len (kids model.now))) d.now.pieces)) }
{
    let _olds = d.old_len();
    let mut plan = Plan::new(alloc);
    let mut cells = d.cells();
    'cells: while let Some(cell) = cells.next() {
        step(model, lens, &mut plan, cell)?;
    }
    let _normal = plan.out.old_len();
    Ok(plan)
}

// One cell more.
fn step(
    model: &Kids,
    lens: &LengthList,
    plan: &mut Plan<u32>,
    cell: CellRef<'_>,
) -> Result<(), AllocError>
    requires within { plan.old.position + old_len (pieces_in (cell_ref cell))
        ≤ length lens.now.lens }
    requires few { length lens.now.lens ≤ 2147483647 }
    requires small { sum lens.now.lens ≤ 2147483647 }
    requires can { CanTell
        (told_children (kids model.now) (drop plan.old.position lens.now.lens) (pieces_in (cell_ref cell)))
        plan.old.out.pieces }
    ensures { OnOk result (GoesOn
        (told_children (kids model.now) (drop plan.old.position lens.now.lens) (pieces_in (cell_ref cell.entry)))
        (edits_of plan.old.position (map (fate (child_len (kids model.now))) (pieces_in (cell_ref cell.entry))))
        (old_len (pieces_in (cell_ref cell.entry))) plan.old plan.new) }
{
    match cell {
        CellRef::Keep(n) => {
            let children = lens.before(plan.position + n) - lens.before(plan.position);
            tell(&mut plan.out, Cell::Keep(children))?;
            plan.position += n;
            Ok(())
        }
        CellRef::Update(old, new) => {
            let (olds, news) = (model.of(old), model.of(new));
            tell_children(&mut plan.out, olds, news)?;
            plan.log
                .push(LogStep::Set(plan.position, news.len() as u32))?;
            plan.position += 1;
            Ok(())
        }
        CellRef::Delete(old) => {
            tell_part(&mut plan.out, Lone::Deleted, &model.of(old), 0)?;
            plan.log.push(LogStep::Remove(plan.position))?;
            plan.position += 1;
            Ok(())
        }
        CellRef::Insert(new) => {
            let news = model.of(new);
            tell_part(&mut plan.out, Lone::Inserted, &news, 0)?;
            plan.log
                .push(LogStep::Insert(plan.position, news.len() as u32))?;
            Ok(())
        }
    }
}
