//! What a filter tells of a change of its list, and the edits of its marks.

ghost use Rattle.std.specs.Prelude.{◌≡◌, ◌+◌, ◌≤◌, length, drop, IfOk, OnOk};
ghost use Rattle.spec_views.specs.Piece.{old_len, normal};
ghost use Rattle.spec_views.specs.Cells.{pieces_in};
ghost use Rattle.spec_views.specs.Matcher.{accepts};
ghost use Rattle.gl_delta.specs.Cells.{cell_ref};
ghost use Rattle.gl_kernel.specs.Fates.{edits_of};
ghost use Rattle.gl_kernel.specs.Plans.{GoesOn, CanTell};
ghost use Rattle.gl_filter.specs.Told.{told_marks, fates, asked};

use crate::marks::note;
use gl_barcode::Barcode;
use gl_delta::{Cell, CellRef, Delta};
use gl_kernel::{LogStep, Plan, tell, tell_delete, tell_insert, tell_update};
use gl_lang::Matcher;
use gl_value::Steps;
use std::alloc::{AllocError, Global};
use std::sync::ledger::Ledger;

/// What is told of a change, and the edits of the marks.
pub(crate) fn follow<L: Ledger>(
    alloc: Global,
    matcher: &Matcher,
    marks: &Barcode,
    d: &Delta,
    steps: &mut Steps<L>,
) -> Result<Plan<bool>, AllocError>
    requires { old_len d.now.pieces ≡ length marks.now.shown }
    ensures told { IfOk result
        (λ plan. plan.out.pieces
        ≡ normal (told_marks (accepts matcher.now) marks.now.shown d.now.pieces)) }
    ensures edits { IfOk result
        (λ plan. plan.log.items
        ≡ edits_of 0 (fates (accepts matcher.now) marks.now.shown d.now.pieces)) }
    ensures counted { steps.new ≤ steps.old + asked d.now.pieces }
{
    let _olds = d.old_len();
    let _news = d.new_len();
    let mut plan = Plan::new(alloc);
    let mut cells = d.cells();
    while let Some(cell) = cells.next() {
        step(matcher, marks, &mut plan, cell, steps)?;
    }
    let _normal = plan.out.old_len();
    Ok(plan)
}

// One cell more.
fn step<L: Ledger>(
    matcher: &Matcher,
    marks: &Barcode,
    plan: &mut Plan<bool>,
    cell: CellRef<'_>,
    steps: &mut Steps<L>,
) -> Result<(), AllocError>
    requires within { plan.old.position + old_len (pieces_in (cell_ref cell))
        ≤ length marks.now.shown }
    requires few { length marks.now.shown ≤ 2147483647 }
    requires can { CanTell
        (told_marks (accepts matcher.now) (drop plan.old.position marks.now.shown)
        (pieces_in (cell_ref cell))) plan.old.out.pieces }
    ensures ok { OnOk result (GoesOn
        (told_marks (accepts matcher.now) (drop plan.old.position marks.now.shown) (pieces_in (cell_ref cell.entry)))
        (edits_of plan.old.position (fates (accepts matcher.now) (drop plan.old.position marks.now.shown) (pieces_in (cell_ref cell.entry))))
        (old_len (pieces_in (cell_ref cell.entry))) plan.old plan.new) }
    ensures counted { steps.new ≡ steps.old + asked (pieces_in (cell_ref cell.entry)) }
{
    let position = plan.position;
    match cell {
        CellRef::Keep(n) => {
            let shown = marks.rank(position + n) - marks.rank(position);
            tell(&mut plan.out, Cell::Keep(shown))?;
            plan.position += n;
            Ok(())
        }
        CellRef::Update(old, new) => {
            let was = marks.shown(position);
            let is = matcher.accepts(new, steps);
            tell_update(&mut plan.out, was, is, old, new)?;
            note(&mut plan.log, position, was, is)?;
            plan.position += 1;
            Ok(())
        }
        CellRef::Delete(old) => {
            tell_delete(&mut plan.out, marks.shown(position), old)?;
            plan.log.push(LogStep::Remove(position))?;
            plan.position += 1;
            Ok(())
        }
        CellRef::Insert(new) => {
            let is = matcher.accepts(new, steps);
            tell_insert(&mut plan.out, is, new)?;
            plan.log.push(LogStep::Insert(position, is))?;
            Ok(())
        }
    }
}
