//! What a function list tells of a change of its list, and the edits of what it keeps.

ghost use Rattle.std.specs.Prelude.{◌≡◌, ◌+◌, ◌<◌, ◌≤◌, ◌∷◌, [], length, map, IfOk, OnOk};
ghost use Rattle.spec_views.specs.Piece.{updated, old_len, normal};
ghost use Rattle.spec_views.specs.Cells.{pieces_in};
ghost use Rattle.spec_lang.specs.Func.{eval};
ghost use Rattle.gl_delta.specs.Cells.{cell_ref};
ghost use Rattle.gl_kernel.specs.declared.log_step.LogStep.TheVariants.{Set};
ghost use Rattle.gl_kernel.specs.Fates.{fate, edits_of};
ghost use Rattle.gl_kernel.specs.Plans.{GoesOn, CanTell};
ghost use Rattle.gl_function.specs.Told.{told_results};

use gl_delta::{Cell, CellRef, Delta};
use gl_kernel::{LogStep, Plan, ValueList, element, tell};
use gl_lang::Func;
use gl_value::Value;
use std::alloc::{AllocError, Global};

/// What is told of a change, and the edits of the results.
pub(crate) fn follow(
    alloc: Global,
    func: &Func,
    results: &ValueList,
    d: &Delta,
) -> Result<Plan<Value>, AllocError>
    requires { old_len d.now.pieces ≡ length results.now.values }
    ensures told { IfOk result (λ plan. plan.out.pieces
        ≡ normal (told_results (eval func.now) results.now.values 0 d.now.pieces)) }
    ensures edits { IfOk result
        (λ plan. plan.log.items ≡ edits_of 0 (map (fate (eval func.now)) d.now.pieces)) }
{
    let _olds = d.old_len();
    let _news = d.new_len();
    let mut plan = Plan::new(alloc);
    let mut cells = d.cells();
    while let Some(cell) = cells.next() {
        step(alloc, func, results, &mut plan, cell)?;
    }
    let _normal = plan.out.old_len();
    Ok(plan)
}

// One cell more.
fn step(
    alloc: Global,
    func: &Func,
    results: &ValueList,
    plan: &mut Plan<Value>,
    cell: CellRef<'_>,
) -> Result<(), AllocError>
    requires within { plan.old.position + old_len (pieces_in (cell_ref cell))
        ≤ length results.now.values }
    requires few { length results.now.values ≤ 2147483647 }
    requires can { CanTell
        (told_results (eval func.now) results.now.values plan.old.position
        (pieces_in (cell_ref cell)))
        plan.old.out.pieces }
    ensures { OnOk result (GoesOn
        (told_results (eval func.now) results.now.values plan.old.position (pieces_in (cell_ref cell.entry)))
        (edits_of plan.old.position (map (fate (eval func.now)) (pieces_in (cell_ref cell.entry))))
        (old_len (pieces_in (cell_ref cell.entry))) plan.old plan.new) }
{
    match cell {
        CellRef::Keep(n) => {
            tell(&mut plan.out, Cell::Keep(n))?;
            plan.position += n;
            Ok(())
        }
        CellRef::Update(_old, new) => {
            let old = element(results, plan.position);
            tell_updated(alloc, func, plan, old, new)
        }
        CellRef::Delete(_old) => {
            let old = element(results, plan.position);
            tell(&mut plan.out, Cell::Delete(old.copy()?))?;
            plan.log.push(LogStep::Remove(plan.position))?;
            plan.position += 1;
            Ok(())
        }
        CellRef::Insert(new) => {
            let result = func.eval(alloc, new)?;
            plan.log
                .push(LogStep::Insert(plan.position, result.copy()?))?;
            tell(&mut plan.out, Cell::Insert(result))
        }
    }
}

/// What is told of an element whose result was `old` and that now is another one.
pub(crate) fn tell_updated(
    alloc: Global,
    func: &Func,
    plan: &mut Plan<Value>,
    old: &Value,
    new: &Value,
) -> Result<(), AllocError>
    requires few { plan.old.position < 2147483647 }
    requires can { CanTell (updated old.now (eval func.now new.now) ∷ []) plan.old.out.pieces }
    ensures { OnOk result (GoesOn (updated old.now (eval func.now new.now) ∷ [])
        (Set plan.old.position (eval func.now new.now) ∷ []) 1 plan.old plan.new) }
{
    let result = func.eval(alloc, new)?;
    plan.log.push(LogStep::Set(plan.position, result.copy()?))?;
    tell(&mut plan.out, Cell::Update(old.copy()?, result))?;
    plan.position += 1;
    Ok(())
}
