//! What a grouping tells of a change of its list, and the edits of its groups.

ghost use Rattle.std.specs.Prelude.{◌≡◌, ◌+◌, ◌≤◌, ◌∷◌, [], length, map, IfOk, OnOk, OnErr};
ghost use Rattle.spec_sorting.specs.Piece.{identity, old_len, normal};
ghost use Rattle.spec_classes.specs.Told.{group_piece};
ghost use Rattle.gl_kernel.specs.Fates.{fate, edits_of};
ghost use Rattle.gl_kernel.specs.Edits.{played, CanPlay};
ghost use Rattle.gl_kernel.specs.Plans.{GoesOn, CanTell};
ghost use Rattle.gl_classes.specs.Stands.{StandsFor};
ghost use Rattle.gl_grouping.specs.Following.{groups_of, itself, told_groups, IsAmong, CanFollow};

use crate::group::group_at;
use gl_classes::{Classes, Reached, Slot};
use gl_delta::{Cell, Delta};
use gl_kernel::{LogStep, Plan, ValueList, apply, element, tell};
use gl_value::{Shelf, Value};
use std::alloc::{AllocError, Global};

// So many groups are kept.
fn pass(plan: &mut Plan<Value>, kept: usize) -> Result<(), AllocError>
    requires can { CanTell (identity kept) plan.old.out.pieces }
    requires few { plan.old.position + kept ≤ 2147483647 }
    ensures { OnOk result (GoesOn (identity kept) [] kept plan.old plan.new) }
{
    tell(&mut plan.out, Cell::Keep(kept))?;
    plan.position += kept;
    Ok(())
}

// The group of a touched key: `groups` are those of the old list, `classes` are of the new one.
fn tell_group<S: Shelf>(
    alloc: Global,
    classes: &Classes,
    groups: &ValueList,
    input: &S,
    plan: &mut Plan<Value>,
    slot: Slot,
) -> Result<(), AllocError>
    requires stands { StandsFor classes.now (S.items input.now) }
    requires among { IsAmong groups.now.values (groups_of classes.now (S.items input.now)) slot }
    requires few { plan.old.position ≤ 2147483647 }
    requires can { CanTell
        (group_piece groups.now.values (groups_of classes.now (S.items input.now)) slot ∷ [])
        plan.old.out.pieces }
    ensures { OnOk result (GoesOn
        (group_piece groups.now.values (groups_of classes.now (S.items input.now)) slot ∷ [])
        (edits_of plan.old.position (map (fate itself) (group_piece groups.now.values (groups_of classes.now (S.items input.now)) slot ∷ [])))
        (old_len (group_piece groups.now.values (groups_of classes.now (S.items input.now)) slot ∷ [])) plan.old plan.new) }
{
    match (slot.old, slot.new) {
        (Some(old), Some(new)) => {
            let group = group_at(alloc, classes, input, new.index)?;
            plan.log.push(LogStep::Set(plan.position, group.copy()?))?;
            let was = element(groups, old.index);
            tell(&mut plan.out, Cell::Update(was.copy()?, group))?;
            plan.position += 1;
            Ok(())
        }
        (Some(old), None) => {
            let was = element(groups, old.index);
            tell(&mut plan.out, Cell::Delete(was.copy()?))?;
            plan.log.push(LogStep::Remove(plan.position))?;
            plan.position += 1;
            Ok(())
        }
        (None, Some(new)) => {
            let group = group_at(alloc, classes, input, new.index)?;
            plan.log
                .push(LogStep::Insert(plan.position, group.copy()?))?;
            tell(&mut plan.out, Cell::Insert(group))
        }
        (None, None) => unreachable!(),
    }
}

// What is told of the touched keys of a change, and the edits of the groups: `groups` are those of the old list, `classes`
// are of the new one. A group that has changed is made once.
fn follow<S: Shelf>(
    alloc: Global,
    classes: &Classes,
    groups: &ValueList,
    input: &S,
    slots: &[Slot],
) -> Result<Plan<Value>, AllocError>
    requires { CanFollow classes.now groups.now.values (S.items input.now) slots.now }
    ensures told { IfOk result (λ plan. plan.out.pieces ≡ normal
        (told_groups groups.now.values (groups_of classes.now (S.items input.now)) slots.now)) }
    ensures edits { IfOk result (λ plan. plan.log.items ≡ edits_of 0
        (map (fate itself) (told_groups groups.now.values (groups_of classes.now (S.items input.now)) slots.now))) }
{
    let mut plan = Plan::new(alloc);
    let mut at = Reached::start();
    'slots: for slot in slots {
        let kept = at.kept_before(*slot);
        pass(&mut plan, kept)?;
        tell_group(alloc, classes, groups, input, &mut plan, *slot)?;
        at = at.past(kept, *slot);
    }
    pass(&mut plan, groups.len() - at.olds)?;
    Ok(plan)
}

/// Tells the touched keys of a change, and makes of the groups of the old list those of the new one. Where there is no
/// memory, the groups are as they were.
pub(crate) fn regroup<S: Shelf>(
    alloc: Global,
    classes: &Classes,
    groups: &mut ValueList,
    input: &S,
    slots: &[Slot],
) -> Result<(Delta, Vec<LogStep<Value>>), AllocError>
    requires { CanFollow classes.now groups.old.values (S.items input.now) slots.now }
    ensures told { IfOk result (λ done. done.0.pieces ≡ normal
        (told_groups groups.old.values (groups_of classes.now (S.items input.now)) slots.now)) }
    ensures groups { OnOk result (groups.new.values ≡ groups_of classes.now (S.items input.now)) }
    ensures back { IfOk result (λ done. played done.1.items groups.new.values ≡ groups.old.values) }
    ensures can_go_back { IfOk result
        (λ done. CanPlay length groups.new.room done.1.items groups.new.values) }
    ensures err { OnErr result (groups.new.values ≡ groups.old.values) }
    ensures room { groups.old.room ≤ groups.new.room }
{
    let plan = follow(alloc, classes, groups, input, slots)?;
    let log = apply(alloc, groups, plan.log)?;
    Ok((plan.out, log))
}
