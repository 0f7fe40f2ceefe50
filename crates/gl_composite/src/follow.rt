//! What a composite tells of changes of its members, and the edits of what it keeps.

ghost use Rattle.std.specs.Prelude.{◌≡◌, ◌+◌, ◌^◌, ◌∷◌, ◌<◌, ◌≤◌, [], length, sum, slice_get, Some, IfOk, OnOk};
ghost use Rattle.gl_joined.specs.Piece.{new_len, normal};
ghost use Rattle.gl_kernel.specs.Fates.{edits_of};
ghost use Rattle.gl_kernel.specs.Plans.{GoesOn, CanTell};
ghost use Rattle.gl_composite.specs.Told.{told_of, told_by, AreOf, fate_of, fates};

use crate::telling::tell_change;
use gl_delta::{Cell, Delta, Deltas};
use gl_joined::LengthList;
use gl_kernel::{LogStep, Plan, tell};
use std::alloc::{AllocError, Global};

/// How many elements the members then have together.
pub(crate) fn new_total(lists: &[u32], lens: &LengthList, deltas: &Deltas) -> u128
    requires paired { length lists.now ≡ length lens.now.lens }
    requires deltas { AreOf deltas.now lists.now lens.now.lens }
    ensures { result ≡ new_len (told_by deltas.now lists.now lens.now.lens) }
{
    let _few = lens.len();
    let mut total: u128 = 0;
    'members: for index in 0..lists.len() {
        total += member_len(lists, lens, deltas, index) as u128;
    }
    total
}

// How many elements a member then has.
fn member_len(lists: &[u32], lens: &LengthList, deltas: &Deltas, index: usize) -> usize
    requires paired { length lists.now ≡ length lens.now.lens }
    requires deltas { AreOf deltas.now lists.now lens.now.lens }
    requires within { index < length lists.now }
    ensures value { (list len : _) → slice_get lists.now index ≡ Some list
        → slice_get lens.now.lens index ≡ Some len
        → result ≡ new_len (told_of deltas.now list len) }
    ensures few { result < 2 ^ 32 }
{
    match deltas.get(lists[index]) {
        Some(d) => d.new_len(),
        None => part_len(lens, index) as usize,
    }
}

// How many elements a member has.
fn part_len(lens: &LengthList, index: usize) -> u32
    requires { index < length lens.now.lens }
    ensures { slice_get lens.now.lens index ≡ Some result }
{
    match lens.get(index) {
        Some(len) => len,
        None => unreachable!(),
    }
}

/// What is told of changes of the members, and the edits of their lengths.
pub(crate) fn follow(
    alloc: Global,
    lists: &[u32],
    lens: &LengthList,
    deltas: &Deltas,
) -> Result<Plan<u32>, AllocError>
    requires paired { length lists.now ≡ length lens.now.lens }
    requires deltas { AreOf deltas.now lists.now lens.now.lens }
    requires olds { sum lens.now.lens ≤ 2147483647 }
    requires news { new_len (told_by deltas.now lists.now lens.now.lens) ≤ 2147483647 }
    ensures told { IfOk result
        (λ plan. plan.out.pieces ≡ normal (told_by deltas.now lists.now lens.now.lens)) }
    ensures edits { IfOk result (λ plan. plan.log.items ≡ edits_of 0 (fates deltas.now lists.now)) }
{
    let _few = lens.len();
    let mut plan = Plan::new(alloc);
    'members: for index in 0..lists.len() {
        let len = part_len(lens, index);
        step(&mut plan, lists[index], len, deltas)?;
    }
    let _normal = plan.out.old_len();
    Ok(plan)
}

// One member more.
fn step(plan: &mut Plan<u32>, list: u32, len: u32, deltas: &Deltas) -> Result<(), AllocError>
    requires number { list < length deltas.now }
    requires few { plan.old.position < 4294967294 }
    requires can { CanTell (told_of deltas.now list len) plan.old.out.pieces }
    ensures { OnOk result (GoesOn (told_of deltas.now list len)
        (edits_of plan.old.position (fate_of deltas.now list ∷ [])) 1 plan.old plan.new) }
{
    match deltas.get(list) {
        Some(d) => {
            tell_change(&mut plan.out, d)?;
            plan.log
                .push(LogStep::Set(plan.position, d.new_len() as u32))?;
        }
        None => tell(&mut plan.out, Cell::Keep(len as usize))?,
    }
    plan.position += 1;
    Ok(())
}
