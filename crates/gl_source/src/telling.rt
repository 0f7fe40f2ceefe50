//! What an edit tells.

ghost use Rattle.std.specs.Prelude.{◌≡◌, ◌+◌, ◌<◌, ◌≤◌, ◌++◌, length, map, IfOk};
ghost use Rattle.spec_lists.specs.Piece.{identity, inserted};
ghost use Rattle.spec_lists.specs.Delta.{one_insert};
ghost use Rattle.spec_views.specs.Source.{put_instead_told, taken_out_told, clear_told};
ghost use Rattle.gl_source.specs.Edits.{edited, told, IsOutside};

use crate::edit::Edit;
use gl_delta::{Cell, Delta};
use gl_kernel::{ValueList, element, tell};
use gl_value::{Shelf, Value};
use std::alloc::{AllocError, Global};

/// The delta of an edit that isn't refused.
pub(crate) fn told(alloc: Global, list: &ValueList, e: Edit) -> Result<Delta, AllocError>
    requires inside { ¬ IsOutside e list.now.values }
    requires few { length list.now.values ≤ 2147483647 }
    requires few_new { length (edited e list.now.values) ≤ 2147483647 }
    ensures { IfOk result (λ d. d.pieces ≡ told e list.now.values) }
{
    match e {
        Edit::Append { values } => append(alloc, list.len(), values.as_slice()),
        Edit::Insert { index, value } => put_in(alloc, list.len(), index as usize, value),
        Edit::Set { index, value } => put_instead(alloc, list, index as usize, value),
        Edit::Remove { index } => take_out(alloc, list, index as usize),
        Edit::Clear => clear(alloc, list),
    }
}

fn append(alloc: Global, len: usize, values: &[Value]) -> Result<Delta, AllocError>
    requires { len + length values.now ≤ 2147483647 }
    ensures { IfOk result (λ d. d.pieces ≡ identity len ++ map inserted values.now) }
{
    let mut d = Delta::identity(alloc, len)?;
    'values: for index in 0..values.len() {
        tell(&mut d, Cell::Insert(element(&values, index).copy()?))?;
    }
    Ok(d)
}

fn put_in(alloc: Global, len: usize, index: usize, value: Value) -> Result<Delta, AllocError>
    requires within { index ≤ len }
    requires few { len + 1 ≤ 2147483647 }
    ensures { IfOk result (λ d. d.pieces ≡ one_insert len index value) }
{
    let mut d = Delta::identity(alloc, len)?;
    match d.record_insert(index, value) {
        Ok(()) => Ok(d),
        Err((_value, failed)) => Err(failed),
    }
}

fn put_instead(
    alloc: Global,
    list: &ValueList,
    index: usize,
    value: Value,
) -> Result<Delta, AllocError>
    requires within { index < length list.now.values }
    requires few { length list.now.values ≤ 2147483647 }
    ensures { IfOk result (λ d. d.pieces ≡ put_instead_told list.now.values index value) }
{
    let old = element(list, index).copy()?;
    let mut d = Delta::identity(alloc, list.len())?;
    match d.record_set(index, old, value) {
        Ok(()) => Ok(d),
        Err((_old, _value, failed)) => Err(failed),
    }
}

fn take_out(alloc: Global, list: &ValueList, index: usize) -> Result<Delta, AllocError>
    requires within { index < length list.now.values }
    requires few { length list.now.values ≤ 2147483647 }
    ensures { IfOk result (λ d. d.pieces ≡ taken_out_told list.now.values index) }
{
    let old = element(list, index).copy()?;
    let mut d = Delta::identity(alloc, list.len())?;
    match d.record_remove(index, old) {
        Ok(()) => Ok(d),
        Err((_old, failed)) => Err(failed),
    }
}

fn clear(alloc: Global, list: &ValueList) -> Result<Delta, AllocError>
    requires { length list.now.values ≤ 2147483647 }
    ensures { IfOk result (λ d. d.pieces ≡ clear_told list.now.values) }
{
    let mut d = Delta::start(alloc);
    'positions: for position in 0..list.len() {
        tell(&mut d, Cell::Delete(element(list, position).copy()?))?;
    }
    Ok(d)
}
