//! Which edits are refused.

ghost use Rattle.std.specs.Prelude.{◌≡◌, ◌<◌, ◌≤◌, length, Some, None, if◌then◌else◌, ltb};
ghost use Rattle.gl_source.specs.Edits.{IsRefusal};

use crate::edit::Edit;
use crate::fault::EditFault;
use gl_kernel::ValueList;
use gl_value::Shelf;

/// Why a list of at most so many elements isn't edited, or `None` exactly where nothing but memory may be wanting.
pub(crate) fn refusal(e: &Edit, list: &ValueList, limit: u64) -> Option<EditFault>
    requires within { length list.now.values ≤ limit }
    requires few { limit ≤ 2147483647 }
    ensures { IsRefusal e.now list.now.values limit result }
{
    let len = list.len();
    match e {
        Edit::Append { values } => past(len as u128 + values.len() as u128, limit),
        Edit::Insert { index, value: _ } => {
            if *index > len as u64 {
                return Some(outside(*index, len));
            }
            past(len as u128 + 1, limit)
        }
        Edit::Set { index, value: _ } => beyond(*index, len),
        Edit::Remove { index } => beyond(*index, len),
        Edit::Clear => None,
    }
}

fn outside(index: u64, len: usize) -> EditFault
    ensures { result ≡ EditFault.OutOfRange index len }
{
    EditFault::OutOfRange {
        index,
        len: len as u64,
    }
}

// There is no element at that index.
fn beyond(index: u64, len: usize) -> Option<EditFault>
    ensures { result ≡ (if ltb index len then None else Some (EditFault.OutOfRange index len)) }
{
    if index < len as u64 {
        return None;
    }
    Some(outside(index, len))
}

// A length is past the limit.
fn past(len: u128, limit: u64) -> Option<EditFault>
    ensures { result ≡ (if ltb limit len then Some (EditFault.TooLong len) else None) }
{
    if len > limit as u128 {
        return Some(EditFault::TooLong { len });
    }
    None
}
