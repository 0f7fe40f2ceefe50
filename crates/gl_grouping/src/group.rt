//! The groups of a list, from its classes.

ghost use Rattle.std.specs.Prelude.{◌≡◌, ◌<◌, ◌≤◌, ◌++◌, ◌∷◌, [], length, slice_get, Some, IfOk, OnOk};
ghost use Rattle.gl_classes.specs.Stands.{StandsFor};
ghost use Rattle.gl_grouping.specs.Following.{groups_of};

use gl_classes::Classes;
use gl_kernel::{Editable, ValueList, element};
use gl_value::{Shelf, Value, Values};
use std::alloc::{AllocError, Global};

fn add(members: &mut Values, v: Value) -> Result<(), AllocError>
    ensures { OnOk result (members.new ≡ members.old ++ v ∷ []) }
{
    match members.push(v) {
        Ok(()) => Ok(()),
        Err((_v, failed)) => Err(failed),
    }
}

/// The group of a class: the list of its members. It takes memory for that list, not for what is in it, and for each
/// member time logarithmic in the list's length.
pub(crate) fn group_at<S: Shelf>(
    alloc: Global,
    classes: &Classes,
    input: &S,
    class: usize,
) -> Result<Value, AllocError>
    requires stands { StandsFor classes.now (S.items input.now) }
    requires within { class < length (groups_of classes.now (S.items input.now)) }
    ensures { IfOk result
        (λ group. slice_get (groups_of classes.now (S.items input.now)) class ≡ Some group) }
{
    let (start, end) = classes.span(input, class);
    let mut members = Values::new(alloc);
    for place in start..end {
        let member = element(input, classes.source_of(place));
        add(&mut members, member.copy()?)?;
    }
    Ok(Value::items(members))
}

/// All groups of a list.
pub(crate) fn all_groups<S: Shelf>(
    alloc: Global,
    classes: &Classes,
    input: &S,
) -> Result<ValueList, AllocError>
    requires stands { StandsFor classes.now (S.items input.now) }
    requires few { length (S.items input.now) ≤ 2147483647 }
    ensures { IfOk result (λ groups. groups.values ≡ groups_of classes.now (S.items input.now)) }
{
    let mut groups = ValueList::new(alloc);
    groups.reserve(classes.len())?;
    for class in 0..classes.len() {
        let group = group_at(alloc, classes, input, class)?;
        groups.insert(class, group);
    }
    Ok(groups)
}
