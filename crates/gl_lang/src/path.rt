//! Paths into values.

ghost use Rattle.std.specs.Prelude.{◌≡◌, [], ◌↔◌, IsTrue};
ghost use Rattle.std.specs.Option.{option_copied};
ghost use Rattle.spec_value.specs.Tree.{items_of, elements};
ghost use Rattle.spec_lang.specs.Path as path_to;

use gl_value::{Items, Value};

/// The indices by which a path goes from a value to an element of it, from outside inward.
pub type Path = Items<u16>;

/// The value at the end of a path, or `None` where it leads nowhere.
pub(crate) fn follow<'a>(path: &[u16], v: &'a Value) -> Option<&'a Value>
    ensures { option_copied result ≡ path_to.follow path.now v.now }
{
    let mut at = v;
    for step in path {
        match at.element(usize::from(*step)) {
            Some(element) => at = element,
            None => return None,
        }
    }
    Some(at)
}

/// The value that a path gives, which is the empty list `nothing` where the path leads nowhere.
pub(crate) fn value_at<'a>(path: &[u16], v: &'a Value, nothing: &'a Value) -> &'a Value
    requires { nothing.now ≡ items_of [] }
    ensures { result.now ≡ path_to.at path.now v.now }
{
    match follow(path, v) {
        Some(found) => found,
        None => nothing,
    }
}

/// The elements of the list that a path gives; none where it gives no list.
pub(crate) fn elements_at<'a>(path: &[u16], v: &'a Value) -> &'a [Value]
    ensures { result.now ≡ elements (path_to.at path.now v.now) }
{
    match follow(path, v) {
        Some(list) => list.elements(),
        None => &[],
    }
}

/// Whether two paths have the same steps.
pub(crate) fn same_path(a: &Path, b: &Path) -> bool
    ensures { IsTrue result ↔ (a.now ≡ b.now) }
{
    a.as_slice() == b.as_slice()
}
