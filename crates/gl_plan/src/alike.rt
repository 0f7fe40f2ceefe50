//! Whether two of what plans hold are equal.

ghost use Rattle.std.specs.Prelude.{◌≡◌, ◌↔◌, IsTrue};

use gl_lines::{ListDecl, ListenerDecl};
use gl_publisher::Numbers;
use gl_value::{Items, Name, Value, Values};

/// Data of which two can be compared.
pub(crate) trait Alike: Drop {
    fn is_same(&self, other: &Self) -> bool
        ensures { IsTrue result ↔ (self.now ≡ other.now) };
}

/// Lists are compared item by item.
impl<T: Alike> Alike for Items<T> {
    fn is_same(&self, other: &Items<T>) -> bool {
        are_same(self.as_slice(), other.as_slice())
    }
}

fn are_same<T: Alike>(a: &[T], b: &[T]) -> bool
    ensures { IsTrue result ↔ (a.now ≡ b.now) }
{
    if a.len() != b.len() {
        return false;
    }
    for i in 0..a.len() {
        if !a[i].is_same(&b[i]) {
            return false;
        }
    }
    true
}

impl Alike for ListDecl {
    fn is_same(&self, other: &ListDecl) -> bool {
        self.name.is_same(&other.name) && self.kind.is_same(&other.kind)
    }
}

impl Alike for ListenerDecl {
    fn is_same(&self, other: &ListenerDecl) -> bool {
        self.name.is_same(&other.name)
            && self.list == other.list
            && self.after.is_same(&other.after)
            && self.echo == other.echo
    }
}

impl Alike for Name {
    fn is_same(&self, other: &Name) -> bool {
        self.text().bytes() == other.text().bytes()
    }
}

impl Alike for Numbers {
    fn is_same(&self, other: &Numbers) -> bool {
        self.as_slice() == other.as_slice()
    }
}

impl Alike for Value {
    fn is_same(&self, other: &Value) -> bool {
        self.same(other)
    }
}

impl Alike for Values {
    fn is_same(&self, other: &Values) -> bool {
        are_same(self.as_slice(), other.as_slice())
    }
}
