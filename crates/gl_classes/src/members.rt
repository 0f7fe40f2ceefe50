//! The members of a class.

ghost use Rattle.std.specs.Prelude.{◌<◌, length};
ghost use Rattle.gl_arranged.specs.Sorting.{order_cmp};
ghost use Rattle.spec_classes.specs.Classes.{classes};
ghost use Rattle.gl_classes.specs.Spanned.{IsSpanOf};
ghost use Rattle.gl_classes.specs.Stands.{StandsFor};

use crate::classes::Classes;
use gl_value::Shelf;

impl Classes {
    /// The sorted places of the members of a class: from the first one on, and before the second. It takes time
    /// logarithmic in the list's length.
    pub fn span<S: Shelf>(&self, input: &S, class: usize) -> (usize, usize)
        requires stands { StandsFor self.now (S.items input.now) }
        requires within { class < length (classes (order_cmp self.now.list.order) (S.items input.now)) }
        ensures { IsSpanOf (classes (order_cmp self.now.list.order) (S.items input.now)) class
            self.now.list.tree.places result.0 result.1 }
    {
        let classes = self.len();
        let start = self.start_of(class);
        if class + 1 < classes {
            (start, self.start_of(class + 1))
        } else {
            (start, input.len())
        }
    }
}
