//! The old values of a delta.

ghost use Rattle.std.specs.Prelude.{◌≡◌, List};
ghost use Rattle.spec_sorting.specs.Leads.{LeadsFrom};
ghost use Rattle.spec_sorting.specs.Tree.{Tree};
ghost use Rattle.spec_sorting.specs.Source.{element_at};
ghost use Rattle.gl_arranged.specs.OldValues.{IsOldValue};

use gl_delta::{Delta, Old};
use gl_value::Value;

/// The old value of an element that was deleted or updated.
pub fn old_value(d: &Delta, source: usize) -> &Value
    requires { IsOldValue d.now.pieces source }
    ensures { (xs : List Tree) → LeadsFrom d.now.pieces xs → result.now ≡ element_at xs source }
{
    match d.old_at(source) {
        Old::Value(value) => value,
        Old::Kept(_) => unreachable!(),
    }
}
