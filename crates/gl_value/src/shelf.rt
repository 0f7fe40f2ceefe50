//! What values can be read from by their place.

ghost use Rattle.std.specs.Prelude.{◌≡◌, length, slice_get};
ghost use Rattle.std.specs.Option.{option_copied};

use crate::value::Value;
use crate::values::Values;

/// A list of values, read by place.
pub trait Shelf {
    ghost use Rattle.std.specs.Prelude.{List};
    ghost use Rattle.spec_value.specs.Tree.{Tree};

    // The values, in order.
    ghost items: { Self → List Tree };

    /// The number of values.
    fn len(&self) -> usize
        ensures { result ≡ length (items self.now) };

    /// The value at a place, or `None` exactly where the place isn't below the length.
    fn get(&self, position: usize) -> Option<&Value>
        ensures { option_copied result ≡ slice_get (items self.now) position };
}

impl Shelf for &[Value] {
    ghost items = { λ s. s.now };

    fn len(&self) -> usize {
        <[Value]>::len(self)
    }

    fn get(&self, position: usize) -> Option<&Value> {
        <[Value]>::get(self, position)
    }
}

impl Shelf for Values {
    ghost items = { λ vs. vs };

    fn len(&self) -> usize {
        Values::len(self)
    }

    fn get(&self, position: usize) -> Option<&Value> {
        self.as_slice().get(position)
    }
}
