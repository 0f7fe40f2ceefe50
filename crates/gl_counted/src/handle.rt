ghost use Rattle.std.specs.Prelude.{◌≡◌};

use std::marker::Model;

/// The name of an item in the list that handed it out, until that item is taken.
///
/// Contracts see it as a number.
#[derive(Clone, Copy, Debug, Default, PartialEq, Eq, PartialOrd, Ord, Hash)]
pub struct Handle {
    pub(crate) slot: u32,
}

impl Model for Handle {
    ghost use Rattle.std.specs.Prelude.{ℕ};

    ghost Value = { ℕ };

    ghost view = { λ h. h.slot };

    ghost inverse = { λ n. record { slot = n } };
}

impl Handle {
    pub(crate) fn new(slot: u32) -> Handle
        ensures { result ≡ slot }
    {
        Handle { slot }
    }

    pub(crate) fn slot(self) -> u32
        ensures { result ≡ self }
    {
        self.slot
    }
}
