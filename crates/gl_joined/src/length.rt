//! What the nodes of a tree of lengths add up.

use gl_ranktree::{Measure, Summary};

/// How many parts there are, and how many elements these have.
#[derive(Clone, Copy)]
pub(crate) struct Length {
    pub(crate) parts: u32,
    pub(crate) elements: u32,
}

impl Summary for Length {
    ghost use Rattle.gl_joined.specs.Length.{no_length, plus_length, fits_length};
    ghost use Rattle.gl_joined.specs.Sums.{lengths_are_sums};

    ghost sums = { record { zero = no_length; plus = plus_length; fits = fits_length } };

    ghost laws = { lengths_are_sums };

    fn zero() -> Length {
        Length {
            parts: 0,
            elements: 0,
        }
    }

    fn plus(self, other: Length) -> Length {
        Length {
            parts: self.parts.wrapping_add(other.parts),
            elements: self.elements.wrapping_add(other.elements),
        }
    }
}

/// The number of parts.
#[derive(Clone, Copy)]
pub(crate) struct ByPart;

impl Measure<Length> for ByPart {
    ghost use Rattle.std.specs.Prelude.{refl};

    ghost measured = { λ _ length. length.parts };

    ghost empty = { λ _. refl };

    ghost additive = { λ _ _ _. refl };

    fn of(self, sum: Length) -> usize {
        sum.parts as usize
    }
}

/// The number of elements.
#[derive(Clone, Copy)]
pub(crate) struct ByElement;

impl Measure<Length> for ByElement {
    ghost use Rattle.std.specs.Prelude.{refl};

    ghost measured = { λ _ length. length.elements };

    ghost empty = { λ _. refl };

    ghost additive = { λ _ _ _. refl };

    fn of(self, sum: Length) -> usize {
        sum.elements as usize
    }
}
