//! The places that a range shows.

ghost use Rattle.std.specs.Prelude.{◌≡◌, ◌<◌, ◌≤◌};
ghost use Rattle.spec_views.specs.Range.{start_of, end_of};
ghost use Rattle.gl_range.specs.Told.{shows, AreAlike};

use gl_lang::Bounds;

/// The places from `start` on and below `end`.
#[derive(Clone, Copy)]
pub(crate) struct Slice {
    pub(crate) start: usize,
    pub(crate) end: usize,
}

impl Slice {
    /// What bounds show of so many elements.
    pub(crate) fn new(bounds: Bounds, len: usize) -> Slice
        ensures start { result.start ≡ start_of bounds len }
        ensures end { result.end ≡ end_of bounds len }
    {
        match bounds {
            Bounds::Head(a, b) => Slice {
                start: (a as usize).min(len),
                end: (b as usize).min(len),
            },
            Bounds::Tail(a, b) => Slice {
                start: len.saturating_sub(a as usize),
                end: len.saturating_sub(b as usize),
            },
            Bounds::Middle(a, b) => Slice {
                start: (a as usize).min(len),
                end: len.saturating_sub(b as usize),
            },
        }
    }

    /// Whether the element at a place is shown.
    pub(crate) fn shows(self, position: usize) -> bool
        ensures { result ≡ shows self position }
    {
        self.start <= position && position < self.end
    }

    /// How many elements from a place on are shown or hidden as the one there is: as many as there are up to the next
    /// end of the slice, and no more than `most`.
    pub(crate) fn alike(self, position: usize, most: usize) -> usize
        requires { 0 < most }
        ensures some { 0 < result }
        ensures most { result ≤ most }
        ensures alike { AreAlike self position result }
    {
        if position < self.start {
            most.min(self.start - position)
        } else if position < self.end {
            most.min(self.end - position)
        } else {
            most
        }
    }
}
