//! What became of an element that isn't kept, and the colours by which pieces are stored.

ghost use Rattle.std.specs.Prelude.{◌≡◌, ◌<◌};
ghost use Rattle.gl_delta.specs.Marks.{piece_of, IsOn};
ghost use Rattle.gl_delta.specs.Store.{colour_of, kind_by, mask_of};

use gl_value::Value;

/// The most elements that a delta has on one side.
pub const MOST: usize = 2_147_483_647;

/// The colours of kept pieces and of deleted ones.
pub(crate) const KEPT: u8 = 0;

pub(crate) const DELETED: u8 = 2;

/// The sets of colours, as masks: of the kept pieces, of those that aren't, and of those that tell an old or a new value.
pub(crate) const KEPT_ALONE: u8 = 0b0001;

pub(crate) const CHANGED: u8 = 0b1110;

pub(crate) const WITH_OLD: u8 = 0b0110;

pub(crate) const WITH_NEW: u8 = 0b1010;

/// An element that isn't kept.
#[derive(Drop)]
pub(crate) enum Changed {
    Updated(Value, Value),
    Deleted(Value),
    Inserted(Value),
}

/// One of the two lists of a delta.
#[derive(Clone, Copy)]
pub(crate) enum Side {
    Old,
    New,
}

/// What became of an element.
#[derive(Clone, Copy)]
pub(crate) enum Kind {
    Kept,
    Updated,
    Deleted,
    Inserted,
}

impl Changed {
    /// Whether the element is one of that list.
    pub(crate) fn is_on(&self, side: Side) -> bool
        ensures { result ≡ IsOn side self.now }
    {
        match (self, side) {
            (Changed::Updated(_, _), _) => true,
            (Changed::Deleted(_), Side::Old) => true,
            (Changed::Deleted(_), Side::New) => false,
            (Changed::Inserted(_), Side::Old) => false,
            (Changed::Inserted(_), Side::New) => true,
        }
    }

    /// The colour by which it is stored.
    pub(crate) fn colour(&self) -> u8
        ensures value { result ≡ colour_of (piece_of self.now) }
        ensures few { result < 4 }
    {
        match self {
            Changed::Updated(_, _) => 1,
            Changed::Deleted(_) => 2,
            Changed::Inserted(_) => 3,
        }
    }
}

impl Side {
    /// The set of the colours of the pieces that are elements of that list.
    pub(crate) fn mask(self) -> u8
        ensures { result ≡ mask_of self }
    {
        match self {
            Side::Old => 0b0111,
            Side::New => 0b1011,
        }
    }
}

impl Kind {
    /// What became of the pieces of a colour.
    pub(crate) fn of_colour(colour: u8) -> Kind
        ensures { result ≡ kind_by colour }
    {
        match colour {
            0 => Kind::Kept,
            1 => Kind::Updated,
            2 => Kind::Deleted,
            _ => Kind::Inserted,
        }
    }
}
