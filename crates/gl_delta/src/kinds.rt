//! Of which kind the piece is that stands at a place.

ghost use Rattle.std.specs.Prelude.{◌≡◌, slice_get};
ghost use Rattle.gl_delta.specs.Pieces.{pieces, is_kept_piece, is_inserted_piece, is_deleted_piece};

use crate::mark::Kind;
use crate::pieces::Pieces;

impl Pieces {
    /// Whether a kept piece stands at a place.
    pub(crate) fn is_kept(&self, position: usize) -> bool
        ensures { result ≡ is_kept_piece (slice_get (pieces self.now) position) }
    {
        match self.kind(position) {
            Some(Kind::Kept) => true,
            Some(Kind::Updated) => false,
            Some(Kind::Deleted) => false,
            Some(Kind::Inserted) => false,
            None => false,
        }
    }

    /// Whether an inserted piece stands at a place.
    pub(crate) fn is_inserted(&self, position: usize) -> bool
        ensures { result ≡ is_inserted_piece (slice_get (pieces self.now) position) }
    {
        match self.kind(position) {
            Some(Kind::Kept) => false,
            Some(Kind::Updated) => false,
            Some(Kind::Deleted) => false,
            Some(Kind::Inserted) => true,
            None => false,
        }
    }

    /// Whether a deleted piece stands at a place.
    pub(crate) fn is_deleted(&self, position: usize) -> bool
        ensures { result ≡ is_deleted_piece (slice_get (pieces self.now) position) }
    {
        match self.kind(position) {
            Some(Kind::Kept) => false,
            Some(Kind::Updated) => false,
            Some(Kind::Deleted) => true,
            Some(Kind::Inserted) => false,
            None => false,
        }
    }
}
