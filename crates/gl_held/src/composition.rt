//! The composition of deltas that led on one from the other.

ghost use Rattle.std.specs.Prelude.{◌≡◌, ◌<◌, ◌≤◌, IfOk};
ghost use Rattle.spec_lists.specs.Piece.{old_len, new_len};
ghost use Rattle.spec_lists.specs.Delta.{no_change, composed};
ghost use Rattle.spec_lists.specs.Sides.{sides};
ghost use Rattle.gl_delta.specs.Old.{IsOldAt};

use crate::parts::{old_at, whole, with_next};
use gl_delta::{Delta, Old};
use std::alloc::{AllocError, Global};
use std::marker::Model;
use std::sync::Arc;

/// The composition of deltas. Contracts see its pieces. One more is composed into it by making another composition, which
/// shares its larger parts, so that the one before it is still there to go back to.
#[derive(Drop)]
pub(crate) struct Composition {
    alloc: Global,
    // Each leads on from the one before.
    parts: Vec<Arc<Delta>>,
}

impl Model for Composition {
    ghost use Rattle.spec_lists.specs.Delta.{Delta};
    ghost use Rattle.spec_lists.specs.Piece.{piece_code};
    ghost use Rattle.std.specs.Coded.{coded_list};
    ghost use Rattle.gl_held.specs.Parts.{LeadOn, parts_of, together};

    ghost Value = { Delta };

    ghost coded = { coded_list piece_code };

    ghost view = { λ c. together (parts_of c.parts.items) };

    ghost invariant = { λ c. LeadOn (parts_of c.parts.items) };
}

impl Composition {
    /// The identity of a list of so many elements.
    pub(crate) fn start(alloc: Global, len: usize) -> Result<Composition, AllocError>
        requires { len ≤ 2147483647 }
        ensures { IfOk result (λ c. c ≡ no_change len) }
    {
        let mut parts = Vec::new(alloc);
        parts.push(Arc::new(alloc, Delta::identity(alloc, len)?)?)?;
        Ok(Composition { alloc, parts })
    }

    /// The composition with one delta more. Over many of them, one takes time and memory by its changes, times the square of
    /// the logarithm of all.
    pub(crate) fn then(&self, next: &Delta) -> Result<Composition, AllocError>
        requires { old_len next.now.pieces ≡ new_len self.now }
        ensures { IfOk result (λ c. c ≡ composed self.now next.now.pieces) }
    {
        Ok(Composition {
            alloc: self.alloc,
            parts: with_next(self.alloc, &self.parts, next)?,
        })
    }

    /// The composition as a delta.
    pub(crate) fn delta(&self) -> Result<Delta, AllocError>
        ensures { IfOk result (λ d. d.pieces ≡ self.now) }
    {
        whole(&self.parts)
    }

    /// How many elements its first list has.
    pub(crate) fn old_len(&self) -> usize
        ensures value { result ≡ old_len self.now }
        ensures few { result ≤ 2147483647 }
    {
        self.parts[0].old_len()
    }

    /// What became of an element of its first list: where it is in the last one, or its value where it was updated or
    /// deleted.
    pub(crate) fn old_at(&self, position: usize) -> Old<'_>
        requires { position < old_len self.now }
        ensures { IsOldAt (sides self.now).old position result }
    {
        old_at(&self.parts, position)
    }
}
