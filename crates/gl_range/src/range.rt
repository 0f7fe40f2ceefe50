//! A range.

ghost use Rattle.std.specs.Prelude.{◌≡◌, ◌↔◌, ◌<◌, ◌≤◌, List, length, map, slice_get, IfOk, OnOk, OnErr, IsOk, IsSome};
ghost use Rattle.spec_views.specs.Tree.{Tree};
ghost use Rattle.spec_views.specs.Piece.{inverted};
ghost use Rattle.spec_views.specs.Leads.{LeadsTo, applied};
ghost use Rattle.spec_views.specs.Range.{range_view, range_follow, range_change};
ghost use Rattle.gl_kernel.specs.Found.{found};
ghost use Rattle.gl_range.specs.Stands.{StandsFor, before, shown_len};

use crate::follow::{Slices, Walk, follow};
use crate::keeps::tell_keeps;
use crate::slice::Slice;
use gl_delta::{Delta, Find};
use gl_lang::Bounds;
use gl_value::{Shelf, Steps};
use std::alloc::{AllocError, Global};
use std::marker::Model;
use std::sync::ledger::Ledger;

/// A slice of a list, whose ends count from the head or from the tail: the RangeList of Glazed Lists. It keeps none of
/// its elements.
#[derive(Drop)]
pub struct RangeKernel {
    alloc: Global,
    bounds: Bounds,
    len: usize,
}

impl Model for RangeKernel {
    ghost use Rattle.gl_range.specs.Kept.{Kept, kept_code};

    ghost Value = { Kept };

    ghost coded = { kept_code };

    ghost view = { λ r. record { bounds = r.bounds; len = r.len } };
}

/// What takes a range back to where it stood before a change.
#[derive(Drop)]
pub struct RangeUndo {
    pub(crate) bounds: Bounds,
    pub(crate) len: usize,
}

impl RangeKernel {
    /// The range of a list. It takes no memory until the list changes.
    pub fn make<S: Shelf, L: Ledger>(
        alloc: Global,
        param: Bounds,
        input: &S,
        steps: &mut Steps<L>,
    ) -> Result<RangeKernel, AllocError>
        ensures made { IsOk result }
        ensures stands { IfOk result (λ range. StandsFor range (S.items input.now)) }
        ensures bounds { IfOk result (λ range. range.bounds ≡ param) }
        ensures counted { steps.new ≡ steps.old }
    {
        let _ = steps;
        Ok(RangeKernel {
            alloc,
            bounds: param,
            len: input.len(),
        })
    }

    /// Follows a change of the list, whose new side is `input`. It takes memory for what it tells.
    pub fn advance<S: Shelf, L: Ledger>(
        &mut self,
        input: &S,
        d: &Delta,
        steps: &mut Steps<L>,
    ) -> Result<(Delta, RangeUndo), AllocError>
        requires leads { LeadsTo d.now.pieces (S.items input.now) }
        requires stands { StandsFor self.old
            (applied (map inverted d.now.pieces) (S.items input.now)) }
        ensures pieces { IfOk result (λ told. told.0.pieces
            ≡ range_follow self.old.bounds (applied (map inverted d.now.pieces) (S.items input.now)) d.now.pieces) }
        ensures stands { OnOk result (StandsFor self.new (S.items input.now)) }
        ensures undo { IfOk result (λ told. before told.1 ≡ self.old) }
        ensures err { OnErr result (self.new ≡ self.old) }
        ensures bounds { self.new.bounds ≡ self.old.bounds }
        ensures counted { steps.new ≡ steps.old }
    {
        let _ = steps;
        let _normal = d.old_len();
        let len = d.new_len();
        let slices = Slices {
            was: Slice::new(self.bounds, self.len),
            is: Slice::new(self.bounds, len),
        };
        let out = follow(self.alloc, slices, input, d)?;
        let undo = self.kept();
        self.len = len;
        Ok((out, undo))
    }

    /// Takes other bounds in place of those that it has. It takes memory for what it tells.
    pub fn change<S: Shelf>(
        &mut self,
        param: Bounds,
        input: &S,
    ) -> Result<(Delta, RangeUndo), AllocError>
        requires stands { StandsFor self.old (S.items input.now) }
        requires few { length (S.items input.now) ≤ 2147483647 }
        ensures pieces { IfOk result
            (λ told. told.0.pieces ≡ range_change self.old.bounds param (S.items input.now)) }
        ensures stands { OnOk result (StandsFor self.new (S.items input.now)) }
        ensures bounds { OnOk result (self.new.bounds ≡ param) }
        ensures undo { IfOk result (λ told. before told.1 ≡ self.old) }
        ensures err { OnErr result (self.new ≡ self.old) }
    {
        let slices = Slices {
            was: Slice::new(self.bounds, self.len),
            is: Slice::new(param, self.len),
        };
        let mut walk = Walk {
            out: Delta::start(self.alloc),
            old_position: 0,
            new_position: 0,
        };
        tell_keeps(&mut walk, slices, input, self.len)?;
        let undo = self.kept();
        self.bounds = param;
        Ok((walk.out, undo))
    }

    // What it is.
    fn kept(&self) -> RangeUndo
        ensures { before result ≡ self.now }
    {
        RangeUndo {
            bounds: self.bounds,
            len: self.len,
        }
    }

    /// Goes back to where the range stood before its last change, whose undo this is. It takes no memory.
    pub fn retreat(&mut self, undo: RangeUndo)
        ensures { self.new ≡ before undo }
    {
        let RangeUndo { bounds, len } = undo;
        self.bounds = bounds;
        self.len = len;
    }

    /// How many elements are shown.
    pub fn len(&self) -> usize
        ensures view { (xs : List Tree) → StandsFor self.now xs
            → result ≡ length (range_view self.now.bounds xs) }
        ensures len { result ≡ shown_len self.now }
    {
        let slice = Slice::new(self.bounds, self.len);
        slice.end.saturating_sub(slice.start)
    }

    /// Where the element that is shown at a place stands, or `None` exactly where the place isn't below the length.
    pub fn find(&self, position: usize) -> Option<Find<'_>>
        ensures view { (xs : List Tree) → StandsFor self.now xs
            → found result xs ≡ slice_get (range_view self.now.bounds xs) position }
        ensures some { IsSome result ↔ (position < shown_len self.now) }
    {
        if position < self.len() {
            let slice = Slice::new(self.bounds, self.len);
            Some(Find::Input(slice.start + position))
        } else {
            None
        }
    }

    /// The bounds that it shows by.
    pub fn bounds(&self) -> Bounds
        ensures { result ≡ self.now.bounds }
    {
        self.bounds
    }
}
