//! A barcode as a list that a log edits.

use crate::editable::Editable;
use gl_barcode::Barcode;
use std::alloc::AllocError;

impl Editable for Barcode {
    type Item = bool;

    ghost use Rattle.gl_barcode.specs.Bars.{stretch_count};

    ghost items = { λ b. b.shown };

    ghost room = { λ b. b.room };

    ghost need = { stretch_count };

    ghost growth = { 2 };

    fn reserve(&mut self, edits: usize) -> Result<(), AllocError> {
        Barcode::reserve(self, edits + 1)
    }

    fn insert(&mut self, at: usize, item: bool) {
        self.insert_reserved(at, item);
    }

    fn remove(&mut self, at: usize) -> bool {
        let old = self.shown(at);
        Barcode::remove(self, at);
        old
    }

    fn replace(&mut self, at: usize, item: bool) -> bool {
        let old = self.shown(at);
        self.set_reserved(at, item);
        old
    }

    ghost use Rattle.gl_kernel.specs.Growth.{stretches_grow};

    ghost grows = { stretches_grow };
}
