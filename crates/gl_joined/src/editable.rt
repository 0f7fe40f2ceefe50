//! A list of lengths as one that a log edits.

ghost use Rattle.std.specs.Prelude.{◌≡◌};

use crate::length::Length;
use crate::list::LengthList;
use gl_kernel::Editable;
use std::alloc::AllocError;

impl Editable for LengthList {
    type Item = u32;

    ghost use Rattle.std.specs.Prelude.{length};

    ghost items = { λ l. l.lens };

    ghost room = { λ l. l.room };

    ghost need = { length };

    ghost growth = { 1 };

    fn reserve(&mut self, edits: usize) -> Result<(), AllocError> {
        self.tree.reserve(edits)
    }

    fn insert(&mut self, at: usize, item: u32) {
        self.tree.insert_reserved(at, one(item));
    }

    fn remove(&mut self, at: usize) -> u32 {
        let (_slot, own) = self.tree.remove_at(at);
        own.elements
    }

    fn replace(&mut self, at: usize, item: u32) -> u32 {
        let old = self.tree.get(at);
        self.tree.set_own(at, one(item));
        match old {
            Some((_slot, own)) => own.elements,
            None => unreachable!(),
        }
    }

    ghost use Rattle.gl_kernel.specs.Growth.{length_grows};

    ghost grows = { length_grows };
}

// One part of so many elements.
fn one(elements: u32) -> Length
    ensures { result ≡ record { parts = 1; elements = elements } }
{
    Length { parts: 1, elements }
}
