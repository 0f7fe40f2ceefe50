//! A list of values in a balanced tree.

ghost use Rattle.std.specs.Prelude.{◌≡◌, ◌+◌, ◌<◌, [], length, insert, remove, Some};

use crate::editable::Editable;
use gl_counted::Counted;
use gl_value::{Shelf, Value};
use std::alloc::{AllocError, Global};
use std::marker::Model;
use std::mem;

/// A list of values. Reading and editing at a place take time logarithmic in the length.
#[derive(Drop)]
pub struct ValueList {
    list: Counted<Value>,
}

impl Model for ValueList {
    ghost use Rattle.gl_kernel.specs.Values.{Stored, stored_code, unnamed};

    ghost Value = { Stored };

    ghost coded = { stored_code };

    ghost view = { λ l. record { values = unnamed l.list.entries; room = l.list.room } };
}

impl ValueList {
    /// The empty list, which takes no memory until the first reserve.
    pub fn new(alloc: Global) -> ValueList
        ensures { result.values ≡ [] }
    {
        ValueList {
            list: Counted::new(alloc),
        }
    }
}

impl Shelf for ValueList {
    ghost items = { λ l. l.values };

    fn len(&self) -> usize {
        self.list.len()
    }

    fn get(&self, position: usize) -> Option<&Value> {
        let _len = self.list.len();
        match self.list.at(position) {
            Some(handle) => Some(self.list.item(handle)),
            None => None,
        }
    }
}

impl Editable for ValueList {
    type Item = Value;

    ghost use Rattle.std.specs.Prelude.{length};

    ghost items = { λ l. l.values };

    ghost room = { λ l. l.room };

    ghost need = { length };

    ghost growth = { 1 };

    fn reserve(&mut self, edits: usize) -> Result<(), AllocError> {
        self.list.reserve(edits + 1)
    }

    fn insert(&mut self, at: usize, item: Value) {
        self.list.insert_reserved(at, item);
    }

    fn remove(&mut self, at: usize) -> Value {
        let _len = self.list.len();
        match self.list.at(at) {
            Some(handle) => self.list.take(handle),
            None => unreachable!(),
        }
    }

    fn replace(&mut self, at: usize, item: Value) -> Value {
        let _len = self.list.len();
        match self.list.at(at) {
            Some(handle) => mem::replace(self.list.item_mut(handle), item),
            None => unreachable!(),
        }
    }

    ghost use Rattle.gl_kernel.specs.Growth.{length_grows};

    ghost grows = { length_grows };
}
