//! Values in order, each found by its place in logarithmic time.

ghost use Rattle.std.specs.Prelude.{◌≡◌, ◌+◌, ◌-◌, ◌^◌, ◌<◌, ◌≤◌, [], length, insert, remove, OnOk, Some, slice_get};

use gl_counted::Counted;
use gl_value::Value;
use std::alloc::{AllocError, Global};
use std::marker::Model;

/// Values in order. Contracts see them, and for how many there is room.
#[derive(Drop)]
pub(crate) struct Ranked {
    list: Counted<Value>,
}

impl Model for Ranked {
    ghost use Rattle.std.specs.Prelude.{map};
    ghost use Rattle.gl_delta.specs.Listed.{Listed, listed_code};

    ghost Value = { Listed };

    ghost coded = { listed_code };

    ghost view = { λ r. record { values = map (λ e. e.1) r.list.entries; room = r.list.room } };
}

impl Ranked {
    /// No values. It takes no memory.
    pub(crate) fn new(alloc: Global) -> Ranked
        ensures empty { result.values ≡ [] }
        ensures no_room { result.room ≡ 0 }
    {
        Ranked {
            list: Counted::new(alloc),
        }
    }

    /// Makes room for so many values in all.
    pub(crate) fn reserve(&mut self, total: usize) -> Result<(), AllocError>
        requires { length self.old.values ≤ self.old.room }
        ensures ok { OnOk result (total ≤ self.new.room) }
        ensures values { self.new.values ≡ self.old.values }
        ensures room { self.old.room ≤ self.new.room }
    {
        let len = self.list.len();
        if total <= len {
            return Ok(());
        }
        self.list.reserve(total - len)
    }

    /// Puts a value in at a place, in room that there is. It takes no memory.
    pub(crate) fn insert(&mut self, position: usize, value: Value)
        requires in_range { position ≤ length self.old.values }
        requires few { length self.old.values + 1 < 2 ^ 32 - 1 }
        requires spare { length self.old.values < self.old.room }
        ensures values { self.new.values ≡ insert self.old.values position value }
        ensures room { self.new.room ≡ self.old.room }
    {
        self.list.insert_reserved(position, value);
    }

    /// Takes the value at a place out. There is room for it afterwards.
    pub(crate) fn take(&mut self, position: usize) -> Value
        requires { position < length self.old.values }
        ensures taken { slice_get self.old.values position ≡ Some result }
        ensures rest { self.new.values ≡ remove self.old.values position }
        ensures room { self.new.room ≡ self.old.room }
    {
        let _distinct = self.list.len();
        match self.list.at(position) {
            Some(handle) => self.list.take(handle),
            None => unreachable!(),
        }
    }

    /// The value at a place.
    pub(crate) fn at(&self, position: usize) -> &Value
        requires { position < length self.now.values }
        ensures { slice_get self.now.values position ≡ Some result.now }
    {
        let _distinct = self.list.len();
        match self.list.at(position) {
            Some(handle) => self.list.item(handle),
            None => unreachable!(),
        }
    }
}
