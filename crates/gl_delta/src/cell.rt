//! The cells of a delta.

use gl_value::Value;

/// A cell of a delta: so many kept elements, an updated one by its old and its new value, a deleted or an inserted one.
#[derive(Drop)]
pub enum Cell {
    Keep(usize),
    Update(Value, Value),
    Delete(Value),
    Insert(Value),
}

/// A cell of a delta, with its values as the delta keeps them.
#[derive(Clone, Copy)]
pub enum CellRef<'a> {
    Keep(usize),
    Update(&'a Value, &'a Value),
    Delete(&'a Value),
    Insert(&'a Value),
}

/// An element of a delta's old list: kept, at this new place, or its old value.
#[derive(Clone, Copy)]
pub enum Old<'a> {
    Kept(usize),
    Value(&'a Value),
}
