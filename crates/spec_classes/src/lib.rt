//! Classes of equal key while a list changes: how the classes of the old and of the new list meet, and what a unique list
//! and a grouping tell of the touched ones alone. Definitions and laws, with the plain types that they speak of and no code.
#![tactic(auto)]

/// The first member of a class of the old list, as it is read after a change: one that was deleted or updated, by its old
/// index, under which the delta has its old value; or one of a plain pair, by its new index.
#[derive(Clone, Copy)]
pub enum First {
    Gone(usize),
    Plain(usize),
}

/// A class of the old list, by its index in key order, and its first member.
#[derive(Clone, Copy)]
pub struct OldClass {
    pub index: usize,
    pub first: First,
}

/// A class of the new list, by its index in key order, and the index of its first member in that list.
#[derive(Clone, Copy)]
pub struct NewClass {
    pub index: usize,
    pub first: usize,
}

/// A key that a change of a list touches: its class in the old list and its class in the new one. One of them may be
/// missing: then the class goes, or comes.
#[derive(Clone, Copy)]
pub struct Slot {
    pub old: Option<OldClass>,
    pub new: Option<NewClass>,
}
