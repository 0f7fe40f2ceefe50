//! A source.

ghost use Rattle.std.specs.Prelude.{◌≡◌, ◌<◌, ◌≤◌, ◌↔◌, ℕ, length, Err, IfOk, OnOk, OnErr};
ghost use Rattle.spec_lists.specs.Piece.{new_len};
ghost use Rattle.spec_lists.specs.Leads.{LeadsFrom, IsDelta, applied};
ghost use Rattle.gl_source.specs.Edits.{edited, told, IsOutOfRange, IsTooLong};
ghost use Rattle.gl_source.specs.Stands.{before, CanRetreat, IsUndo};

use crate::edit::Edit;
use crate::fault::{EditFault, OpenFault};
use crate::log::log_of;
use crate::refusal::refusal;
use crate::telling::told;
use gl_delta::Delta;
use gl_kernel::{Editable, LogStep, ValueList, apply, take_back};
use gl_value::{Shelf, Value, Values};
use std::alloc::{AllocError, Global};
use std::marker::Model;

/// A list of at most so many elements, which is edited by place: the BasicEventList of Glazed Lists. Reading an element
/// takes time logarithmic in the length.
#[derive(Drop)]
pub struct SourceList {
    alloc: Global,
    limit: u64,
    list: ValueList,
}

impl Model for SourceList {
    ghost use Rattle.gl_source.specs.Kept.{Kept, kept_code, IsWithin};

    ghost Value = { Kept };

    ghost coded = { kept_code };

    ghost view = { λ s. record { values = s.list.values; limit = s.limit; room = s.list.room } };

    ghost invariant = { λ s. IsWithin s.list.values s.limit };
}

/// What takes a source back to where it stood before a change.
#[derive(Drop)]
pub struct SourceUndo {
    pub(crate) log: Vec<LogStep<Value>>,
}

impl SourceList {
    /// The source of these elements. It takes memory for them.
    pub fn make(alloc: Global, rows: &Values, limit: u64) -> Result<SourceList, OpenFault>
        requires few { limit ≤ 2147483647 }
        ensures values { IfOk result (λ source. source.values ≡ rows.now) }
        ensures limit { IfOk result (λ source. source.limit ≡ limit) }
        ensures too_long { (len : ℕ)
            → (result ≡ Err (OpenFault.TooLong len)) ↔ ((limit < len) × (len ≡ length rows.now)) }
    {
        let len = rows.len();
        if len as u64 > limit {
            return Err(OpenFault::TooLong { len: len as u128 });
        }
        let list = filled(alloc, rows.as_slice())?;
        Ok(SourceList { alloc, limit, list })
    }

    /// Makes an edit, and tells it. An edit of one element takes time logarithmic in the length, another one that for
    /// each element that it adds or takes out. It takes memory for as many changes.
    pub fn edit(&mut self, e: Edit) -> Result<(Delta, SourceUndo), EditFault>
        ensures pieces { IfOk result (λ done. done.0.pieces ≡ told e self.old.values) }
        ensures values { OnOk result (self.new.values ≡ edited e self.old.values) }
        ensures leads { IfOk result
            (λ done. IsDelta done.0.pieces self.old.values self.new.values) }
        ensures undo { IfOk result (λ done. IsUndo done.1 self.old self.new) }
        ensures out_of_range { (index len : ℕ)
            → (result ≡ Err (EditFault.OutOfRange index len)) ↔ IsOutOfRange e self.old.values index len }
        ensures too_long { (len : ℕ)
            → (result ≡ Err (EditFault.TooLong len)) ↔ IsTooLong e self.old.values self.old.limit len }
        ensures err { OnErr result (self.new.values ≡ self.old.values) }
        ensures limit { self.new.limit ≡ self.old.limit }
        ensures room { self.old.room ≤ self.new.room }
    {
        if let Some(fault) = refusal(&e, &self.list, self.limit) {
            return Err(fault);
        }
        let d = told(self.alloc, &self.list, e)?;
        let undo = self.apply(&d)?;
        Ok((d, undo))
    }

    /// Makes the changes of a delta that leads from the source's elements. It takes time logarithmic in the length, and
    /// memory, for each of them.
    pub fn apply(&mut self, d: &Delta) -> Result<SourceUndo, AllocError>
        requires leads { LeadsFrom d.now.pieces self.old.values }
        requires within { new_len d.now.pieces ≤ self.old.limit }
        ensures values { OnOk result (self.new.values ≡ applied d.now.pieces self.old.values) }
        ensures undo { IfOk result (λ undo. IsUndo undo self.old self.new) }
        ensures err { OnErr result (self.new.values ≡ self.old.values) }
        ensures limit { self.new.limit ≡ self.old.limit }
        ensures room { self.old.room ≤ self.new.room }
    {
        let _olds = d.old_len();
        let _news = d.new_len();
        let log = log_of(self.alloc, d)?;
        let log = apply(self.alloc, &mut self.list, log)?;
        Ok(SourceUndo { log })
    }

    /// Goes back to where the source stood before its last change, whose undo this is. It takes no memory.
    pub fn retreat(&mut self, undo: SourceUndo)
        requires { CanRetreat undo self.old }
        ensures back { self.new.values ≡ before undo self.old }
        ensures limit { self.new.limit ≡ self.old.limit }
        ensures room { self.old.room ≤ self.new.room }
    {
        let SourceUndo { log } = undo;
        take_back(&mut self.list, log);
    }

    /// How many elements it may have.
    pub fn limit(&self) -> u64
        ensures value { result ≡ self.now.limit }
        ensures within { length self.now.values ≤ result }
        ensures few { result ≤ 2147483647 }
    {
        self.limit
    }
}

impl Shelf for SourceList {
    ghost items = { λ s. s.values };

    fn len(&self) -> usize {
        self.list.len()
    }

    fn get(&self, position: usize) -> Option<&Value> {
        self.list.get(position)
    }
}

// A list of these values.
fn filled(alloc: Global, values: &[Value]) -> Result<ValueList, AllocError>
    requires { length values.now ≤ 2147483647 }
    ensures { IfOk result (λ list. list.values ≡ values.now) }
{
    let mut list = ValueList::new(alloc);
    list.reserve(values.len())?;
    'values: for position in 0..values.len() {
        list.insert(position, values[position].copy()?);
    }
    Ok(list)
}
