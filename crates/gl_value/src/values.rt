//! A list of values that is built by adding at its end.

ghost use Rattle.std.specs.Prelude.{◌≡◌, [], ◌∷◌, ◌++◌, ◌-◌, ◌<◌, length, vec_len, slice_get, Some, OnErr, IfErr, IfOk, OnOk};
ghost use Rattle.std.specs.Arc.{arc_value};
ghost use Rattle.gl_value.specs.Held.{held};

use crate::value::Value;
use std::alloc::{AllocError, Global};
use std::marker::Model;
use std::sync::Arc;

/// A list of values. It is shared by the values made of it and by their copies, and copied once when it is added to
/// while it is shared.
#[derive(Drop)]
pub struct Values {
    alloc: Global,
    items: Option<Arc<Vec<Value>>>,
}

impl Model for Values {
    ghost use Rattle.std.specs.Prelude.{List};
    ghost use Rattle.spec_value.specs.Tree.{Tree};
    ghost use Rattle.spec_value.specs.Code.{tree_code};
    ghost use Rattle.std.specs.Coded.{coded_list};

    ghost Value = { List Tree };

    ghost coded = { coded_list tree_code };

    ghost use Rattle.gl_value.specs.Held.{held};

    ghost view = { λ v. held v.items };
}

impl Values {
    /// The empty list, which takes no memory.
    pub fn new(alloc: Global) -> Values
        ensures { result ≡ [] }
    {
        Values { alloc, items: None }
    }

    /// The number of values.
    pub fn len(&self) -> usize
        ensures { result ≡ length self.now }
    {
        self.as_slice().len()
    }

    /// The values, in order.
    pub fn as_slice(&self) -> &[Value]
        ensures { result.now ≡ self.now }
    {
        match &self.items {
            None => &[],
            Some(items) => items.as_slice(),
        }
    }

    /// Adds a value at the end. It takes memory at the first value and where the room is used up; the value is handed
    /// back where there is none, and the list is then as it was.
    pub fn push(&mut self, v: Value) -> Result<(), (Value, AllocError)>
        ensures ok { OnOk result (self.new ≡ self.old ++ v ∷ []) }
        ensures err { OnErr result (self.new ≡ self.old) }
        ensures back { IfErr result (λ e. e.0 ≡ v) }
    {
        let alloc = self.alloc;
        match &mut self.items {
            Some(items) => add(alloc, items, v),
            None => match first(alloc, v) {
                Ok(items) => {
                    self.items = Some(items);
                    Ok(())
                }
                Err(failed) => Err(failed),
            },
        }
    }

    /// The same list, which costs one step: both share the values until one of them is added to.
    pub fn copy(&self) -> Result<Values, AllocError>
        ensures { IfOk result (λ vs. vs ≡ self.now) }
    {
        let items = match &self.items {
            None => None,
            Some(items) => Some(Arc::try_clone(items)?),
        };
        Ok(Values {
            alloc: self.alloc,
            items,
        })
    }

    /// The values as a value holds them, or none where the list is empty.
    pub(crate) fn into_shared(self) -> Option<Arc<Vec<Value>>>
        ensures { held result ≡ self }
    {
        let Values { alloc: _, items } = self;
        items
    }
}

// A list of one value, with room for a second one, since lists of two are the commonest.
fn first(alloc: Global, v: Value) -> Result<Arc<Vec<Value>>, (Value, AllocError)>
    ensures ok { IfOk result (λ it. (arc_value it).items ≡ v ∷ []) }
    ensures back { IfErr result (λ e. e.0 ≡ v) }
{
    match Vec::with_capacity(alloc, 2) {
        Ok(own) => grown(alloc, own, v),
        Err(e) => Err((v, e)),
    }
}

// One more value in a list, which is copied first where others hold it too.
fn add(alloc: Global, items: &mut Arc<Vec<Value>>, v: Value) -> Result<(), (Value, AllocError)>
    ensures ok { OnOk result ((arc_value items.new).items ≡ (arc_value items.old).items ++ v ∷ []) }
    ensures err { OnErr result ((arc_value items.new).items ≡ (arc_value items.old).items) }
    ensures back { IfErr result (λ e. e.0 ≡ v) }
{
    match Arc::get_mut(items) {
        Some(own) => append(own, v),
        None => match detached(alloc, items.as_slice(), v) {
            Ok(own) => {
                *items = own;
                Ok(())
            }
            Err(failed) => Err(failed),
        },
    }
}

// The values and one more, in a list of their own.
fn detached(
    alloc: Global,
    items: &[Value],
    v: Value,
) -> Result<Arc<Vec<Value>>, (Value, AllocError)>
    ensures ok { IfOk result (λ it. (arc_value it).items ≡ items.now ++ v ∷ []) }
    ensures back { IfErr result (λ e. e.0 ≡ v) }
{
    match copies(alloc, items) {
        Ok(own) => grown(alloc, own, v),
        Err(e) => Err((v, e)),
    }
}

// Copies of the values, with room for one more.
fn copies(alloc: Global, items: &[Value]) -> Result<Vec<Value>, AllocError>
    ensures { IfOk result (λ own. own.items ≡ items.now) }
{
    let mut own = Vec::with_capacity(alloc, items.len() + 1)?;
    for item in items {
        own.push(item.copy()?)?;
    }
    Ok(own)
}

// The list with one more value, to be shared.
fn grown(
    alloc: Global,
    mut own: Vec<Value>,
    v: Value,
) -> Result<Arc<Vec<Value>>, (Value, AllocError)>
    ensures ok { IfOk result (λ it. (arc_value it).items ≡ own.items ++ v ∷ []) }
    ensures back { IfErr result (λ e. e.0 ≡ v) }
{
    append(&mut own, v)?;
    match Arc::new(alloc, own) {
        Ok(items) => Ok(items),
        Err(failed) => Err((last(failed.value), AllocError)),
    }
}

fn last(mut own: Vec<Value>) -> Value
    requires { 0 < vec_len own }
    ensures { slice_get own.items (vec_len own - 1) ≡ Some result }
{
    own.pop().unwrap()
}

fn append(own: &mut Vec<Value>, v: Value) -> Result<(), (Value, AllocError)>
    ensures ok { OnOk result (own.new.items ≡ own.old.items ++ v ∷ []) }
    ensures err { OnErr result (own.new.items ≡ own.old.items) }
    ensures back { IfErr result (λ e. e.0 ≡ v) }
{
    match own.push(v) {
        Ok(()) => Ok(()),
        Err(failed) => Err((failed.value, AllocError)),
    }
}
