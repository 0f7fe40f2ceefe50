//! Orders by keys.

ghost use Rattle.std.specs.Prelude.{◌≡◌, ◌↔◌, IfOk, IsTrue};
ghost use Rattle.std.specs.Cmp.{IsEquivalence};
ghost use Rattle.spec_lang.specs.Sorting.{key_cmp, order_cmp, same_key};

use crate::path::{Path, same_path, value_at};
use gl_value::{Compare, Items, Steps, Value};
use std::alloc::{AllocError, Global};
use std::cmp::Ordering;
use std::marker::Model;
use std::sync::ledger::Ledger;

/// A key: what the path gives of both values is compared, the other way round where `down` is true.
#[derive(Drop)]
pub struct Key {
    pub path: Path,
    pub down: bool,
}

impl Model for Key {
    ghost use Rattle.spec_lang.specs.Sorting.{Key as SortKey};

    ghost Value = { SortKey };

    ghost view = { λ key. record { path = key.path; down = key.down } };
}

/// The keys of an order, the first one first.
pub type Keys = Items<Key>;

/// An order: the first key whose values differ decides (`Comparator` of Glazed Lists).
#[derive(Drop)]
pub struct Order {
    pub keys: Keys,
}

impl Model for Order {
    ghost use Rattle.std.specs.Prelude.{List};
    ghost use Rattle.spec_lang.specs.Sorting.{Key as SortKey};

    ghost Value = { List SortKey };

    ghost view = { λ order. order.keys };
}

impl Compare for Order {
    ghost use Rattle.spec_lang.specs.Sorting.{order_cmp};
    ghost use Rattle.spec_lang.proofs.Sortings.{order_cmp_total};

    ghost order = { order_cmp };

    ghost weak = { order_cmp_total };

    fn compare<L: Ledger>(&self, a: &Value, b: &Value, steps: &mut Steps<L>) -> Ordering {
        steps.tick();
        compare_by(self.keys.as_slice(), a, b)
    }
}

impl Key {
    /// The same key, in memory of its own.
    pub fn copy(&self, alloc: Global) -> Result<Key, AllocError>
        ensures { IfOk result (λ key. key ≡ self.now) }
    {
        let path = self.path.copy(alloc)?;
        Ok(Key {
            path,
            down: self.down,
        })
    }

    /// Whether both are written the same.
    pub fn same(&self, other: &Key) -> bool
        ensures { IsTrue result ↔ (self.now ≡ other.now) }
    {
        self.down == other.down && same_path(&self.path, &other.path)
    }
}

impl Order {
    /// The same order, in memory of its own.
    pub fn copy(&self, alloc: Global) -> Result<Order, AllocError>
        ensures { IfOk result (λ order. order ≡ self.now) }
    {
        let keys = copies(alloc, self.keys.as_slice())?;
        Ok(Order {
            keys: Items::from_vec(keys),
        })
    }

    /// Whether both are written the same.
    pub fn same(&self, other: &Order) -> bool
        ensures { IsTrue result ↔ (self.now ≡ other.now) }
    {
        same_keys(self.keys.as_slice(), other.keys.as_slice())
    }
}

/// The law that values of equal key fall into classes: equality of keys is an equivalence. It does nothing.
pub fn key_classes(order: &Order)
    ensures { IsEquivalence (same_key order.now) }
{
    let _ = order;
}

fn copies(alloc: Global, keys: &[Key]) -> Result<Vec<Key>, AllocError>
    ensures { IfOk result (λ copies. copies.items ≡ keys.now) }
{
    let mut own = Vec::with_capacity(alloc, keys.len())?;
    for key in keys {
        own.push(key.copy(alloc)?)?;
    }
    Ok(own)
}

fn same_keys(a: &[Key], b: &[Key]) -> bool
    ensures { IsTrue result ↔ (a.now ≡ b.now) }
{
    if a.len() != b.len() {
        return false;
    }
    for i in 0..a.len() {
        if !a[i].same(&b[i]) {
            return false;
        }
    }
    true
}

fn compare_by(keys: &[Key], a: &Value, b: &Value) -> Ordering
    ensures { result ≡ order_cmp keys.now a.now b.now }
{
    for key in keys {
        match compare_key(key, a, b) {
            Ordering::Less => return Ordering::Less,
            Ordering::Equal => {}
            Ordering::Greater => return Ordering::Greater,
        }
    }
    Ordering::Equal
}

fn compare_key(key: &Key, a: &Value, b: &Value) -> Ordering
    ensures { result ≡ key_cmp key.now a.now b.now }
{
    let nothing = Value::empty();
    let first = value_at(key.path.as_slice(), a, &nothing);
    let second = value_at(key.path.as_slice(), b, &nothing);
    if key.down {
        Value::cmp(second, first)
    } else {
        Value::cmp(first, second)
    }
}
