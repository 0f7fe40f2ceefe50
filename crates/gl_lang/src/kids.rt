//! The children of a value.

ghost use Rattle.std.specs.Prelude.{◌≡◌, ◌↔◌, IfOk, IsTrue};
ghost use Rattle.spec_lang.specs.Kids.{kids};

use crate::path::{Path, elements_at, same_path};
use gl_value::Value;
use std::alloc::{AllocError, Global};
use std::marker::Model;

/// A child model: the children of a value are the elements of the list at this path (`CollectionList.Model` of Glazed
/// Lists).
#[derive(Drop)]
pub struct Kids {
    pub path: Path,
}

impl Model for Kids {
    ghost use Rattle.std.specs.Prelude.{ℕ, List};

    ghost Value = { List ℕ };

    ghost view = { λ kids. kids.path };
}

impl Kids {
    /// The children of a value; none where the path gives no list. It takes one step for each step of the path.
    pub fn of<'a>(&self, v: &'a Value) -> &'a [Value]
        ensures { result.now ≡ kids self.now v.now }
    {
        elements_at(self.path.as_slice(), v)
    }

    /// The same model, in memory of its own.
    pub fn copy(&self, alloc: Global) -> Result<Kids, AllocError>
        ensures { IfOk result (λ kids. kids ≡ self.now) }
    {
        let path = self.path.copy(alloc)?;
        Ok(Kids { path })
    }

    /// Whether both are written the same.
    pub fn same(&self, other: &Kids) -> bool
        ensures { IsTrue result ↔ (self.now ≡ other.now) }
    {
        same_path(&self.path, &other.path)
    }
}
