//! Deltas by number.

ghost use Rattle.std.specs.Prelude.{◌≡◌, ◌<◌, length, replicate, IfOk, None, Some, option_copied, slice_index_or, slice_set};

use crate::delta::Delta;
use std::alloc::{AllocError, Global};
use std::marker::Model;

/// A delta or none under each number below a bound, as under the numbers of a plan's lists. Contracts see a list of so
/// many options.
#[derive(Drop)]
pub struct Deltas {
    slots: Vec<Option<Delta>>,
}

impl Model for Deltas {
    ghost use Rattle.std.specs.Prelude.{List, Option};
    ghost use Rattle.std.specs.Coded.{coded_list, coded_option};
    ghost use Rattle.gl_delta.specs.Model.{DeltaModel, delta_model_code};

    ghost Value = { List (Option DeltaModel) };

    ghost coded = { coded_list (coded_option delta_model_code) };

    ghost view = { λ d. d.slots.items };
}

impl Deltas {
    /// No delta under any of the numbers below `n`. It takes the memory for as many deltas, without that of their
    /// changes.
    pub fn make(alloc: Global, n: u32) -> Result<Deltas, AllocError>
        ensures { IfOk result (λ d. d ≡ replicate n None) }
    {
        let mut slots = Vec::with_capacity(alloc, n as usize)?;
        for _ in 0..n {
            slots.push(None)?;
        }
        Ok(Deltas { slots })
    }

    /// Puts a delta under a number, in place of one that is there. It takes no memory.
    pub fn put(&mut self, k: u32, d: Delta)
        requires { k < length self.old }
        ensures { self.new ≡ slice_set self.old k (Some d) }
    {
        self.slots[k as usize] = Some(d);
    }

    /// The delta under a number; `None` exactly where there is none.
    pub fn get(&self, k: u32) -> Option<&Delta>
        requires { k < length self.now }
        ensures { option_copied result ≡ slice_index_or self.now k None }
    {
        self.slots[k as usize].as_ref()
    }

    /// Takes out the delta under a number; `None` exactly where there is none.
    pub fn take(&mut self, k: u32) -> Option<Delta>
        requires { k < length self.old }
        ensures taken { result ≡ slice_index_or self.old k None }
        ensures rest { self.new ≡ slice_set self.old k None }
    {
        self.slots[k as usize].take()
    }
}
