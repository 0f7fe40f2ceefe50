//! The numbers of the lists that a list depends on.

ghost use Rattle.std.specs.Prelude.{◌≡◌, ◌||◌, [], ℕ, option_to_list, IfOk};
ghost use Rattle.spec_order.specs.DependencyOrder.{has};

use crate::marks::{is_marked, with_mark};
use std::alloc::{AllocError, Global};
use std::marker::Model;

/// Numbers, each once. Whether a number is among them takes one step.
#[derive(Drop)]
pub(crate) struct Needs {
    numbers: Vec<u32>,
    marks: Vec<bool>,
}

impl Model for Needs {
    ghost use Rattle.std.specs.Prelude.{◌≡◌, ℕ, List};
    ghost use Rattle.spec_order.specs.DependencyOrder.{has};
    ghost use Rattle.gl_plan_faults.specs.Marked.{is_marked};

    ghost Value = { List ℕ };

    ghost view = { λ needs. needs.numbers.items };

    ghost invariant = { λ needs. (b : ℕ) → is_marked needs.marks.items b ≡ has needs.numbers.items b };
}

impl Needs {
    /// No numbers, which take no memory.
    pub(crate) fn new(alloc: Global) -> Needs
        ensures { result ≡ [] }
    {
        Needs {
            numbers: Vec::new(alloc),
            marks: Vec::new(alloc),
        }
    }

    /// Whether a number is among them.
    pub(crate) fn has(&self, number: u32) -> bool
        ensures { result ≡ has self.now number }
    {
        is_marked(self.marks.as_slice(), number as usize)
    }

    /// The numbers, in the order in which they came.
    pub(crate) fn as_slice(&self) -> &[u32]
        ensures { result.now ≡ self.now }
    {
        self.numbers.as_slice()
    }

    /// The numbers with this one, once. They are given up where memory runs out.
    #[tactic(auto, using(crate::proofs::Built::has_already, crate::proofs::Built::has_pushed, crate::proofs::Built::has_no_more, crate::proofs::MarkedNumbers::marks_pushed))]
    pub(crate) fn with(self, number: Option<u32>) -> Result<Needs, AllocError>
        ensures { IfOk result
            (λ more. (b : ℕ) → has more b ≡ (has self b || has (option_to_list number) b)) }
    {
        let Some(number) = number else {
            return Ok(self);
        };
        if self.has(number) {
            return Ok(self);
        }
        let Needs { mut numbers, marks } = self;
        let marks = with_mark(marks, number)?;
        numbers.push(number)?;
        Ok(Needs { numbers, marks })
    }
}
