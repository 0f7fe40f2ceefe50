//! Why lines make no plan.

use gl_lines::PlanKind;
use gl_value::{Items, Name};
use std::alloc::AllocError;

/// Names of lists or of listeners.
pub type Names = Items<Name>;

/// Why lines make no plan.
#[derive(Drop)]
pub enum PlanFault {
    /// The first fault of the lines: a line by its number in the text, and a column of it, in bytes from 1 on.
    At {
        line: u64,
        column: u64,
        kind: PlanKind,
    },
    /// Lists depend on each other in a circle, or else listeners are told after each other: the first such circle,
    /// in which each depends on the next and the last on the first.
    Cycle {
        names: Names,
    },
    /// Memory ran out, and nothing is known of the lines.
    Memory,
}

impl From<AllocError> for PlanFault {
    ghost use Rattle.std.specs.Prelude.{◌≡◌};
    ghost use Rattle.gl_plan.specs.declared.fault.PlanFault.TheVariants.{Memory};

    ghost from_gives = { λ _ fault. fault ≡ Memory };

    fn from(_memory: AllocError) -> PlanFault {
        PlanFault::Memory
    }
}
