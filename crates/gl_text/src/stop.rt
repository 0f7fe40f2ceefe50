//! Why the reading of a text stops.

ghost use Rattle.std.specs.Prelude.{◌≡◌};

use gl_lines::PlanKind;
use spec_plan_texts::FaultAt;
use std::alloc::AllocError;

/// Why the reading of a text stops.
#[derive(Clone, Copy, Debug)]
pub enum Stop {
    /// The first fault of its lines.
    Fault(FaultAt),
    /// There was no memory.
    Memory,
}

impl From<AllocError> for Stop {
    ghost use Rattle.std.specs.Prelude.{◌≡◌};
    ghost use Rattle.gl_text.specs.declared.stop.Stop.TheVariants.{Memory};

    ghost from_gives = { λ _ stop. stop ≡ Memory };

    fn from(_failed: AllocError) -> Stop {
        Stop::Memory
    }
}

/// A fault in the line of a number, at a column.
pub(crate) fn fault(line: u64, column: u64, kind: PlanKind) -> Stop
    ensures { result ≡ Stop.Fault (record { line = line; column = column; kind = kind }) }
{
    Stop::Fault(FaultAt { line, column, kind })
}
