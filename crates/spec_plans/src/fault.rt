//! Faults of plans.

use gl_lines::PlanKind;

/// A fault in a line, by its column.
#[derive(Clone, Copy, Debug)]
pub struct NameFault {
    pub column: u64,
    pub kind: PlanKind,
}

/// A fault of a plan, by its line and column.
#[derive(Clone, Copy, Debug)]
pub struct FaultAt {
    pub line: u64,
    pub column: u64,
    pub kind: PlanKind,
}
