//! The large plan.

ghost use Rattle.std.specs.Prelude.{◌≡◌, IfOk};
ghost use Rattle.spec_reports.specs.Big.{big_plan as plan_of_size};

use crate::lines::large_lines;
use gl_plan::{Memory, Plan, PlanFault};
use std::alloc::Global;

/// The large plan of a size: a source of so many pairs of numbers under six other lists, with two listeners, and a
/// writer with as many sections of three commands. It is made of its lines, as data: no text is written or read. It takes
/// time in proportion to the size, and memory for the lines beside that of the plan.
pub fn big_plan(alloc: Global, size: u32) -> Result<Plan, Memory>
    ensures { IfOk result (λ plan. plan ≡ plan_of_size size) }
{
    let lines = large_lines(alloc, size)?;
    match Plan::from_lines(alloc, lines) {
        Ok(plan) => Ok(plan),
        Err(PlanFault::At { .. }) => unreachable!(),
        Err(PlanFault::Cycle { .. }) => unreachable!(),
        Err(PlanFault::Memory) => Err(Memory),
    }
}
