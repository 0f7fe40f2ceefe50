//! All lines of the large plan.

ghost use Rattle.std.specs.Prelude.{◌≡◌, ◌≤◌, ◌∷◌, ◌++◌, [], IfOk, OnOk, codes};
ghost use Rattle.spec_plans.specs.Numbered.{numbered};
ghost use Rattle.spec_plans.specs.PlanNames.{unplaced_name};
ghost use Rattle.gl_lines.specs.declared.line.Line.TheVariants as line;
ghost use Rattle.gl_big.specs.Lines.{source_lines, large_lines};

use crate::lists::{add_listeners, add_views};
use crate::numbered::LinesSoFar;
use crate::parts::{letter_name, named};
use crate::sections::{add_rows, add_sections};
use gl_lines::{Line, Lines};
use gl_value::{Memory, Name};
use std::alloc::Global;

/// The lines of the large plan of a size, by their numbers in its text. Those about the source share its name.
pub(crate) fn large_lines(alloc: Global, size: u32) -> Result<Lines, Memory>
    ensures { IfOk result (λ lines. lines ≡ numbered 2 (large_lines size)) }
{
    let source = letter_name(alloc, b's')?;
    let mut lines = LinesSoFar::new(alloc);
    add_source(alloc, &source, u64::from(size), &mut lines)?;
    add_views(alloc, &mut lines)?;
    add_listeners(alloc, &mut lines)?;
    lines.add(Line::Writer)?;
    add_sections(alloc, &source, u64::from(size), &mut lines)?;
    Ok(lines.into_lines())
}

// The limit, and the source with its opening elements.
fn add_source(
    alloc: Global,
    source: &Name,
    count: u64,
    lines: &mut LinesSoFar,
) -> Result<(), Memory>
    requires { count ≤ 4294967295 }
    ensures { OnOk result (lines.new ≡ lines.old ++ source_lines source.now count) }
{
    lines.add(Line::Limit { limit: 16_777_216 })?;
    let name = named(source)?;
    lines.add(Line::Source { name })?;
    add_rows(alloc, source, count, lines)
}
