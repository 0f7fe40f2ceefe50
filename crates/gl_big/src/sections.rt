//! The lines of the large plan that there are many of: the opening elements of its source, and the sections of its writer.

ghost use Rattle.std.specs.Prelude.{◌≡◌, ◌<◌, ◌≤◌, ◌*◌, ◌%◌, ◌++◌, ◌∷◌, [], map, flat_map, OnOk};
ghost use Rattle.std.specs.List.{range_with_len};
ghost use Rattle.gl_lines.specs.declared.line.Line.TheVariants as line;
ghost use Rattle.spec_plans.specs.PlanNames.{unplaced_name};
ghost use Rattle.spec_reports.specs.Big.{element as pair_of};
ghost use Rattle.gl_big.specs.Lines.{row_line, section_lines};

use crate::numbered::LinesSoFar;
use crate::parts::{element, named, residue};
use gl_lines::Line;
use gl_value::{Memory, Name};
use std::alloc::Global;

/// Adds the lines of so many opening elements of a source.
pub(crate) fn add_rows(
    alloc: Global,
    source: &Name,
    count: u64,
    lines: &mut LinesSoFar,
) -> Result<(), Memory>
    requires { count ≤ 4294967295 }
    ensures { OnOk result
        (lines.new ≡ lines.old ++ map (row_line source.now) (range_with_len 0 count)) }
{
    for k in 0..count {
        add_row(alloc, source, k, lines)?;
    }
    Ok(())
}

fn add_row(alloc: Global, source: &Name, k: u64, lines: &mut LinesSoFar) -> Result<(), Memory>
    requires { k ≤ 4294967295 }
    ensures { OnOk result (lines.new ≡ lines.old ++ row_line source.now k ∷ []) }
{
    let list = named(source)?;
    let value = element(alloc, residue(37 * k, 101), residue(k, 7))?;
    lines.add(Line::Row { list, value })
}

/// Adds the lines of as many sections, each with its commands.
pub(crate) fn add_sections(
    alloc: Global,
    source: &Name,
    count: u64,
    lines: &mut LinesSoFar,
) -> Result<(), Memory>
    requires { count ≤ 4294967295 }
    ensures { OnOk result
        (lines.new
        ≡ lines.old ++ flat_map (section_lines source.now count) (range_with_len 0 count)) }
{
    for j in 0..count {
        add_section(alloc, source, count, j, lines)?;
    }
    Ok(())
}

fn add_section(
    alloc: Global,
    source: &Name,
    count: u64,
    j: u64,
    lines: &mut LinesSoFar,
) -> Result<(), Memory>
    requires few { count ≤ 4294967295 }
    requires within { j < count }
    ensures { OnOk result (lines.new ≡ lines.old ++ section_lines source.now count j) }
{
    lines.add(Line::Section)?;
    add_set(alloc, source, count, j, lines)?;
    add_add(alloc, source, j, lines)?;
    add_remove(source, count, j, lines)
}

fn add_set(
    alloc: Global,
    source: &Name,
    count: u64,
    j: u64,
    lines: &mut LinesSoFar,
) -> Result<(), Memory>
    requires few { count ≤ 4294967295 }
    requires within { j < count }
    ensures { OnOk result (lines.new ≡ lines.old
        ++ line.Set (unplaced_name source.now) ((13 * j) % count)
        (pair_of ((41 * j) % 101) (j % 7)) ∷ []) }
{
    let list = named(source)?;
    let index = residue(13 * j, count);
    let value = element(alloc, residue(41 * j, 101), residue(j, 7))?;
    lines.add(Line::Set { list, index, value })
}

fn add_add(alloc: Global, source: &Name, j: u64, lines: &mut LinesSoFar) -> Result<(), Memory>
    requires { j ≤ 4294967295 }
    ensures { OnOk result (lines.new ≡ lines.old
        ++ line.Add (unplaced_name source.now) (pair_of ((53 * j) % 101) (j % 7)) ∷ []) }
{
    let list = named(source)?;
    let value = element(alloc, residue(53 * j, 101), residue(j, 7))?;
    lines.add(Line::Add { list, value })
}

fn add_remove(source: &Name, count: u64, j: u64, lines: &mut LinesSoFar) -> Result<(), Memory>
    requires few { count ≤ 4294967295 }
    requires within { j < count }
    ensures { OnOk result (lines.new ≡ lines.old
        ++ line.Remove (unplaced_name source.now) ((29 * j) % count) ∷ []) }
{
    let list = named(source)?;
    let index = residue(29 * j, count);
    lines.add(Line::Remove { list, index })
}
