//! The whole report.

ghost use Rattle.std.specs.Prelude.{◌≡◌, IfOk};
ghost use Rattle.spec_reports.specs.Report.{report as report_of};

use crate::entries::write_entries;
use crate::lists::write_lists;
use crate::order::write_order;
use gl_value::{Bytes, Memory};
use gl_world::{RunName, World};
use std::alloc::Global;

/// The report of a world: a line with the order, a line for each entry and each of its replies and tellings, a line for
/// each list. Each line ends with a line feed. It takes time and memory in proportion to the text.
pub fn report<N: RunName>(alloc: Global, world: &World<N>) -> Result<Bytes, Memory>
    ensures { IfOk result (λ text. text ≡ report_of world.now.plan world.now.order) }
{
    let mut out = Bytes::new(alloc);
    out.push_all(b"order ")?;
    write_order(world.order(), &mut out)?;
    out.push_all(b"\n")?;
    write_entries(world, &mut out)?;
    write_lists(world, &mut out)?;
    Ok(out)
}
