//! The summary of a world.

ghost use Rattle.std.specs.Prelude.{◌≡◌, ◌<◌, ◌++◌, length, decimal, Some, IfOk, OnOk};
ghost use Rattle.spec_reports.specs.Opening.{opening};
ghost use Rattle.spec_reports.specs.Shown.{table_of, shows_in};
ghost use Rattle.spec_reports.specs.Run.{run};
ghost use Rattle.spec_reports.specs.Summary.{first_kind, length_lines, summary as summary_of};
ghost use Rattle.gl_report.specs.Counts.{length_line};

use crate::counts::write_counts;
use gl_lines::ListKind;
use gl_syntax::add_number;
use gl_value::{Bytes, Memory};
use gl_world::{RunName, World};
use std::alloc::Global;

/// The summary of a world: a line with the opening length of its first list, one with the number of its entries, one for each
/// listener with the number of its tellings and of the changes in them, and one for each list with its length. Each line
/// ends with a line feed. It goes over the tellings twice for each listener, and takes memory for the text; where the
/// first list is no source, the plan is opened once more for its opening length.
pub fn summary<N: RunName>(alloc: Global, world: &World<N>) -> Result<Bytes, Memory>
    ensures { IfOk result (λ text. text ≡ summary_of world.now.plan world.now.order) }
{
    let mut out = Bytes::new(alloc);
    out.push_all(b"big ")?;
    write_opening(alloc, world, &mut out)?;
    out.push_all(b"\nentries ")?;
    add_number(world.order().len() as u64, &mut out)?;
    out.push_all(b"\n")?;
    write_counts(world, &mut out)?;
    write_lengths(world, &mut out)?;
    Ok(out)
}

// The opening length of the first list.
fn write_opening<N: RunName>(alloc: Global, world: &World<N>, out: &mut Bytes) -> Result<(), Memory>
    ensures { OnOk result
        (out.new ≡ out.old ++ decimal (length (shows_in (table_of (opening world.now.plan)) 0))) }
{
    let len = opening_len(alloc, world)?;
    add_number(len as u64, out)
}

// It is 0 where there is no list.
fn opening_len<N: RunName>(alloc: Global, world: &World<N>) -> Result<usize, Memory>
    ensures { IfOk result (λ len. len ≡ length (shows_in (table_of (opening world.now.plan)) 0)) }
{
    match world.plan().lists().get(0) {
        Some(decl) => first_len(alloc, world, &decl.kind),
        None => Ok(0),
    }
}

// The opening length of the first list, which is of this kind.
fn first_len<N: RunName>(alloc: Global, world: &World<N>, kind: &ListKind) -> Result<usize, Memory>
    requires { first_kind world.now.plan ≡ Some kind.now }
    ensures { IfOk result (λ len. len ≡ length (shows_in (table_of (opening world.now.plan)) 0)) }
{
    let _whole = world.plan().lists();
    match kind {
        ListKind::Source { rows } => Ok(rows.len()),
        _ => opened_len(alloc, world),
    }
}

// The same of a plan that has a list, found by opening it once more. That it opens is known from the world, which was
// opened with it, and is no clause of any call: so the fault of a list that is too long is answered as want of memory.
fn opened_len<N: RunName>(alloc: Global, world: &World<N>) -> Result<usize, Memory>
    requires { 0 < length world.now.plan.lists }
    ensures { IfOk result (λ len. len ≡ length (shows_in (table_of (opening world.now.plan)) 0)) }
{
    match World::<N>::open(alloc, world.plan()) {
        Ok(opened) => Ok(opened.len(0)),
        Err(_) => Err(Memory),
    }
}

// A line for each list, in number order.
fn write_lengths<N: RunName>(world: &World<N>, out: &mut Bytes) -> Result<(), Memory>
    ensures { OnOk result
        (out.new ≡ out.old
        ++ length_lines world.now.plan.lists (table_of (run world.now.plan world.now.order).state)) }
{
    let plan = world.plan();
    let lists = plan.lists();
    for (list, decl) in lists.iter().enumerate() {
        write_length(decl.name.text().bytes(), world.len(list as u32), out)?;
    }
    Ok(())
}

// The line of a list of this name and length.
fn write_length(name: &[u8], len: usize, out: &mut Bytes) -> Result<(), Memory>
    ensures { OnOk result (out.new ≡ out.old ++ length_line name.now len) }
{
    out.push_all(b"length ")?;
    out.push_all(name)?;
    out.push_all(b" ")?;
    add_number(len as u64, out)?;
    out.push_all(b"\n")
}
