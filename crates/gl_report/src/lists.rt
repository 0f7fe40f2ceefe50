//! What the lists of a world show.

ghost use Rattle.std.specs.Prelude.{◌≡◌, ◌<◌, ◌++◌, length, OnOk};
ghost use Rattle.spec_reports.specs.Shown.{table_of};
ghost use Rattle.spec_reports.specs.Run.{run, shown_after};
ghost use Rattle.spec_reports.specs.ValueText.{spelled_list};
ghost use Rattle.spec_reports.specs.Report.{list_lines};
ghost use Rattle.gl_report.specs.Lines.{list_line};

use crate::held::write_held;
use gl_syntax::{add_comma, add_value};
use gl_value::{Bytes, Memory};
use gl_world::{RunName, World};

/// Adds a line for each list of a world, in number order, and after it how the list is held.
pub fn write_lists<N: RunName>(world: &World<N>, out: &mut Bytes) -> Result<(), Memory>
    ensures { OnOk result
        (out.new ≡ out.old
        ++ list_lines world.now.plan.lists (table_of (run world.now.plan world.now.order).state)
        (run world.now.plan world.now.order).state) }
{
    let plan = world.plan();
    let lists = plan.lists();
    for (list, decl) in lists.iter().enumerate() {
        let name = decl.name.text().bytes();
        write_list(world, list as u32, name, out)?;
        write_held(world.hold(list as u32), name, out)?;
    }
    Ok(())
}

// The line of a list, which has this name.
fn write_list<N: RunName>(
    world: &World<N>,
    list: u32,
    name: &[u8],
    out: &mut Bytes,
) -> Result<(), Memory>
    requires { list < length world.now.plan.lists }
    ensures { OnOk result
        (out.new ≡ out.old ++ list_line name.now (shown_after world.now.plan world.now.order list)) }
{
    out.push_all(b"list ")?;
    out.push_all(name)?;
    out.push_all(b" ")?;
    write_shown(world, list, out)?;
    out.push_all(b"\n")?;
    Ok(())
}

// What a list shows, as a list value.
fn write_shown<N: RunName>(world: &World<N>, list: u32, out: &mut Bytes) -> Result<(), Memory>
    requires { list < length world.now.plan.lists }
    ensures { OnOk result
        (out.new ≡ out.old ++ spelled_list (shown_after world.now.plan world.now.order list)) }
{
    out.push_all(b"[")?;
    for place in 0..world.len(list) {
        let value = world.shown(list, place).unwrap();
        add_comma(place, out)?;
        add_value(value, out)?;
    }
    out.push_all(b"]")
}
