//! How a list is held.

ghost use Rattle.std.specs.Prelude.{◌≡◌, ◌++◌, OnOk, codes, decimal};
ghost use Rattle.spec_reports.specs.Report.{line_feed};
ghost use Rattle.gl_report.specs.Held.{hold_line};

use gl_syntax::add_number;
use gl_value::{Bytes, Memory};
use gl_world::Hold;

/// Adds the line of a list that is held, or of a proxy, which has this name; nothing of one that is free.
pub fn write_held(hold: Hold, name: &[u8], out: &mut Bytes) -> Result<(), Memory>
    ensures { OnOk result (out.new ≡ out.old ++ hold_line name.now hold) }
{
    match hold {
        Hold::Free => Ok(()),
        Hold::Frozen => write_frozen(name, out),
        Hold::Open(depth) => write_open(name, depth, out),
        Hold::Queued(count) => write_queued(name, count, out),
    }
}

fn write_frozen(name: &[u8], out: &mut Bytes) -> Result<(), Memory>
    ensures { OnOk result
        (out.new ≡ out.old ++ (codes "held " ++ name.now ++ codes " frozen" ++ line_feed)) }
{
    out.push_all(b"held ")?;
    out.push_all(name)?;
    out.push_all(b" frozen")?;
    out.push_all(b"\n")
}

// So many levels are open.
fn write_open(name: &[u8], depth: usize, out: &mut Bytes) -> Result<(), Memory>
    ensures { OnOk result
        (out.new ≡ out.old
        ++ (codes "held " ++ name.now ++ codes " open " ++ decimal depth ++ line_feed)) }
{
    out.push_all(b"held ")?;
    out.push_all(name)?;
    out.push_all(b" open ")?;
    add_number(depth as u64, out)?;
    out.push_all(b"\n")
}

// So many deltas are queued.
fn write_queued(name: &[u8], count: usize, out: &mut Bytes) -> Result<(), Memory>
    ensures { OnOk result
        (out.new ≡ out.old
        ++ (codes "held " ++ name.now ++ codes " queued " ++ decimal count ++ line_feed)) }
{
    out.push_all(b"held ")?;
    out.push_all(name)?;
    out.push_all(b" queued ")?;
    add_number(count as u64, out)?;
    out.push_all(b"\n")
}
