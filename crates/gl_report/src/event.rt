//! Events and tellings.

ghost use Rattle.std.specs.Prelude.{◌≡◌, ◌++◌, OnOk, OnErr, codes, decimal};
ghost use Rattle.spec_reports.specs.ValueText.{spelled_value};
ghost use Rattle.spec_reports.specs.Event.{change_text, event_text};
ghost use Rattle.gl_event.specs.Changes.{change_ref};
ghost use Rattle.gl_report.specs.Told.{separator};

use gl_event::{Change, Event};
use gl_syntax::{add_number, add_value};
use gl_value::{Bytes, Memory, Value};
use std::alloc::Global;

/// Adds the text of an event: its changes, semicolons between them; where memory runs out the bytes are as before. It
/// takes memory for the text beside them while it writes, and costs the same however many elements are kept.
pub fn event_text(alloc: Global, event: &Event, out: &mut Bytes) -> Result<(), Memory>
    ensures ok { OnOk result (out.new ≡ out.old ++ event_text event.now.pieces) }
    ensures err { OnErr result (out.new ≡ out.old) }
{
    let mut text = Bytes::new(alloc);
    add_event(event, &mut text)?;
    out.push_all(text.as_slice())
}

/// Adds the same text. Where memory runs out part of it may be added.
pub(crate) fn add_event(event: &Event, out: &mut Bytes) -> Result<(), Memory>
    ensures { OnOk result (out.new ≡ out.old ++ event_text event.now.pieces) }
{
    let mut walk = event.walk();
    let mut first = true;
    while let Some(change) = walk.next() {
        write_separator(first, out)?;
        write_change(&change, out)?;
        first = false;
    }
    Ok(())
}

fn write_separator(first: bool, out: &mut Bytes) -> Result<(), Memory>
    ensures { OnOk result (out.new ≡ out.old ++ separator first) }
{
    if first {
        return Ok(());
    }
    out.push_all(b"; ")
}

fn write_change(change: &Change<'_>, out: &mut Bytes) -> Result<(), Memory>
    ensures { OnOk result (out.new ≡ out.old ++ change_text (change_ref change.now)) }
{
    match *change {
        Change::Delete { at, old } => {
            out.push_all(b"delete ")?;
            write_at(at, old, out)
        }
        Change::Insert { at, new } => {
            out.push_all(b"insert ")?;
            write_at(at, new, out)
        }
        Change::Update { at, old, new } => {
            out.push_all(b"update ")?;
            write_at(at, old, out)?;
            out.push_all(b" ")?;
            add_value(new, out)
        }
    }
}

// An index and a value.
fn write_at(at: usize, value: &Value, out: &mut Bytes) -> Result<(), Memory>
    ensures { OnOk result
        (out.new ≡ out.old ++ decimal at ++ codes " " ++ spelled_value value.now) }
{
    add_number(at as u64, out)?;
    out.push_all(b" ")?;
    add_value(value, out)
}
