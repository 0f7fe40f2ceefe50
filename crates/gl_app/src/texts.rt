//! The texts of what a call may come to.

ghost use Rattle.std.specs.Prelude.{◌≡◌, IfOk};
ghost use Rattle.spec_reports.specs.Answer.{faulty, circular, too_long, misfit, text_of_outcome, reason_text, kind_text};
ghost use Rattle.spec_reports.specs.Report.{list_name};
ghost use Rattle.gl_text.specs.Spelled.{fault_at};
ghost use Rattle.gl_app.specs.BadPlace.{reason_of, bad_place_of};

use crate::replaying::{BadPlace, Reason};
use gl_plan::{ListDecl, PlanKind};
use gl_syntax::{Bytes, Name};
use itoa::Buffer;
use std::alloc::{AllocError, Global};

/// The text for the first fault of a plan's text, by its line and its column.
pub fn fault_text(
    alloc: Global,
    line: u64,
    column: u64,
    kind: PlanKind,
) -> Result<Bytes, AllocError>
    ensures { IfOk result (λ text. text ≡ text_of_outcome (faulty (fault_at line column kind))) }
{
    let mut buffer = Buffer::new();
    let mut text = Bytes::new(alloc);
    text.push_all(b"plan: line ")?;
    text.push_all(buffer.format(line).as_bytes())?;
    text.push_all(b" column ")?;
    text.push_all(buffer.format(column).as_bytes())?;
    text.push_all(b": ")?;
    text.push_all(kind_name(kind))?;
    text.push_all(b"\n")?;
    Ok(text)
}

fn kind_name(kind: PlanKind) -> &'static [u8]
    ensures { result.now ≡ kind_text kind }
{
    match kind {
        PlanKind::Utf8 => b"utf8",
        PlanKind::Header => b"header",
        PlanKind::LongLine => b"long-line",
        PlanKind::Form => b"form",
        PlanKind::Place => b"place",
        PlanKind::Block => b"block",
        PlanKind::Many => b"many",
        PlanKind::Taken => b"taken",
        PlanKind::Unknown => b"unknown",
        PlanKind::Kind => b"kind",
        PlanKind::Member => b"member",
        PlanKind::Second => b"second",
        PlanKind::OverProxy => b"over-proxy",
    }
}

/// The text for the names of a cycle.
pub fn cycle_text(alloc: Global, names: &[Name]) -> Result<Bytes, AllocError>
    ensures { IfOk result (λ text. text ≡ text_of_outcome (circular names.now)) }
{
    let mut text = Bytes::new(alloc);
    text.push_all(b"plan: cycle")?;
    for name in names {
        text.push_all(b" ")?;
        text.push_all(name.text().bytes())?;
    }
    text.push_all(b"\n")?;
    Ok(text)
}

/// The text for a list that would open with so many elements, which are too many.
pub fn too_long_text(
    alloc: Global,
    lists: &[ListDecl],
    list: u32,
    len: u128,
) -> Result<Bytes, AllocError>
    ensures { IfOk result
        (λ text. text ≡ text_of_outcome (too_long (list_name lists.now list) len)) }
{
    let mut buffer = Buffer::new();
    let mut text = Bytes::new(alloc);
    text.push_all(b"too-long ")?;
    text.push_all(name_of(lists, list))?;
    text.push_all(b" ")?;
    text.push_all(buffer.format(len).as_bytes())?;
    text.push_all(b"\n")?;
    Ok(text)
}

// The name of a list; no bytes past the last.
fn name_of(lists: &[ListDecl], list: u32) -> &[u8]
    ensures { result.now ≡ list_name lists.now list }
{
    match lists.get(list as usize) {
        Some(decl) => decl.name.text().bytes(),
        None => b"",
    }
}

/// The text for a bad place of an order.
pub fn misfit_text(alloc: Global, bad: BadPlace) -> Result<Bytes, AllocError>
    ensures { IfOk result (λ text. text ≡ text_of_outcome (misfit (bad_place_of bad))) }
{
    let mut buffer = Buffer::new();
    let mut text = Bytes::new(alloc);
    text.push_all(b"order: place ")?;
    text.push_all(buffer.format(bad.place).as_bytes())?;
    text.push_all(b": ")?;
    text.push_all(reason_name(bad.reason))?;
    text.push_all(b"\n")?;
    Ok(text)
}

fn reason_name(reason: Reason) -> &'static [u8]
    ensures { result.now ≡ reason_text (reason_of reason) }
{
    match reason {
        Reason::NoWriter => b"no-writer",
        Reason::NoSection => b"no-section",
        Reason::NoProxy => b"no-proxy",
        Reason::EmptyQueue => b"empty-queue",
    }
}
