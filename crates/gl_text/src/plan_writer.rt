//! Whole plans.

ghost use Rattle.std.specs.Prelude.{◌≡◌, ◌<◌, ◌++◌, ℕ, List, codes, flat_map, length, OnOk, OnErr};
ghost use Rattle.gl_lines.specs.declared.line.Line.TheVariants as line;
ghost use Rattle.spec_plan_texts.specs.Plan.{sections_of};
ghost use Rattle.spec_plan_texts.specs.Canonical.{ended, spelled_plan};
ghost use Rattle.spec_plan_texts.specs.PlanNames.{names_of_lists};
ghost use Rattle.spec_plan_texts.specs.Text.{SpellsPlan};
ghost use Rattle.spec_plan_texts.specs.Short.{HasShortLines};
ghost use Rattle.gl_text.specs.Texts.{prefix_text, writer_text, section_text};

use crate::command::add_section;
use crate::list::add_lists;
use crate::listener::add_listeners;
use gl_line_writer::add_limit;
use gl_lines::{ListDecl, ListenerDecl};
use gl_plan::Plan;
use gl_syntax::{Bytes, Memory};
use std::alloc::Global;

/// Adds the one text of the plan; where memory runs out the bytes are as before. It takes memory for the text beside
/// them while it writes, and time in proportion to the text. What is added of a plan that was read from any text reads
/// back as that plan, where each line of it is short enough to be read: an element of a block of records may have no
/// such line.
pub fn write_plan(alloc: Global, plan: &Plan, out: &mut Bytes) -> Result<(), Memory>
    ensures ok { OnOk result (out.new ≡ out.old ++ spelled_plan plan.now) }
    ensures back { (bytes : List ℕ) → SpellsPlan bytes plan.now → HasShortLines plan.now
        → SpellsPlan (spelled_plan plan.now) plan.now }
    ensures err { OnErr result (out.new ≡ out.old) }
{
    let mut text = Bytes::new(alloc);
    add_plan(plan, &mut text)?;
    out.push_all(text.as_slice())
}

fn add_plan(plan: &Plan, out: &mut Bytes) -> Result<(), Memory>
    ensures { OnOk result (out.new ≡ out.old ++ spelled_plan plan.now) }
{
    add_prefix(plan.limit(), plan.lists(), plan.listeners(), out)?;
    add_writers(plan, out)
}

// All that stands ahead of the writers.
fn add_prefix(
    limit: u64,
    lists: &[ListDecl],
    listeners: &[ListenerDecl],
    out: &mut Bytes,
) -> Result<(), Memory>
    ensures { OnOk result (out.new ≡ out.old ++ prefix_text limit lists.now listeners.now) }
{
    add_heading(limit, out)?;
    add_lists(lists, out)?;
    add_listeners(lists, listeners, out)
}

// The first line and that of the limit.
fn add_heading(limit: u64, out: &mut Bytes) -> Result<(), Memory>
    ensures { OnOk result (out.new ≡ out.old ++ (codes "glaze 1\n" ++ ended (line.Limit limit))) }
{
    out.push_all(b"glaze 1\n")?;
    add_limit(limit, out)?;
    out.push_all(b"\n")
}

fn add_writers(plan: &Plan, out: &mut Bytes) -> Result<(), Memory>
    ensures { OnOk result
        (out.new ≡ out.old ++ flat_map (writer_text (names_of_lists plan.now)) plan.now.writers) }
{
    'writers: for writer in 0..plan.writers() {
        add_writer(plan, writer, out)?;
    }
    Ok(())
}

fn add_writer(plan: &Plan, writer: u32, out: &mut Bytes) -> Result<(), Memory>
    requires { writer < length plan.now.writers }
    ensures { OnOk result
        (out.new ≡ out.old ++ writer_text (names_of_lists plan.now) (sections_of plan.now writer)) }
{
    out.push_all(b"writer\n")?;
    add_sections(plan, writer, out)
}

fn add_sections(plan: &Plan, writer: u32, out: &mut Bytes) -> Result<(), Memory>
    requires { writer < length plan.now.writers }
    ensures { OnOk result
        (out.new ≡ out.old ++ flat_map (section_text (names_of_lists plan.now)) (sections_of plan.now writer)) }
{
    'sections: for section in 0..plan.sections(writer) {
        add_section(plan.lists(), plan.commands(writer, section), out)?;
    }
    Ok(())
}
