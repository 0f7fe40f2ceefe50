//! How much each listener was told.

ghost use Rattle.std.specs.Prelude.{◌≡◌, ◌++◌, ◌∷◌, [], length, OnOk};
ghost use Rattle.spec_reports.specs.Laws.{told_to};
ghost use Rattle.spec_reports.specs.Run.{run};
ghost use Rattle.spec_reports.specs.Summary.{changes_in, told_counts};
ghost use Rattle.gl_world.specs.Told.{telling_data, tellings_of};
ghost use Rattle.gl_report.specs.Counts.{count_line};

use crate::replies::add_length;
use gl_syntax::add_number;
use gl_value::{Bytes, Memory};
use gl_world::{RunName, Telling, World};

/// Adds a line for each listener of a world, in number order.
pub fn write_counts<N: RunName>(world: &World<N>, out: &mut Bytes) -> Result<(), Memory>
    ensures { OnOk result
        (out.new ≡ out.old
        ++ told_counts 0 world.now.plan.listeners (run world.now.plan world.now.order).told) }
{
    let plan = world.plan();
    let listeners = plan.listeners();
    let told = world.told();
    for (listener, decl) in listeners.iter().enumerate() {
        write_count(listener as u32, decl.name.text().bytes(), told, out)?;
    }
    Ok(())
}

// The line of a listener, which has this name.
fn write_count(listener: u32, name: &[u8], told: &[Telling], out: &mut Bytes) -> Result<(), Memory>
    ensures { OnOk result (out.new ≡ out.old ++ count_line listener name.now (tellings_of told.now)) }
{
    out.push_all(b"told ")?;
    out.push_all(name)?;
    out.push_all(b" ")?;
    add_number(tellings(listener, told) as u64, out)?;
    out.push_all(b" ")?;
    add_length(changes(listener, told), out)?;
    out.push_all(b"\n")
}

// How many of the tellings are a listener's.
fn tellings(listener: u32, told: &[Telling]) -> usize
    ensures { result ≡ length (told_to listener (tellings_of told.now)) }
{
    let mut count = 0;
    for telling in told {
        count += one_telling(listener, telling);
    }
    count
}

// 1 where the telling is the listener's, or else 0.
fn one_telling(listener: u32, telling: &Telling) -> usize
    ensures { result ≡ length (told_to listener (telling_data telling.now ∷ [])) }
{
    if telling.listener == listener { 1 } else { 0 }
}

// How many changes a listener was told.
fn changes(listener: u32, told: &[Telling]) -> u128
    ensures { result ≡ changes_in (told_to listener (tellings_of told.now)) }
{
    let mut changes = 0;
    for telling in told {
        changes += told_changes(listener, telling) as u128;
    }
    changes
}

// How many changes a telling has for the listener: none where it is another's.
fn told_changes(listener: u32, telling: &Telling) -> usize
    ensures { result ≡ changes_in (told_to listener (telling_data telling.now ∷ [])) }
{
    if telling.listener == listener {
        telling.event.len()
    } else {
        0
    }
}
