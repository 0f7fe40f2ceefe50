//! What each entry was answered and told.

ghost use Rattle.std.specs.Prelude.{◌≡◌, ◌≤◌, ◌++◌, drop, length, IfOk, OnOk};
ghost use Rattle.spec_reports.specs.Run.{run};
ghost use Rattle.spec_reports.specs.Report.{listener_name, refused_lines, told_lines, told_first, told_later, entry_lines};
ghost use Rattle.gl_world.specs.Told.{telling_data, tellings_of};
ghost use Rattle.gl_report.specs.Lines.{spelled_entry, told_line};

use crate::event::add_event;
use crate::order::write_actor;
use crate::replies::write_replies;
use gl_lines::{ListDecl, ListenerDecl};
use gl_syntax::add_number;
use gl_value::{Bytes, Memory};
use gl_world::{Actor, Reply, RunName, Telling, World};

/// Adds each entry of a world with its replies and its tellings.
pub fn write_entries<N: RunName>(world: &World<N>, out: &mut Bytes) -> Result<(), Memory>
    ensures { OnOk result
        (out.new ≡ out.old
        ++ entry_lines world.now.plan 0 world.now.order (run world.now.plan world.now.order).replies
        (run world.now.plan world.now.order).told) }
{
    let plan = world.plan();
    let order = world.order();
    let mut told = world.told();
    for (place, actor) in order.iter().enumerate() {
        let replies = world.replies(place as u64);
        write_entry(plan.lists(), place as u64, *actor, replies, out)?;
        let count = write_told(plan.listeners(), place as u64, told, out)?;
        told = rest(told, count);
    }
    Ok(())
}

// The tellings after so many.
#[tactic(auto, using(crate::proofs::Lines::take_rest))]
fn rest(told: &[Telling], count: usize) -> &[Telling]
    requires { count ≤ length told.now }
    ensures { result.now ≡ drop count told.now }
{
    &told[count..]
}

// The tellings of the entry at a place, which come first. Their number is answered.
fn write_told(
    listeners: &[ListenerDecl],
    place: u64,
    told: &[Telling],
    out: &mut Bytes,
) -> Result<usize, Memory>
    ensures text { OnOk result
        (out.new ≡ out.old ++ told_lines listeners.now (told_first place (tellings_of told.now))) }
    ensures within { IfOk result (λ count. count ≤ length told.now) }
    ensures left { IfOk result
        (λ count. tellings_of (drop count told.now) ≡ told_later place (tellings_of told.now)) }
{
    for (count, telling) in told.iter().enumerate() {
        if telling.place != place {
            return Ok(count);
        }
        write_telling(listeners, telling, out)?;
    }
    Ok(told.len())
}

fn write_telling(
    listeners: &[ListenerDecl],
    telling: &Telling,
    out: &mut Bytes,
) -> Result<(), Memory>
    ensures { OnOk result
        (out.new ≡ out.old ++ told_line listeners.now (telling_data telling.now)) }
{
    out.push_all(b"told ")?;
    write_name(listeners, telling.listener, out)?;
    out.push_all(b" ")?;
    add_event(&telling.event, out)?;
    out.push_all(b"\n")?;
    write_refused(listeners, telling.listener, telling.write_backs, out)
}

// A line for each of so many write-backs of a listener that were refused.
fn write_refused(
    listeners: &[ListenerDecl],
    listener: u32,
    count: u32,
    out: &mut Bytes,
) -> Result<(), Memory>
    ensures { OnOk result
        (out.new ≡ out.old ++ refused_lines (listener_name listeners.now listener) count) }
{
    'refused: for _ in 0..count {
        write_one_refused(listeners, listener, out)?;
    }
    Ok(())
}

fn write_one_refused(
    listeners: &[ListenerDecl],
    listener: u32,
    out: &mut Bytes,
) -> Result<(), Memory>
    ensures { OnOk result
        (out.new ≡ out.old ++ refused_lines (listener_name listeners.now listener) 1) }
{
    out.push_all(b"refused ")?;
    write_name(listeners, listener, out)?;
    out.push_all(b" write-back\n")
}

fn write_name(listeners: &[ListenerDecl], listener: u32, out: &mut Bytes) -> Result<(), Memory>
    ensures { OnOk result (out.new ≡ out.old ++ listener_name listeners.now listener) }
{
    match listeners.get(listener as usize) {
        Some(decl) => out.push_all(decl.name.text().bytes()),
        None => Ok(()),
    }
}

fn write_entry(
    lists: &[ListDecl],
    place: u64,
    actor: Actor,
    replies: &[Reply],
    out: &mut Bytes,
) -> Result<(), Memory>
    ensures { OnOk result (out.new ≡ out.old ++ spelled_entry lists.now place actor replies.now) }
{
    out.push_all(b"at ")?;
    add_number(place, out)?;
    out.push_all(b" ")?;
    write_actor(actor, out)?;
    out.push_all(b"\n")?;
    write_replies(lists, replies, out)
}
