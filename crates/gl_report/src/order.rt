//! The order of a world's entries.

ghost use Rattle.std.specs.Prelude.{◌≡◌, ◌++◌, OnOk};
ghost use Rattle.spec_reports.specs.Order.{spelled_actor, spelled_rest, spelled_order};

use gl_outside::Actor;
use gl_syntax::add_number;
use gl_value::{Bytes, Memory};

/// Adds an order as it is spelled in the words of a call.
pub fn write_order(order: &[Actor], out: &mut Bytes) -> Result<(), Memory>
    ensures { OnOk result (out.new ≡ out.old ++ spelled_order order.now) }
{
    match order.split_first() {
        None => out.push_all(b"-"),
        Some((first, others)) => {
            write_actor(*first, out)?;
            write_others(others, out)
        }
    }
}

// The actors after the first one.
fn write_others(others: &[Actor], out: &mut Bytes) -> Result<(), Memory>
    ensures { OnOk result (out.new ≡ out.old ++ spelled_rest others.now) }
{
    for actor in others {
        out.push_all(b",")?;
        write_actor(*actor, out)?;
    }
    Ok(())
}

/// Adds one actor.
pub fn write_actor(actor: Actor, out: &mut Bytes) -> Result<(), Memory>
    ensures { OnOk result (out.new ≡ out.old ++ spelled_actor actor) }
{
    match actor {
        Actor::Writer(writer) => {
            out.push_all(b"w")?;
            add_number(u64::from(writer), out)
        }
        Actor::Proxy(proxy) => {
            out.push_all(b"p")?;
            add_number(u64::from(proxy), out)
        }
    }
}
