//! The entries of an order, taken one after another.

ghost use Rattle.std.specs.Prelude.{◌≡◌, ◌<◌, [], IfOk, IfNone, option_map};
ghost use Rattle.spec_reports.specs.Fits.{reason_at, first_bad_place};
ghost use Rattle.gl_world.specs.History.{with_entry};
ghost use Rattle.gl_app.specs.BadPlace.{reason_of, bad_place_of};

use gl_outside::Actor;
use gl_syntax::Steps;
use gl_world::{Next, Pumped, RunName, World};
use std::alloc::AllocError;
use std::marker::Brand;
use std::sync::ledger::{Blank, Ledger};

/// Why an actor can't take the next entry.
#[derive(Clone, Copy, Debug, PartialEq, Eq)]
pub enum Reason {
    /// The plan has no such writer.
    NoWriter,
    /// The writer has no section left.
    NoSection,
    /// The plan has no such proxy.
    NoProxy,
    /// The proxy has nothing to take.
    EmptyQueue,
}

/// A place of an order, counted from 0, at which the actor can't take its entry.
#[derive(Clone, Copy, Debug, PartialEq, Eq)]
pub struct BadPlace {
    pub place: u64,
    pub reason: Reason,
}

/// Takes the entries of an order in a world that has none yet. It stops at the first bad place, and answers that.
pub fn replay<N: RunName>(
    world: &mut World<N>,
    order: &[Actor],
) -> Result<Option<BadPlace>, AllocError>
    requires { world.old.order ≡ [] }
    ensures bad { IfOk result
        (λ bad. option_map bad_place_of bad ≡ first_bad_place world.old.plan order.now) }
    ensures whole { IfOk result
        (λ bad. IfNone bad (world.new ≡ record { plan = world.old.plan; order = order.now })) }
{
    replay_counted::<N, Brand>(world, order, Blank::new(1))
}

// The steps of its comparisons are counted in a ledger of its own, and nothing is said of their number.
fn replay_counted<N: RunName, L: Ledger>(
    world: &mut World<N>,
    order: &[Actor],
    blank: Blank,
) -> Result<Option<BadPlace>, AllocError>
    requires name { blank.name ≡ L.name }
    requires parts { blank.parts ≡ L.parts }
    requires some { 0 < blank.parts }
    requires open { world.old.order ≡ [] }
    ensures bad { IfOk result
        (λ bad. option_map bad_place_of bad ≡ first_bad_place world.old.plan order.now) }
    ensures whole { IfOk result
        (λ bad. IfNone bad (world.new ≡ record { plan = world.old.plan; order = order.now })) }
{
    let mut steps: Steps<L> = Steps::new(blank);
    for (place, actor) in order.iter().enumerate() {
        if let Some(reason) = take_entry(world, *actor, &mut steps)? {
            return Ok(Some(BadPlace {
                place: place as u64,
                reason,
            }));
        }
    }
    Ok(None)
}

// Takes the actor's next entry, or says why it can't be taken.
fn take_entry<N: RunName, L: Ledger>(
    world: &mut World<N>,
    actor: Actor,
    steps: &mut Steps<L>,
) -> Result<Option<Reason>, AllocError>
    ensures reason { IfOk result
        (λ r. option_map reason_of r ≡ reason_at world.old.plan world.old.order actor) }
    ensures entry { IfOk result (λ r. IfNone r (world.new ≡ with_entry world.old actor)) }
{
    match actor {
        Actor::Writer(writer) => take_section(world, writer, steps),
        Actor::Proxy(proxy) => take_pump(world, proxy, steps),
    }
}

fn take_section<N: RunName, L: Ledger>(
    world: &mut World<N>,
    writer: u32,
    steps: &mut Steps<L>,
) -> Result<Option<Reason>, AllocError>
    ensures reason { IfOk result (λ r. option_map reason_of r
        ≡ reason_at world.old.plan world.old.order (Actor.Writer writer)) }
    ensures entry { IfOk result
        (λ r. IfNone r (world.new ≡ with_entry world.old (Actor.Writer writer))) }
{
    if writer >= world.plan().writers() {
        return Ok(Some(Reason::NoWriter));
    }
    match world.section(writer, steps)? {
        Next::Some(_) => Ok(None),
        Next::None(_) => Ok(Some(Reason::NoSection)),
    }
}

#[tactic(auto, using(crate::proofs::Pumps::no_proxy_at, crate::proofs::Pumps::empty_at, crate::proofs::Pumps::pump_at))]
fn take_pump<N: RunName, L: Ledger>(
    world: &mut World<N>,
    proxy: u32,
    steps: &mut Steps<L>,
) -> Result<Option<Reason>, AllocError>
    ensures reason { IfOk result (λ r. option_map reason_of r
        ≡ reason_at world.old.plan world.old.order (Actor.Proxy proxy)) }
    ensures entry { IfOk result
        (λ r. IfNone r (world.new ≡ with_entry world.old (Actor.Proxy proxy))) }
{
    if proxy as usize >= world.plan().proxies().len() {
        return Ok(Some(Reason::NoProxy));
    }
    match world.pump(proxy, steps)? {
        Pumped::Done(_) => Ok(None),
        Pumped::Nothing(_) => Ok(Some(Reason::EmptyQueue)),
    }
}
