//! The summary of the large plan of a size.

ghost use Rattle.std.specs.Prelude.{◌≡◌, ◌<◌, ◌≤◌, [], ℕ, length, replicate, IfOk, OnOk};
ghost use Rattle.spec_reports.specs.Plan.{sections_of};
ghost use Rattle.spec_reports.specs.Run.{left_to};
ghost use Rattle.spec_reports.specs.Big.{big_plan as plan_of_size, big_summary};
ghost use Rattle.spec_reports.specs.Answer.{reported};
ghost use Rattle.gl_world.specs.History.{with_entry};
ghost use Rattle.gl_app.specs.Answer.{IsOf};

use crate::answer::Answer;
use gl_big::big_plan;
use gl_outside::Actor;
use gl_report::summary;
use gl_syntax::Steps;
use gl_world::{BuildFault, Next, RunName, World};
use std::alloc::{AllocError, Global};
use std::marker::Brand;
use std::sync::ledger::{Blank, Ledger};

/// The summary of the large plan of a size, all of whose sections are taken in their order.
pub fn answer_big<N: RunName>(alloc: Global, size: u32) -> Result<Answer, AllocError>
    requires { size ≤ 10000 }
    ensures { IfOk result (λ a. IsOf a (reported (big_summary size))) }
{
    let plan = big_plan(alloc, size)?;
    match World::<N>::open(alloc, &plan) {
        Ok(mut world) => answer_summary(alloc, &mut world, size),
        Err(BuildFault::TooLong { .. }) => unreachable!(),
        Err(BuildFault::Memory) => Err(AllocError),
    }
}

fn answer_summary<N: RunName>(
    alloc: Global,
    world: &mut World<N>,
    size: u32,
) -> Result<Answer, AllocError>
    requires plan { world.old.plan ≡ plan_of_size size }
    requires open { world.old.order ≡ [] }
    ensures { IfOk result (λ a. IsOf a (reported (big_summary size))) }
{
    take_sections(world)?;
    Ok(Answer::Reported(summary(alloc, world)?))
}

/// Takes all sections of the first writer, in a world that has no entry yet.
fn take_sections<N: RunName>(world: &mut World<N>) -> Result<(), AllocError>
    requires writer { 0 < length world.old.plan.writers }
    requires open { world.old.order ≡ [] }
    ensures { OnOk result
        (world.new
        ≡ record {
          plan = world.old.plan;
          order = replicate (length (sections_of world.old.plan 0)) (Actor.Writer 0);
        }) }
{
    take_counted::<N, Brand>(world, Blank::new(1))
}

// The steps of its comparisons are counted in a ledger of its own, and nothing is said of their number.
fn take_counted<N: RunName, L: Ledger>(world: &mut World<N>, blank: Blank) -> Result<(), AllocError>
    requires name { blank.name ≡ L.name }
    requires parts { blank.parts ≡ L.parts }
    requires some { 0 < blank.parts }
    requires writer { 0 < length world.old.plan.writers }
    requires open { world.old.order ≡ [] }
    ensures { OnOk result
        (world.new
        ≡ record {
          plan = world.old.plan;
          order = replicate (length (sections_of world.old.plan 0)) (Actor.Writer 0);
        }) }
{
    let mut steps: Steps<L> = Steps::new(blank);
    let count = world.left(0);
    'sections: for _ in 0..count {
        take_section(world, &mut steps)?;
    }
    Ok(())
}

// Takes a section of the first writer, of which one is left.
fn take_section<N: RunName, L: Ledger>(
    world: &mut World<N>,
    steps: &mut Steps<L>,
) -> Result<(), AllocError>
    requires writer { 0 < length world.old.plan.writers }
    requires left { 0 < left_to world.old.plan 0 world.old.order }
    ensures { OnOk result (world.new ≡ with_entry world.old (Actor.Writer 0)) }
{
    match world.section(0, steps)? {
        Next::Some(_) => Ok(()),
        Next::None(_) => unreachable!(),
    }
}
