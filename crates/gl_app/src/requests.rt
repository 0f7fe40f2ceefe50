//! What the requests for a plan come to.

ghost use Rattle.std.specs.Prelude.{◌≡◌, [], IfOk};
ghost use Rattle.spec_reports.specs.Fits.{first_bad_place};
ghost use Rattle.spec_reports.specs.Answer.{answer_of, replayed, taken};
ghost use Rattle.gl_app.specs.Answer.{IsOf, AnswersFault};
ghost use Rattle.gl_app.specs.Words.{request_of_plan};

use crate::answer::Answer;
use crate::replaying::replay;
use crate::texts::{cycle_text, fault_text, misfit_text, too_long_text};
use crate::words::PlanRequest;
use gl_outside::Actor;
use gl_report::report;
use gl_syntax::Bytes;
use gl_text::{Plan, PlanFault, write_plan};
use gl_world::{BuildFault, RunName, World};
use std::alloc::{AllocError, Global};

/// What a text that is no plan comes to.
pub fn answer_fault(alloc: Global, fault: &PlanFault) -> Result<Answer, AllocError>
    ensures { IfOk result (AnswersFault fault.now) }
{
    match fault {
        PlanFault::At { line, column, kind } => {
            Ok(Answer::Faulty(fault_text(alloc, *line, *column, *kind)?))
        }
        PlanFault::Cycle { names } => Ok(Answer::Circular(cycle_text(alloc, names.as_slice())?)),
        PlanFault::Memory => Err(AllocError),
    }
}

/// What a request for a plan comes to. Nothing is opened but for a replay.
pub fn answer_request<N: RunName>(
    alloc: Global,
    plan: &Plan,
    request: &PlanRequest,
) -> Result<Answer, AllocError>
    ensures { IfOk result (λ a. IsOf a (answer_of (request_of_plan request.now) [] plan.now)) }
{
    match request {
        PlanRequest::Check => {
            let mut text = Bytes::new(alloc);
            write_plan(alloc, plan, &mut text)?;
            Ok(Answer::Written(text))
        }
        PlanRequest::Replay(order) => answer_replay::<N>(alloc, plan, order.as_slice()),
    }
}

#[tactic(auto, using(crate::proofs::RequestOutcomes::opened_within, crate::proofs::RequestOutcomes::opened_long))]
fn answer_replay<N: RunName>(
    alloc: Global,
    plan: &Plan,
    order: &[Actor],
) -> Result<Answer, AllocError>
    ensures { IfOk result (λ a. IsOf a (replayed plan.now order.now)) }
{
    match World::<N>::open(alloc, plan) {
        Ok(mut world) => answer_world(alloc, &mut world, order),
        Err(BuildFault::TooLong { list, len }) => Ok(Answer::TooLong(too_long_text(
            alloc,
            plan.lists(),
            list,
            len,
        )?)),
        Err(BuildFault::Memory) => Err(AllocError),
    }
}

fn answer_world<N: RunName>(
    alloc: Global,
    world: &mut World<N>,
    order: &[Actor],
) -> Result<Answer, AllocError>
    requires { world.old.order ≡ [] }
    ensures { IfOk result
        (λ a. IsOf a (taken world.old.plan order.now (first_bad_place world.old.plan order.now))) }
{
    match replay(world, order)? {
        Some(bad) => Ok(Answer::Misfit(misfit_text(alloc, bad)?)),
        None => Ok(Answer::Reported(report(alloc, world)?)),
    }
}
