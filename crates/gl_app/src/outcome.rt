//! What a call comes to, from its words and its source.

ghost use Rattle.std.specs.Prelude.{◌≡◌, ◌≤◌, ℕ, length, IfOk, IsErrOf};
ghost use Rattle.gl_outside.specs.Faults.{Rose};
ghost use Rattle.spec_reports.specs.Words.{Asks, HaveNoForm, big};
ghost use Rattle.spec_reports.specs.Answer.{most_bytes};
ghost use Rattle.gl_app.specs.Answer.{AnswersBytes, status_at};
ghost use Rattle.gl_app.specs.Call.{AnswersRequest, AnswersWords, AskForNoSize, HasRead, status_after, IsUsage, IsSummary, IsAfterAll};
ghost use Rattle.gl_app.specs.Words.{request_of_plan};

use crate::answer::Answer;
use crate::big::answer_big;
use crate::form::have_form;
use crate::reading::{ReadAllFault, read_all};
use crate::requests::{answer_fault, answer_request};
use crate::words::{PlanRequest, Request, read_words};
use gl_outside::Source;
use gl_syntax::{Bytes, Text};
use gl_text::into_plan;
use gl_world::RunName;
use std::alloc::{AllocError, Global};

/// The most bytes that a plan may have.
const MOST_BYTES: usize = 67_108_864;

/// Why a call has no answer.
#[derive(Clone, Copy, Debug, PartialEq, Eq)]
pub enum Stop {
    /// The source failed.
    Read,
    Memory,
}

impl From<AllocError> for Stop {
    ghost use Rattle.gl_app.specs.declared.outcome.Stop.TheVariants.{Memory};

    ghost from_gives = { λ _ e. e ≡ Memory };

    fn from(_e: AllocError) -> Stop {
        Stop::Memory
    }
}

/// What the words and the source come to. The source is read where the words ask for something of its plan, and to its
/// end unless it has too many bytes or fails.
pub fn answer_words<N: RunName, S: Source>(
    alloc: Global,
    words: &[Text],
    source: &mut S,
) -> Result<Answer, Stop>
    ensures answer { IfOk result (AnswersWords words.now (S.remaining source.old)) }
    ensures reading { AskForNoSize words.now
        → HasRead (S.remaining source.old) (S.remaining source.new) (status_after result) }
    ensures no_form { HaveNoForm words.now
        → IsUsage (status_after result) × (source.new ≡ source.old) }
    ensures size { (n : ℕ) → Asks words.now (big n)
        → IsSummary (status_after result) × (source.new ≡ source.old) }
    ensures failed { IsErrOf result Stop.Read → Rose (S.faults source.old) (S.faults source.new) }
    ensures sound { S.never_fails source.old → S.faults source.new ≡ S.faults source.old }
{
    if !have_form(words) {
        return Ok(Answer::Usage);
    }
    match read_words(alloc, words)? {
        None => Ok(Answer::Usage),
        Some(Request::Big(size)) => Ok(answer_big::<N>(alloc, size)?),
        Some(Request::OfPlan(request)) => answer_source::<N, S>(alloc, &request, source),
    }
}

#[tactic(auto, using(crate::proofs::CallOutcomes::read_all_of))]
fn answer_source<N: RunName, S: Source>(
    alloc: Global,
    request: &PlanRequest,
    source: &mut S,
) -> Result<Answer, Stop>
    ensures answer { IfOk result
        (AnswersRequest (request_of_plan request.now) (S.remaining source.old)) }
    ensures reading { HasRead (S.remaining source.old) (S.remaining source.new)
        (status_after result) }
    ensures failed { IsErrOf result Stop.Read → Rose (S.faults source.old) (S.faults source.new) }
    ensures sound { S.never_fails source.old → S.faults source.new ≡ S.faults source.old }
{
    match read_all(alloc, source, MOST_BYTES) {
        Ok(bytes) => Ok(answer_bytes::<N>(alloc, bytes, request)?),
        Err(ReadAllFault::TooLarge) => Ok(Answer::TooLarge),
        Err(ReadAllFault::Failed) => Err(Stop::Read),
        Err(ReadAllFault::Memory) => Err(Stop::Memory),
    }
}

#[tactic(auto, using(crate::proofs::RequestOutcomes::plan_answer, crate::proofs::RequestOutcomes::fault_answer, crate::proofs::RequestOutcomes::after_request, crate::proofs::RequestOutcomes::later_fault))]
fn answer_bytes<N: RunName>(
    alloc: Global,
    bytes: Bytes,
    request: &PlanRequest,
) -> Result<Answer, AllocError>
    requires { length bytes ≤ most_bytes }
    ensures answer { IfOk result (AnswersBytes (request_of_plan request.now) bytes) }
    ensures status { IfOk result (λ a. IsAfterAll (status_at a)) }
{
    match into_plan(alloc, bytes) {
        Ok(plan) => answer_request::<N>(alloc, &plan, request),
        Err(fault) => answer_fault(alloc, &fault),
    }
}
