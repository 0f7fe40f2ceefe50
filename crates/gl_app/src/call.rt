//! The call that does a run without threads.

ghost use Rattle.std.specs.Prelude.{◌≡◌, ◌+◌, ◌⊎◌, ℕ, List, length};
ghost use Rattle.std.specs.Io.KnownBytes.{Appends};
ghost use Rattle.gl_outside.specs.declared.gate.Actor.{Actor};
ghost use Rattle.gl_outside.specs.Faults.{Rose};
ghost use Rattle.spec_reports.specs.Order.{AsksReplay};
ghost use Rattle.spec_reports.specs.Words.{Asks, HaveNoForm, check, big};
ghost use Rattle.spec_reports.specs.Big.{big_summary};
ghost use Rattle.gl_app.specs.Answer.{text_at};
ghost use Rattle.gl_app.specs.Call.{Answered, IsAnswer, ReportsRun, WritesPlan, AskForNoSize, HasRead, IsUsage, IsSummary, IsAhead, MostText, Gives};

use crate::answer::Answer;
use crate::outcome::{Stop, answer_words};
use crate::status::Status;
use gl_outside::{Given, Sink, Source};
use gl_syntax::Text;
use gl_world::RunName;
use std::alloc::Global;

struct Replay;

impl RunName for Replay {}

/// Does what the words ask for: it reads the source to its end, unless they ask for a summary, and gives the sink one text.
/// It takes memory for the bytes, their plan and, for a replay or a summary, its world, and for the text, which is made
/// whole before the sink is given anything.
pub fn plain<S: Source, K: Sink>(
    alloc: Global,
    words: &[Text],
    source: &mut S,
    sink: &mut K,
) -> Status

    // Where no count of faults rises, the words and the source's bytes fix the status and the text.
    ensures answer { ¬ Rose (S.faults source.old) (S.faults source.new)
        → ¬ Rose (K.faults sink.old) (K.faults sink.new)
        → (result ≡ Status.Memory)
        ⊎ Answered words.now (S.remaining source.old) (K.contents sink.old) (K.contents sink.new) result }
    ensures by_status { IsAnswer words.now (S.remaining source.old) (K.contents sink.old)
        (K.contents sink.new) result }
    ensures headline { (order : List Actor) → AsksReplay words.now order → result ≡ Status.Done
        → ReportsRun order (S.remaining source.old) (K.contents sink.old) (K.contents sink.new) }
    ensures written { Asks words.now check → result ≡ Status.Done
        → WritesPlan (S.remaining source.old) (K.contents sink.old) (K.contents sink.new) }
    ensures summary { (n : ℕ) → Asks words.now (big n) → result ≡ Status.Done
        → Appends (K.contents sink.old) (K.contents sink.new) (big_summary n) }

    // What was taken of the source.
    ensures reading { AskForNoSize words.now
        → HasRead (S.remaining source.old) (S.remaining source.new) result }
    ensures no_form { HaveNoForm words.now → IsUsage result × (source.new ≡ source.old) }
    ensures size { (n : ℕ) → Asks words.now (big n) → IsSummary result × (source.new ≡ source.old) }
    ensures usage { result ≡ Status.Usage → HaveNoForm words.now }

    // The faults.
    ensures read { result ≡ Status.Read → Rose (S.faults source.old) (S.faults source.new) }
    ensures write { result ≡ Status.Write → Rose (K.faults sink.old) (K.faults sink.new) }
    ensures untouched { IsAhead result → sink.new ≡ sink.old }
    ensures sound { S.never_fails source.old → S.faults source.new ≡ S.faults source.old }
    ensures room { (n : ℕ) → MostText words.now (S.remaining source.old) n → K.has_room sink.old n
        → K.faults sink.new ≡ K.faults sink.old }
{
    match answer_words::<Replay, S>(alloc, words, source) {
        Ok(answer) => give(sink, &answer),
        Err(Stop::Read) => Status::Read,
        Err(Stop::Memory) => Status::Memory,
    }
}

// Gives the sink the text of an answer.
fn give<K: Sink>(sink: &mut K, answer: &Answer) -> Status
    ensures given { Gives (K.contents sink.old) (K.contents sink.new) answer.now result }
    ensures write { result ≡ Status.Write → Rose (K.faults sink.old) (K.faults sink.new) }
    ensures room { (n : ℕ) → K.has_room sink.old (length (text_at answer.now) + n)
        → K.faults sink.new ≡ K.faults sink.old }
{
    match sink.give(answer.text()) {
        Given::All => answer.status(),
        Given::Failed => Status::Write,
    }
}
