//! Logs of edits: played, and taken back.

ghost use Rattle.std.specs.Prelude.{◌≡◌, ◌+◌, ◌≤◌, [], length, vec_len, vec_capacity, IfOk, OnOk, OnErr};
ghost use Rattle.gl_kernel.specs.Edits.{edited, played, insertions, AreWithin, Fits, CanMake, CanPlay};

use crate::editable::Editable;
use crate::log_step::LogStep;
use std::alloc::{AllocError, Global};

// Makes one edit, and answers the one that takes it back.
fn made<E: Editable>(list: &mut E, edit: LogStep<E::Item>) -> LogStep<E::Item>
    requires fits { Fits E.need (E.room list.old) (E.items list.old) }
    requires can { CanMake E.need (E.room list.old) edit (E.items list.old) }
    ensures items { E.items list.new ≡ edited edit (E.items list.old) }
    ensures back { edited result (E.items list.new) ≡ E.items list.old }
    ensures can_go_back { CanMake E.need (E.room list.new) result (E.items list.new) }
    ensures room { E.room list.old ≤ E.room list.new }
{
    match edit {
        LogStep::Insert(at, item) => {
            list.insert(at, item);
            LogStep::Remove(at)
        }
        LogStep::Remove(at) => {
            let old = list.remove(at);
            LogStep::Insert(at, old)
        }
        LogStep::Set(at, item) => {
            let old = list.replace(at, item);
            LogStep::Set(at, old)
        }
    }
}

/// Makes all edits of a log, the last one first, and answers the log that takes them back. It takes memory for that log and
/// for what the list grows by; where there is none, the list is as it was.
pub fn apply<E: Editable>(
    alloc: Global,
    list: &mut E,
    log: Vec<LogStep<E::Item>>,
) -> Result<Vec<LogStep<E::Item>>, AllocError>
    requires within { AreWithin log.items (E.items list.old) }
    requires few { length (E.items list.old) + insertions log.items ≤ 4294967294 }
    ensures ok { OnOk result (E.items list.new ≡ played log.items (E.items list.old)) }
    ensures err { OnErr result (E.items list.new ≡ E.items list.old) }
    ensures back { IfOk result (λ back. played back.items (E.items list.new) ≡ E.items list.old) }
    ensures can_go_back { IfOk result
        (λ back. CanPlay E.need (E.room list.new) back.items (E.items list.new)) }
    ensures room { E.room list.old ≤ E.room list.new }
{
    let back = Vec::with_capacity(alloc, log.len())?;
    list.reserve(log.len())?;
    Ok(play(list, log, back))
}

// The same, with the log that goes back in the room of `back`.
fn play<E: Editable>(
    list: &mut E,
    mut log: Vec<LogStep<E::Item>>,
    mut back: Vec<LogStep<E::Item>>,
) -> Vec<LogStep<E::Item>>
    requires can { CanPlay E.need (E.room list.old) log.items (E.items list.old) }
    requires empty { back.items ≡ [] }
    requires room { vec_len log ≤ vec_capacity back }
    ensures items { E.items list.new ≡ played log.items (E.items list.old) }
    ensures back { played result.items (E.items list.new) ≡ E.items list.old }
    ensures can_go_back { CanPlay E.need (E.room list.new) result.items (E.items list.new) }
    ensures room { E.room list.old ≤ E.room list.new }
{
    'edits: while let Some(edit) = log.pop() {
        back.push_reserved(made(list, edit));
    }
    back
}

/// Makes all edits of a log, the last one first, and gives it up.
pub fn take_back<E: Editable>(list: &mut E, mut log: Vec<LogStep<E::Item>>)
    requires { CanPlay E.need (E.room list.old) log.items (E.items list.old) }
    ensures items { E.items list.new ≡ played log.items (E.items list.old) }
    ensures room { E.room list.old ≤ E.room list.new }
{
    'edits: while let Some(edit) = log.pop() {
        discard(made(list, edit));
    }
}

fn discard<T: Drop>(_edit: LogStep<T>) {}
