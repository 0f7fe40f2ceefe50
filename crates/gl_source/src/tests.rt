ghost use Rattle.std.specs.Prelude.{◌≤◌};
ghost use Rattle.spec_lists.specs.Piece.{new_len};
ghost use Rattle.spec_lists.specs.Leads.{LeadsFrom};

use crate::{Edit, EditFault, SourceList};
use gl_delta::Delta;
use gl_testing::{Told, is_number, numbers, tells};
use gl_value::{Shelf, Value};
use std::alloc::{AllocError, Global};
use std::process::Abort;
use std::test::Fail;

// An edit, its values numbers.
#[derive(Clone, Copy)]
enum Step {
    Append(&'static [i64]),
    Insert(u64, i64),
    Set(u64, i64),
    Remove(u64),
    Clear,
}

// What an edit answers: what it tells and the numbers that it leaves, or why it is refused.
#[derive(Clone, Copy)]
enum Answer {
    Done(&'static [Told], &'static [i64]),
    OutOfRange(u64, u64),
    TooLong(u128),
}

fn shows_at(source: &SourceList, position: usize, n: i64) -> bool {
    match source.get(position) {
        Some(v) => is_number(v, n),
        None => false,
    }
}

fn shows(source: &SourceList, shown: &[i64]) -> bool {
    for (position, n) in shown.iter().enumerate() {
        if !shows_at(source, position, *n) {
            return false;
        }
    }
    source.len() == shown.len() && source.get(shown.len()).is_none()
}

fn edit(alloc: Global, step: Step) -> Result<Edit, AllocError> {
    match step {
        Step::Append(added) => Ok(Edit::Append {
            values: numbers(alloc, added)?,
        }),
        Step::Insert(index, n) => Ok(Edit::Insert {
            index,
            value: Value::num(n),
        }),
        Step::Set(index, n) => Ok(Edit::Set {
            index,
            value: Value::num(n),
        }),
        Step::Remove(index) => Ok(Edit::Remove { index }),
        Step::Clear => Ok(Edit::Clear),
    }
}

// The source makes what was told, and goes back.
fn makes(
    rt: &impl Abort,
    source: &mut SourceList,
    d: &Delta,
    shown: &[i64],
) -> Result<(), AllocError>
    requires leads { LeadsFrom d.now.pieces source.old.values }
    requires within { new_len d.now.pieces ≤ source.old.limit }
{
    let undo = source.apply(d)?;
    assert!(rt; shows(source, shown));
    source.retreat(undo);
    assert!(rt; shows(source, &[5, 9]));
    Ok(())
}

// A source of [5, 9] is edited and goes back, and then makes what the edit told.
fn answers(
    rt: &impl Abort,
    source: &mut SourceList,
    e: Edit,
    answer: Answer,
) -> Result<(), AllocError> {
    match source.edit(e) {
        Ok((d, undo)) => {
            let Answer::Done(told, shown) = answer else {
                panic!(rt; "it wasn't refused");
            };
            let _within = source.limit();
            assert!(rt; tells(&d, told) && shows(source, shown));
            source.retreat(undo);
            assert!(rt; shows(source, &[5, 9]));
            makes(rt, source, &d, shown)
        }
        Err(fault) => {
            assert!(rt; is_refusal(fault, answer) && shows(source, &[5, 9]));
            Ok(())
        }
    }
}

fn is_refusal(fault: EditFault, answer: Answer) -> bool {
    match (fault, answer) {
        (EditFault::OutOfRange { index, len }, Answer::OutOfRange(i, n)) => index == i && len == n,
        (EditFault::TooLong { len }, Answer::TooLong(n)) => len == n,
        _ => false,
    }
}

/// A limit, an edit of 5 and 9, and what it comes to.
const EDITS: [(u64, Step, Answer); 12] = [
    (
        4u64,
        Step::Append(&[1, 2]),
        Answer::Done(
            &[Told::Keep(2), Told::Insert(1), Told::Insert(2)],
            &[5, 9, 1, 2],
        ),
    ),
    (
        2,
        Step::Append(&[]),
        Answer::Done(&[Told::Keep(2)], &[5, 9]),
    ),
    (4, Step::Append(&[1, 2, 3]), Answer::TooLong(5)),
    (
        3,
        Step::Insert(2, 1),
        Answer::Done(&[Told::Keep(2), Told::Insert(1)], &[5, 9, 1]),
    ),
    (
        3,
        Step::Insert(0, 1),
        Answer::Done(&[Told::Insert(1), Told::Keep(2)], &[1, 5, 9]),
    ),
    (2, Step::Insert(0, 1), Answer::TooLong(3)),
    // the index is looked at first
    (2, Step::Insert(3, 1), Answer::OutOfRange(3, 2)),
    (
        2,
        Step::Set(1, 9),
        Answer::Done(&[Told::Keep(1), Told::Update(9, 9)], &[5, 9]),
    ),
    (9, Step::Set(2, 1), Answer::OutOfRange(2, 2)),
    (
        2,
        Step::Remove(0),
        Answer::Done(&[Told::Delete(5), Told::Keep(1)], &[9]),
    ),
    (9, Step::Remove(u64::MAX), Answer::OutOfRange(u64::MAX, 2)),
    (
        2,
        Step::Clear,
        Answer::Done(&[Told::Delete(5), Told::Delete(9)], &[]),
    ),
];

#[test]
fn edits(rt: HostRuntime) -> Result<(), Fail> {
    let rows = numbers(rt.alloc(), &[5, 9])?;
    for (limit, step, answer) in EDITS {
        let mut source = SourceList::make(rt.alloc(), &rows, limit)?;
        answers(&rt, &mut source, edit(rt.alloc(), step)?, answer)?;
    }
    Ok(())
}
