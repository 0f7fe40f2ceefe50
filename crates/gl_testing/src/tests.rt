//! Deltas, over the changes of lists of numbers that the tests of lists share.

use crate::{Row, Told, change_of, is_number, tells};
use gl_delta::{CellRef, Delta, Deltas, MOST, Old};
use gl_value::{Shelf, Value};
use std::alloc::{AllocError, Global};
use std::process::Abort;
use std::test::Fail;

// A change of the new list at a position.
#[derive(Clone, Copy)]
enum Step {
    Set(usize, i64, i64),
    Remove(usize, i64),
    Insert(usize, i64),
}

fn record(rt: &impl Abort, delta: &mut Delta, step: Step) -> Result<(), AllocError> {
    let len = delta.new_len();
    match step {
        Step::Set(at, old, new) => {
            assert!(rt; at < len);
            match delta.record_set(at, Value::num(old), Value::num(new)) {
                Ok(()) => Ok(()),
                Err((_old, _new, failed)) => Err(failed),
            }
        }
        Step::Remove(at, old) => {
            assert!(rt; at < len);
            match delta.record_remove(at, Value::num(old)) {
                Ok(()) => Ok(()),
                Err((_old, failed)) => Err(failed),
            }
        }
        Step::Insert(at, new) => {
            assert!(rt; at <= len && len < MOST);
            match delta.record_insert(at, Value::num(new)) {
                Ok(()) => Ok(()),
                Err((_new, failed)) => Err(failed),
            }
        }
    }
}

/// How long the identity is, the steps that are recorded in it, and what is told of these.
const RECORDED: [(usize, &[Step], &[Told]); 5] = [
    (
        2,
        &[Step::Remove(0, 7), Step::Insert(0, 8)],
        &[Told::Delete(7), Told::Insert(8), Told::Keep(1)],
    ),
    (
        2,
        &[Step::Set(1, 5, 6)],
        &[Told::Keep(1), Told::Update(5, 6)],
    ),
    (
        1,
        &[Step::Set(0, 1, 2), Step::Set(0, 2, 3)],
        &[Told::Update(1, 3)],
    ),
    (
        1,
        &[Step::Set(0, 3, 4), Step::Remove(0, 4)],
        &[Told::Delete(3)],
    ),
    (0, &[Step::Insert(0, 5), Step::Remove(0, 5)], &[]),
];

#[test]
fn recorded_changes(rt: HostRuntime) -> Result<(), Fail> {
    for (len, steps, told) in RECORDED {
        assert!(rt; len <= MOST);
        let mut delta = Delta::identity(rt.alloc(), len)?;
        for step in steps {
            record(&rt, &mut delta, *step)?;
        }
        assert!(rt; tells(&delta, told));
    }
    Ok(())
}

/// A delta, its inverse, another after it, and what both come to.
const COMPOSED: [(&[Row], &[Told], &[Row], &[Told]); 5] = [
    // there and back: the first element was deleted, whatever stands there now
    (
        &[Row::Insert(8), Row::Delete(7), Row::Keep(9)],
        &[Told::Delete(8), Told::Insert(7), Told::Keep(1)],
        &[Row::Delete(8), Row::Insert(7), Row::Keep(9)],
        &[Told::Delete(7), Told::Insert(7), Told::Keep(1)],
    ),
    // an updated pair stays one where the values meet again
    (
        &[Row::Update(1, 2), Row::Keep(9)],
        &[Told::Update(2, 1), Told::Keep(1)],
        &[Row::Update(2, 1), Row::Keep(9)],
        &[Told::Update(1, 1), Told::Keep(1)],
    ),
    (
        &[Row::Insert(5), Row::Keep(9)],
        &[Told::Delete(5), Told::Keep(1)],
        &[Row::Delete(5), Row::Keep(9)],
        &[Told::Keep(1)],
    ),
    // between two pairs the deletions stand first again
    (
        &[
            Row::Update(5, 6),
            Row::Delete(1),
            Row::Delete(2),
            Row::Insert(3),
            Row::Keep(7),
        ],
        &[
            Told::Update(6, 5),
            Told::Delete(3),
            Told::Insert(1),
            Told::Insert(2),
            Told::Keep(1),
        ],
        &[Row::Keep(6), Row::Keep(3), Row::Delete(7)],
        &[
            Told::Update(5, 6),
            Told::Delete(1),
            Told::Delete(2),
            Told::Delete(7),
            Told::Insert(3),
        ],
    ),
    (
        &[
            Row::Keep(1),
            Row::Insert(5),
            Row::Update(3, 4),
            Row::Delete(6),
            Row::Keep(7),
            Row::Keep(9),
        ],
        &[
            Told::Keep(1),
            Told::Delete(5),
            Told::Update(4, 3),
            Told::Insert(6),
            Told::Keep(2),
        ],
        &[
            Row::Delete(1),
            Row::Update(5, 8),
            Row::Insert(2),
            Row::Delete(4),
            Row::Keep(7),
            Row::Update(9, 0),
        ],
        &[
            Told::Delete(1),
            Told::Delete(3),
            Told::Delete(6),
            Told::Insert(8),
            Told::Insert(2),
            Told::Keep(1),
            Told::Update(9, 0),
        ],
    ),
];

fn delta_of(alloc: Global, rows: &[Row]) -> Result<Delta, AllocError> {
    let change = change_of(alloc, rows)?;
    change.delta.copy()
}

// Whether this is the inverse of the delta.
fn is_inverse(delta: &Delta, back: &[Told]) -> Result<bool, AllocError> {
    Ok(tells(&delta.copy()?.inverse(), back))
}

// Whether a delta and another after it come to this.
fn compose(mut delta: Delta, more: Delta, both: &[Told]) -> Result<bool, AllocError> {
    if more.old_len() != delta.new_len() {
        return Ok(false);
    }
    delta.reserve_for(&more)?;
    delta.absorb(more);
    Ok(tells(&delta, both))
}

#[test]
fn inverses_and_compositions(rt: HostRuntime) -> Result<(), Fail> {
    for (rows, back, more, both) in COMPOSED {
        let delta = delta_of(rt.alloc(), rows)?;
        assert!(rt; is_inverse(&delta, back)?);
        assert!(rt; compose(delta, delta_of(rt.alloc(), more)?, both)?);
    }
    Ok(())
}

fn shows(shelf: &impl Shelf, items: &[i64]) -> bool {
    for (position, n) in items.iter().enumerate() {
        match shelf.get(position) {
            Some(v) => {
                if !is_number(v, *n) {
                    return false;
                }
            }
            None => return false,
        }
    }
    shelf.len() == items.len() && shelf.get(items.len()).is_none()
}

/// How much of the new list is there already, and the list that then shows.
const PARTS: [(usize, &[i64]); 4] = [
    (0, &[5, 9]),
    (2, &[5, 7, 9]),
    (3, &[5, 7, 6, 9]),
    (4, &[5, 7, 6, 9]),
];

#[test]
fn parts_and_old_elements(rt: HostRuntime) -> Result<(), Fail> {
    let rows = [
        Row::Keep(5),
        Row::Update(8, 7),
        Row::Delete(1),
        Row::Insert(6),
        Row::Keep(9),
    ];
    let change = change_of(rt.alloc(), &rows)?;
    let delta = &change.delta;
    assert!(rt; change.after.len() == delta.new_len() && delta.new_len() == 4);
    for (upto, items) in PARTS {
        assert!(rt; upto <= 4 && shows(&delta.part(&change.after, upto), items));
    }
    assert!(rt; delta.old_len() == 4);
    assert!(rt; matches!(delta.old_at(2), Old::Value(v) if is_number(v, 1)));
    assert!(rt; matches!(delta.old_at(3), Old::Kept(3)));
    Ok(())
}

// Many elements removed after as many that were inserted: the work is no multiple of their number.
#[test]
fn many_recorded(rt: HostRuntime) -> Result<(), Fail> {
    let mut delta = Delta::identity(rt.alloc(), 15_000)?;
    for _ in 0..15_000 {
        record(&rt, &mut delta, Step::Insert(0, 1))?;
    }
    for _ in 0..15_000 {
        record(&rt, &mut delta, Step::Remove(15_000, 2))?;
    }
    assert!(rt; delta.changes() == 30_000);
    let mut middle = delta.cells_from(14_999);
    assert!(rt; matches!(middle.next(), Some(CellRef::Delete(v)) if is_number(v, 2)));
    assert!(rt; matches!(middle.next(), Some(CellRef::Insert(v)) if is_number(v, 1)));
    Ok(())
}

#[test]
fn deltas_by_number(rt: HostRuntime) -> Result<(), Fail> {
    let mut deltas = Deltas::make(rt.alloc(), 2)?;
    assert!(rt; deltas.get(1).is_none());
    deltas.put(1, delta_of(rt.alloc(), &[Row::Keep(3)])?);
    assert!(rt; deltas.get(0).is_none());
    assert!(rt; deltas.take(1).is_some_and(|delta| delta.is_identity()));
    assert!(rt; deltas.take(1).is_none());
    Ok(())
}
