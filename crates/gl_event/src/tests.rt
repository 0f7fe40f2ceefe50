ghost use Rattle.std.specs.Prelude.{◌≡◌, ◌+◌, ◌≤◌, ◌++◌, ◌∷◌, [], IfOk, OnOk, pos};
ghost use Rattle.spec_value.specs.Tree.{num};
ghost use Rattle.spec_lists.specs.Piece.{old_len, new_len, normal};
ghost use Rattle.spec_lists.specs.Cells.{pieces_in};
ghost use Rattle.spec_lists.specs.Leads.{LeadsFrom};
ghost use Rattle.gl_delta.specs.Cells.{cell_of};

use crate::{Change, ChangeKind, Event, replay};
use gl_delta::{Cell, Delta};
use gl_value::{Value, Values};
use std::alloc::{AllocError, Global};
use std::process::Abort;
use std::test::Fail;

// A cell of a table, its values numbers.
#[derive(Clone, Copy)]
enum Row {
    Keep(usize),
    Update(i64, i64),
    Delete(i64),
    Insert(i64),
}

// A change of a table, at an index.
#[derive(Clone, Copy)]
enum Told {
    Update(usize, i64, i64),
    Delete(usize, i64),
    Insert(usize, i64),
}

fn is_number(v: &Value, n: i64) -> bool {
    v.same(&Value::num(n))
}

fn is_told(change: Change<'_>, told: Told) -> bool {
    match (change, told) {
        (Change::Update { at, old, new }, Told::Update(i, a, b)) => {
            at == i && is_number(old, a) && is_number(new, b)
        }
        (Change::Delete { at, old }, Told::Delete(i, a)) => at == i && is_number(old, a),
        (Change::Insert { at, new }, Told::Insert(i, b)) => at == i && is_number(new, b),
        _ => false,
    }
}

// A cell of one element pushed, where the lists stay short.
fn push(rt: &impl Abort, delta: &mut Delta, cell: Cell) -> Result<(), AllocError>
    requires olds { old_len (pieces_in (cell_of cell)) ≤ 1 }
    requires news { new_len (pieces_in (cell_of cell)) ≤ 1 }
    ensures { OnOk result
        (delta.new.pieces ≡ normal (delta.old.pieces ++ pieces_in (cell_of cell))) }
{
    assert!(rt; delta.old_len() < 100 && delta.new_len() < 100);
    match delta.push(cell) {
        Ok(()) => Ok(()),
        Err((_cell, failed)) => Err(failed),
    }
}

fn push_row(rt: &impl Abort, delta: &mut Delta, row: Row) -> Result<(), AllocError> {
    match row {
        Row::Keep(n) => {
            for _ in 0..n {
                push(rt, delta, Cell::Keep(1))?;
            }
            Ok(())
        }
        Row::Update(a, b) => push(rt, delta, Cell::Update(Value::num(a), Value::num(b))),
        Row::Delete(a) => push(rt, delta, Cell::Delete(Value::num(a))),
        Row::Insert(b) => push(rt, delta, Cell::Insert(Value::num(b))),
    }
}

fn event(rt: &impl Abort, alloc: Global, rows: &[Row]) -> Result<Event, AllocError> {
    let mut delta = Delta::start(alloc);
    for row in rows {
        push_row(rt, &mut delta, *row)?;
    }
    Ok(Event::of(delta))
}

fn walks(event: &Event, changes: &[Told]) -> bool {
    let mut walk = event.walk();
    for told in changes {
        match walk.next() {
            Some(change) => {
                if !is_told(change, *told) {
                    return false;
                }
            }
            None => return false,
        }
    }
    walk.next().is_none() && event.len() == changes.len()
}

fn gives(event: &mut Event, changes: &[Told]) -> bool {
    for told in changes {
        match event.next() {
            Some(change) => {
                if !is_told(change, *told) {
                    return false;
                }
            }
            None => return false,
        }
    }
    event.next().is_none()
}

fn is_kind(kind: ChangeKind, told: Told) -> bool {
    match (kind, told) {
        (ChangeKind::Update, Told::Update(_, _, _)) => true,
        (ChangeKind::Delete, Told::Delete(_, _)) => true,
        (ChangeKind::Insert, Told::Insert(_, _)) => true,
        _ => false,
    }
}

fn gives_blocks(event: &mut Event, blocks: &[(Told, usize, usize)]) -> bool {
    for (told, start, count) in blocks {
        match event.next_block() {
            Some(block) => {
                if !is_kind(block.kind, *told) || block.start != *start || block.count != *count {
                    return false;
                }
            }
            None => return false,
        }
    }
    event.next_block().is_none()
}

/// A delta, its changes, and the blocks of them: a change of the block's kind, its start and its length.
const EVENTS: [(&[Row], &[Told], &[(Told, usize, usize)]); 4] = [
    (
        &[Row::Delete(4), Row::Delete(5), Row::Insert(1)],
        &[Told::Delete(0, 4), Told::Delete(0, 5), Told::Insert(0, 1)],
        &[(Told::Delete(0, 4), 0, 2), (Told::Insert(0, 1), 0, 1)],
    ),
    // deletions with different indices, and insertions apart, are blocks of their own
    (
        &[
            Row::Delete(4),
            Row::Keep(1),
            Row::Delete(5),
            Row::Insert(1),
            Row::Keep(2),
            Row::Insert(2),
        ],
        &[
            Told::Delete(0, 4),
            Told::Delete(1, 5),
            Told::Insert(1, 1),
            Told::Insert(4, 2),
        ],
        &[
            (Told::Delete(0, 4), 0, 1),
            (Told::Delete(1, 5), 1, 1),
            (Told::Insert(1, 1), 1, 1),
            (Told::Insert(4, 2), 4, 1),
        ],
    ),
    (
        &[
            Row::Keep(1),
            Row::Insert(7),
            Row::Insert(8),
            Row::Keep(2),
            Row::Update(1, 2),
            Row::Update(3, 4),
            Row::Delete(9),
        ],
        &[
            Told::Insert(1, 7),
            Told::Insert(2, 8),
            Told::Update(5, 1, 2),
            Told::Update(6, 3, 4),
            Told::Delete(7, 9),
        ],
        &[
            (Told::Insert(1, 7), 1, 2),
            (Told::Update(5, 1, 2), 5, 2),
            (Told::Delete(7, 9), 7, 1),
        ],
    ),
    (&[Row::Keep(3)], &[], &[]),
];

#[test]
fn changes_and_blocks(rt: HostRuntime) -> Result<(), Fail> {
    for (rows, changes, blocks) in EVENTS {
        let mut event = event(&rt, rt.alloc(), rows)?;
        assert!(rt; walks(&event, changes));
        assert!(rt; gives_blocks(&mut event, blocks));
        event.rewind();
        assert!(rt; gives(&mut event, changes));
        assert!(rt; event.next_block().is_none());
    }
    Ok(())
}

// Both values of [4, 5] deleted, and 1 inserted.
fn two_for_one(rt: &impl Abort, alloc: Global) -> Result<Event, AllocError>
    ensures { IfOk result (λ e. LeadsFrom e.pieces (num (pos 4) ∷ num (pos 5) ∷ [])) }
{
    let mut delta = Delta::start(alloc);
    push(rt, &mut delta, Cell::Delete(Value::num(4)))?;
    push(rt, &mut delta, Cell::Delete(Value::num(5)))?;
    push(rt, &mut delta, Cell::Insert(Value::num(1)))?;
    Ok(Event::of(delta))
}

fn add(list: &mut Values, n: i64) -> Result<(), AllocError>
    ensures { OnOk result (list.new ≡ list.old ++ num n ∷ []) }
{
    match list.push(Value::num(n)) {
        Ok(()) => Ok(()),
        Err((_value, failed)) => Err(failed),
    }
}

#[test]
fn replayed_changes(rt: HostRuntime) -> Result<(), Fail> {
    let event = two_for_one(&rt, rt.alloc())?;
    let mut list = Values::new(rt.alloc());
    add(&mut list, 4)?;
    add(&mut list, 5)?;
    replay(rt.alloc(), &event, &mut list)?;
    assert_eq!(rt; list.len(), 1);
    assert!(rt; is_number(&list.as_slice()[0], 1));
    Ok(())
}
