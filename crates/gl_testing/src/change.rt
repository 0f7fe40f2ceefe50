//! Changes of lists of numbers, made of what becomes of each element.

ghost use Rattle.std.specs.Prelude.{◌≡◌, ◌≤◌, ◌++◌, ◌∷◌, [], map, flat_map, IfOk, OnOk};
ghost use Rattle.spec_value.specs.Tree.{num};
ghost use Rattle.spec_lists.specs.Piece.{old_len, new_len, normal};
ghost use Rattle.spec_lists.specs.Cells.{pieces_in};
ghost use Rattle.spec_lists.specs.Leads.{IsDelta};
ghost use Rattle.gl_delta.specs.Cells.{cell_of};
ghost use Rattle.gl_testing.specs.Rows.{old_of, new_of};

use gl_delta::{Cell, Delta};
use gl_value::{Value, Values};
use std::alloc::{AllocError, Global};

/// What becomes of an element, its values numbers.
#[derive(Clone, Copy)]
pub enum Row {
    /// The value, in the old list and the new one.
    Keep(i64),
    /// The old value, and the new one.
    Update(i64, i64),
    /// The old value.
    Delete(i64),
    /// The new value.
    Insert(i64),
}

/// A change of a list: the list before it, the list after it, and the delta that leads from the one to the other.
#[derive(Drop)]
pub struct Change {
    pub before: Values,
    pub after: Values,
    pub delta: Delta,
}

// Adds a cell of at most one element, where the lists stay short.
fn push(delta: &mut Delta, cell: Cell) -> Result<(), AllocError>
    requires olds { old_len (pieces_in (cell_of cell)) ≤ 1 }
    requires news { new_len (pieces_in (cell_of cell)) ≤ 1 }
    ensures { OnOk result
        (delta.new.pieces ≡ normal (delta.old.pieces ++ pieces_in (cell_of cell))) }
{
    if delta.old_len() >= 100 || delta.new_len() >= 100 {
        return Err(AllocError);
    }
    match delta.push(cell) {
        Ok(()) => Ok(()),
        Err((_cell, failed)) => Err(failed),
    }
}

fn add(list: &mut Values, n: i64) -> Result<(), AllocError>
    ensures { OnOk result (list.new ≡ list.old ++ num n ∷ []) }
{
    match list.push(Value::num(n)) {
        Ok(()) => Ok(()),
        Err((_value, failed)) => Err(failed),
    }
}

fn add_row(change: &mut Change, row: Row) -> Result<(), AllocError>
    requires { IsDelta change.old.delta.pieces change.old.before change.old.after }
    ensures delta { OnOk result
        (IsDelta change.new.delta.pieces change.new.before change.new.after) }
    ensures before { OnOk result (change.new.before ≡ change.old.before ++ old_of row) }
    ensures after { OnOk result (change.new.after ≡ change.old.after ++ new_of row) }
{
    match row {
        Row::Keep(a) => {
            push(&mut change.delta, Cell::Keep(1))?;
            add(&mut change.before, a)?;
            add(&mut change.after, a)?;
            Ok(())
        }
        Row::Update(a, b) => {
            push(
                &mut change.delta,
                Cell::Update(Value::num(a), Value::num(b)),
            )?;
            add(&mut change.before, a)?;
            add(&mut change.after, b)?;
            Ok(())
        }
        Row::Delete(a) => {
            push(&mut change.delta, Cell::Delete(Value::num(a)))?;
            add(&mut change.before, a)?;
            Ok(())
        }
        Row::Insert(b) => {
            push(&mut change.delta, Cell::Insert(Value::num(b)))?;
            add(&mut change.after, b)?;
            Ok(())
        }
    }
}

/// The change that these rows make, from left to right: the lists are theirs, and the delta leads from the one to the
/// other. It is refused where memory is wanting, and where a list would have more than a hundred elements.
pub fn change_of(alloc: Global, rows: &[Row]) -> Result<Change, AllocError>
    ensures delta { IfOk result (λ change. IsDelta change.delta.pieces change.before change.after) }
    ensures before { IfOk result (λ change. change.before ≡ flat_map old_of rows.now) }
    ensures after { IfOk result (λ change. change.after ≡ flat_map new_of rows.now) }
{
    let mut change = Change {
        before: Values::new(alloc),
        after: Values::new(alloc),
        delta: Delta::start(alloc),
    };
    'rows: for row in rows {
        add_row(&mut change, *row)?;
    }
    Ok(change)
}

/// The list of these numbers.
pub fn numbers(alloc: Global, shown: &[i64]) -> Result<Values, AllocError>
    ensures { IfOk result (λ list. list ≡ map num shown.now) }
{
    let mut list = Values::new(alloc);
    'numbers: for n in shown {
        add(&mut list, *n)?;
    }
    Ok(list)
}
