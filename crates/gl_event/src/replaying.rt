//! Replay: the changes of an event made to a list.

ghost use Rattle.std.specs.Prelude.{◌≡◌, ◌+◌, ◌≤◌, ◌++◌, ◌∷◌, [], length, take, drop, IfOk, OnOk, OnErr};
ghost use Rattle.spec_lists.specs.Leads.{LeadsFrom};
ghost use Rattle.spec_lists.specs.Changes.{changes, replay as replayed};
ghost use Rattle.gl_delta.specs.Cells.{cells_rest};
ghost use Rattle.gl_event.specs.Replay.{applied_cells, old_count};

use crate::event::Event;
use gl_delta::{CellRef, Cells};
use gl_value::{Value, Values};
use std::alloc::{AllocError, Global};

/// Makes all changes of an event to the list that it started from. It builds the new list and puts it in place of the old
/// one; where there is no memory for it, the list is as it was. Kept values are copied, which costs a step each.
pub fn replay(alloc: Global, event: &Event, list: &mut Values) -> Result<(), AllocError>
    requires { LeadsFrom event.now.pieces list.old }
    ensures ok { OnOk result (list.new ≡ replayed (changes event.now.pieces) list.old) }
    ensures err { OnErr result (list.new ≡ list.old) }
{
    let made = applied(alloc, event.cells(), list.as_slice())?;
    *list = made;
    Ok(())
}

// What cells make of values.
fn applied(alloc: Global, mut cells: Cells<'_>, values: &[Value]) -> Result<Values, AllocError>
    requires { old_count (cells_rest cells) ≤ length values.now }
    ensures { IfOk result (λ made. made ≡ applied_cells (cells_rest cells.entry) values.now) }
{
    let mut made = Values::new(alloc);
    let mut from = 0;
    while let Some(cell) = cells.next() {
        match cell {
            CellRef::Keep(n) => {
                keep(&mut made, part(values, from, n))?;
                from += n;
            }
            CellRef::Update(_, new) => {
                add(&mut made, new)?;
                from += 1;
            }
            CellRef::Delete(_) => from += 1,
            CellRef::Insert(new) => add(&mut made, new)?,
        }
    }
    Ok(made)
}

// So many values from a place on.
fn part(values: &[Value], from: usize, n: usize) -> &[Value]
    requires { from + n ≤ length values.now }
    ensures { result.now ≡ take n (drop from values.now) }
{
    &values[from..from + n]
}

// Copies of values at the end of a list.
fn keep(made: &mut Values, values: &[Value]) -> Result<(), AllocError>
    ensures { OnOk result (made.new ≡ made.old ++ values.now) }
{
    for value in values {
        add(made, value)?;
    }
    Ok(())
}

// A copy of a value at the end of a list.
fn add(made: &mut Values, value: &Value) -> Result<(), AllocError>
    ensures { OnOk result (made.new ≡ made.old ++ value.now ∷ []) }
{
    match made.push(value.copy()?) {
        Ok(()) => Ok(()),
        Err((_value, failed)) => Err(failed),
    }
}
