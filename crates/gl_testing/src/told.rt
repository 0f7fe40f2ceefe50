//! Whether a delta tells the cells that it is to tell.

ghost use Rattle.std.specs.Prelude.{◌≡◌, ◌↔◌, map, IsTrue};
ghost use Rattle.spec_value.specs.Tree.{num};
ghost use Rattle.spec_lists.specs.Cells.{cells_of};
ghost use Rattle.gl_delta.specs.Cells.{cell_ref};
ghost use Rattle.gl_testing.specs.Told.{cell_told};

use gl_delta::{CellRef, Delta};
use gl_value::Value;

/// A cell that is told, its values numbers.
#[derive(Clone, Copy)]
pub enum Told {
    /// So many elements are kept.
    Keep(usize),
    /// An old value, and the new one.
    Update(i64, i64),
    /// An old value.
    Delete(i64),
    /// A new value.
    Insert(i64),
}

/// Whether the value is this number.
pub fn is_number(v: &Value, n: i64) -> bool
    ensures { IsTrue result ↔ (v.now ≡ num n) }
{
    v.same(&Value::num(n))
}

fn is_told(cell: CellRef<'_>, told: Told) -> bool
    ensures { IsTrue result → cell_ref cell.entry ≡ cell_told told }
{
    match (cell, told) {
        (CellRef::Keep(n), Told::Keep(m)) => n == m,
        (CellRef::Update(v, w), Told::Update(a, b)) => is_number(v, a) && is_number(w, b),
        (CellRef::Delete(v), Told::Delete(a)) => is_number(v, a),
        (CellRef::Insert(w), Told::Insert(b)) => is_number(w, b),
        _ => false,
    }
}

/// Whether the cells of the delta are these, in this order.
pub fn tells(delta: &Delta, told: &[Told]) -> bool
    ensures { IsTrue result → cells_of delta.now.pieces ≡ map cell_told told.now }
{
    let mut cells = delta.cells();
    'told: for one in told {
        match cells.next() {
            Some(cell) => {
                if !is_told(cell, *one) {
                    return false;
                }
            }
            None => return false,
        }
    }
    cells.next().is_none()
}
