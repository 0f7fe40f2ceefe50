//! How many children the elements of a list have together.

ghost use Rattle.std.specs.Prelude.{◌≡◌, ◌+◌, ◌*◌, ◌^◌, ◌<◌, ◌≤◌, length, sum};
ghost use Rattle.gl_joined.specs.Piece.{new_len};
ghost use Rattle.gl_joined.specs.Cells.{pieces_in};
ghost use Rattle.spec_lang.specs.Kids.{kids};
ghost use Rattle.spec_views.specs.Collection.{collection_view};
ghost use Rattle.gl_delta.specs.Cells.{cell_ref};
ghost use Rattle.gl_collection.specs.Told.{gained, lost};

use gl_delta::{CellRef, Delta};
use gl_joined::LengthList;
use gl_kernel::element;
use gl_lang::Kids;
use gl_value::{Shelf, Value};

/// How many children these elements have together.
pub(crate) fn total<S: Shelf>(model: &Kids, input: &S) -> u128
    requires { length (S.items input.now) ≤ 2147483647 }
    ensures { result ≡ length (collection_view (kids model.now) (S.items input.now)) }
{
    let mut total: u128 = 0;
    'elements: for position in 0..input.len() {
        total += count(model, element(input, position)) as u128;
    }
    total
}

// How many children a value has.
pub(crate) fn count(model: &Kids, value: &Value) -> usize
    ensures value { result ≡ length (kids model.now value.now) }
    ensures few { result < 2 ^ 64 }
{
    model.of(value).len()
}

// Children that came, and children that went.
#[derive(Clone, Copy)]
struct Balance {
    gained: u128,
    lost: u128,
}

/// How many children the elements have after a change, of those that have so many each.
pub(crate) fn new_total(model: &Kids, lens: &LengthList, d: &Delta) -> u128
    requires small { sum lens.now.lens ≤ 2147483647 }
    requires lost { lost (kids model.now) d.now.pieces ≤ sum lens.now.lens }
    ensures { result + lost (kids model.now) d.now.pieces
        ≡ sum lens.now.lens + gained (kids model.now) d.now.pieces }
{
    let _news = d.new_len();
    let mut balance = Balance { gained: 0, lost: 0 };
    let mut cells = d.cells();
    'cells: while let Some(cell) = cells.next() {
        balance = weighed(model, balance, cell);
    }
    lens.total() as u128 + balance.gained - balance.lost
}

// One cell more.
fn weighed(model: &Kids, balance: Balance, cell: CellRef<'_>) -> Balance
    requires gained { balance.gained < 2 ^ 96 }
    requires lost { balance.lost + lost (kids model.now) (pieces_in (cell_ref cell)) ≤ 2147483647 }
    ensures gained { result.gained
        ≡ balance.gained + gained (kids model.now) (pieces_in (cell_ref cell.entry)) }
    ensures lost { result.lost
        ≡ balance.lost + lost (kids model.now) (pieces_in (cell_ref cell.entry)) }
    ensures few { result.gained
        ≤ balance.gained + new_len (pieces_in (cell_ref cell.entry)) * 2 ^ 64 }
{
    match cell {
        CellRef::Keep(_) => balance,
        CellRef::Update(old, new) => Balance {
            gained: balance.gained + count(model, new) as u128,
            lost: balance.lost + count(model, old) as u128,
        },
        CellRef::Delete(old) => Balance {
            gained: balance.gained,
            lost: balance.lost + count(model, old) as u128,
        },
        CellRef::Insert(new) => Balance {
            gained: balance.gained + count(model, new) as u128,
            lost: balance.lost,
        },
    }
}
