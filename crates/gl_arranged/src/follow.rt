//! The steps in which an arrangement follows a delta: all that was deleted or updated is taken out, then all that was
//! inserted or updated is put in, from left to right.

ghost use Rattle.std.specs.Prelude.{◌≡◌, ◌+◌, ◌*◌, ◌^◌, ◌<◌, ◌≤◌, ℕ, suc, Bool, List, length, vec_len, vec_capacity};
ghost use Rattle.std.specs.Cmp.{IsTotalOrder};
ghost use Rattle.spec_sorting.specs.Tree.{Tree};
ghost use Rattle.spec_sorting.specs.Piece.{new_len};
ghost use Rattle.spec_sorting.specs.Sides.{sides};
ghost use Rattle.spec_lang.specs.Sorting.{order_cmp};
ghost use Rattle.spec_sorting.specs.Arrangement.{Comparison};
ghost use Rattle.gl_order.specs.Arranged.{IsOrdered, mark_at, spare};
ghost use Rattle.gl_arranged.specs.Changes.{changed_of, without, AreRising};
ghost use Rattle.gl_arranged.specs.Marks.{LeadMarks, inserted_len};
ghost use Rattle.gl_arranged.specs.Steps.{LeadsBackTo};

use crate::changed::Changed;
use crate::step::Step;
use gl_delta::Delta;
use gl_lang::Order;
use gl_order::{OrderTree, Spot};
use gl_value::{Shelf, Steps};
use std::sync::ledger::Ledger;

/// Takes the elements at these places out, the last one first, and notes the steps.
pub(crate) fn take_out(tree: &mut OrderTree, gone: &[Changed], undo: &mut Vec<Step>)
    requires rising { AreRising 0 gone.now (length tree.old.places) }
    requires few { length tree.old.places ≤ 2147483647 }
    requires room { vec_len undo.old + length gone.now ≤ vec_capacity undo.old }
    ensures ordered { (compare : Comparison) (xs : List Tree)
        → IsTotalOrder compare
        → IsOrdered compare xs tree.old
        → IsOrdered compare (without gone.now xs) tree.new }
    ensures undo { LeadsBackTo undo.old.items tree.old undo.new.items tree.new }
    ensures marks { (compare : Comparison) (xs : List Tree) (start : List Bool)
        → IsTotalOrder compare
        → IsOrdered compare xs tree.old
        → LeadMarks undo.old.items start tree.old.marks
        → LeadMarks undo.new.items start tree.new.marks }
    ensures inserted { inserted_len undo.new.items ≡ inserted_len undo.old.items }
    ensures spare { spare tree.new ≡ spare tree.old + length gone.now }
    ensures room { tree.new.room ≡ tree.old.room }
    ensures len { vec_len undo.new ≡ vec_len undo.old + length gone.now }
    ensures capacity { vec_capacity undo.new ≡ vec_capacity undo.old }
{
    let mut left = gone.len();
    while left > 0 {
        left -= 1;
        let source = gone[left].source;
        let spot = tree.remove(source);
        undo.push_reserved(Step::Removed(source, spot));
    }
}

// The spot of the element at a sorted place.
fn spot_at(tree: &OrderTree, place: usize) -> Spot
    requires within { place < length tree.now.places }
    requires long { length tree.now.marks ≡ length tree.now.places }
    ensures place { result.place ≡ place }
    ensures before { result.before ≡ mark_at tree.now.marks place }
    ensures after { result.after ≡ mark_at tree.now.marks (suc place) }
{
    let _len = tree.len();
    Spot {
        place,
        before: tree.same_key_before(place),
        after: has_key_before(tree, place + 1),
    }
}

// Whether there is an element at a sorted place, and it has the key of the one before it.
fn has_key_before(tree: &OrderTree, place: usize) -> bool
    requires { length tree.now.marks ≡ length tree.now.places }
    ensures { result ≡ mark_at tree.now.marks place }
{
    if place < tree.len() {
        tree.same_key_before(place)
    } else {
        false
    }
}

/// Puts the elements at these places of a delta's new list in, and notes the steps.
pub(crate) fn put_in<S: Shelf, L: Ledger>(
    tree: &mut OrderTree,
    input: &S,
    d: &Delta,
    came: &[Changed],
    order: &Order,
    undo: &mut Vec<Step>,
    steps: &mut Steps<L>,
)
    requires came { came.now ≡ changed_of 0 (sides d.now.pieces).new }
    requires new { length (S.items input.now) ≡ new_len d.now.pieces }
    requires few { length (S.items input.now) ≤ 2147483647 }
    requires ordered { IsOrdered (order_cmp order.now) (without came.now (S.items input.now))
        tree.old }
    requires spare { length came.now ≤ spare tree.old }
    requires room { vec_len undo.old + length came.now ≤ vec_capacity undo.old }
    ensures ordered { IsOrdered (order_cmp order.now) (S.items input.now) tree.new }
    ensures undo { LeadsBackTo undo.old.items tree.old undo.new.items tree.new }
    ensures marks { (start : List Bool)
        → LeadMarks undo.old.items start tree.old.marks
        → LeadMarks undo.new.items start tree.new.marks }
    ensures inserted { inserted_len undo.new.items
        ≡ inserted_len undo.old.items + length came.now }
    ensures room { tree.new.room ≡ tree.old.room }
    ensures counted { (digits : ℕ)
        → length (S.items input.now) < 2 ^ digits
        → steps.new ≤ steps.old + length came.now * (3 * (digits + 1)) }
{
    for changed in came {
        let part = d.part(input, changed.source + 1);
        let place = tree.insert_reserved(&part, changed.source, order, steps);
        undo.push_reserved(Step::Inserted(changed.source, spot_at(tree, place)));
    }
}
