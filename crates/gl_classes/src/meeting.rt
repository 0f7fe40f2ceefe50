//! Which touched classes of the old list and of the new one have one key.

ghost use Rattle.std.specs.Prelude.{◌≡◌, ◌+◌, ◌-◌, ◌*◌, ◌^◌, ◌<◌, ◌≤◌, ℕ, length};
ghost use Rattle.spec_sorting.specs.Leads.{LeadsTo, undone};
ghost use Rattle.spec_sorting.specs.Source.{element_at};
ghost use Rattle.gl_arranged.specs.Sorting.{order_cmp};
ghost use Rattle.gl_classes.specs.OldValues.{IsOldValue};
ghost use Rattle.gl_classes.specs.Finding.{AreOlds, AreNews, IsMet, met_one, met_new, met_olds, met_news};

use crate::touched::Touched;
use gl_arranged::old_value;
use gl_delta::Delta;
use gl_kernel::element;
use gl_lang::Order;
use gl_value::{Compare, Shelf, Steps};
use std::cmp::Ordering;
use std::sync::ledger::Ledger;

// How an element of the old list compares with one of the new list.
fn compare_keys<S: Shelf, L: Ledger>(
    order: &Order,
    input: &S,
    d: &Delta,
    old: usize,
    new: usize,
    steps: &mut Steps<L>,
) -> Ordering
    requires leads { LeadsTo d.now.pieces (S.items input.now) }
    requires old { IsOldValue d.now.pieces old }
    requires new { new < length (S.items input.now) }
    ensures value { result ≡ order_cmp order.now
        (element_at (undone d.now.pieces (S.items input.now)) old)
        (element_at (S.items input.now) new) }
    ensures counted { steps.new ≡ steps.old + 1 }
{
    order.compare(old_value(d, old), element(input, new), steps)
}

// Which of the touched classes of the old list, from one index on and before another, has the key of a new element. It
// compares once for each binary digit of their number.
fn search<S: Shelf, L: Ledger>(
    order: &Order,
    input: &S,
    d: &Delta,
    olds: &[Touched],
    low: usize,
    high: usize,
    new: usize,
    steps: &mut Steps<L>,
) -> Option<usize>
    requires leads { LeadsTo d.now.pieces (S.items input.now) }
    requires olds { AreOlds (order_cmp order.now) (undone d.now.pieces (S.items input.now))
        d.now.pieces olds.now }
    requires high { high ≤ length olds.now }
    requires new { new < length (S.items input.now) }
    ensures met { IsMet (order_cmp order.now) (undone d.now.pieces (S.items input.now))
        (S.items input.now) olds.now low high new result }
    ensures counted { (digits : ℕ) → high - low < 2 ^ digits → steps.new ≤ steps.old + digits }
{
    if low >= high {
        return None;
    }
    let middle = low + (high - low) / 2;
    match compare_keys(order, input, d, olds[middle].source, new, steps) {
        Ordering::Less => search(order, input, d, olds, middle + 1, high, new, steps),
        Ordering::Equal => Some(middle),
        Ordering::Greater => search(order, input, d, olds, low, middle, new, steps),
    }
}

// A touched class of the new list: where all its members are changed it looks for the one of its key in the old list.
fn meet_one<S: Shelf, L: Ledger>(
    order: &Order,
    input: &S,
    d: &Delta,
    olds: &mut [Touched],
    one: Touched,
    steps: &mut Steps<L>,
) -> Touched
    requires leads { LeadsTo d.now.pieces (S.items input.now) }
    requires olds { AreOlds (order_cmp order.now) (undone d.now.pieces (S.items input.now))
        d.now.pieces olds.old }
    requires new { one.source < length (S.items input.now) }
    ensures olds { olds.new
        ≡ met_one (order_cmp order.now) (undone d.now.pieces (S.items input.now))
        (S.items input.now) olds.old one }
    ensures new { result
        ≡ met_new (order_cmp order.now) (undone d.now.pieces (S.items input.now))
        (S.items input.now) olds.old one }
    ensures counted { (digits : ℕ)
        → length olds.old < 2 ^ digits
        → steps.new ≤ steps.old + digits }
{
    if one.stays {
        return one;
    }
    match search(order, input, d, olds, 0, olds.len(), one.source, steps) {
        Some(old) => {
            olds[old].stays = true;
            Touched {
                class: one.class,
                source: one.source,
                first: one.first,
                plain: one.plain,
                stays: true,
            }
        }
        None => one,
    }
}

/// Lets the classes of the new list whose members are all changed meet those of the old list. It compares for each of them
/// once a binary digit of the number of these, and takes no memory.
pub fn meet<S: Shelf, L: Ledger>(
    order: &Order,
    input: &S,
    d: &Delta,
    olds: &mut [Touched],
    news: &mut [Touched],
    steps: &mut Steps<L>,
)
    requires leads { LeadsTo d.now.pieces (S.items input.now) }
    requires olds { AreOlds (order_cmp order.now) (undone d.now.pieces (S.items input.now))
        d.now.pieces olds.old }
    requires news { AreNews (S.items input.now) news.old }
    ensures olds { olds.new
        ≡ met_olds (order_cmp order.now) (undone d.now.pieces (S.items input.now))
        (S.items input.now) olds.old news.old }
    ensures news { news.new
        ≡ met_news (order_cmp order.now) (undone d.now.pieces (S.items input.now))
        (S.items input.now) olds.old news.old }
    ensures counted { (digits : ℕ)
        → length olds.old < 2 ^ digits
        → steps.new ≤ steps.old + length news.old * digits }
{
    for index in 0..news.len() {
        news[index] = meet_one(order, input, d, olds, news[index], steps);
    }
}
