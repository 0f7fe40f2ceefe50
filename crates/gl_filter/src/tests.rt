ghost use Rattle.std.specs.Prelude.{◌≡◌, ◌<◌};
ghost use Rattle.spec_views.specs.Leads.{IsDelta};

use crate::Filter;
use gl_delta::Find;
use gl_lang::{Matcher, Path, Test};
use gl_testing::{Change, Row, Told, change_of, is_number, tells};
use gl_value::{Steps, Value, Values};
use std::alloc::Global;
use std::marker::Brand;
use std::process::Abort;
use std::sync::ledger::{Blank, Ledger};
use std::test::Fail;

// Whether the filter of a list shows this number at a place.
fn shows_at(filter: &Filter, list: &Values, position: usize, n: i64) -> bool {
    match filter.find(position) {
        Some(Find::Input(at)) => match list.as_slice().get(at) {
            Some(v) => is_number(v, n),
            None => false,
        },
        _ => false,
    }
}

fn shows(filter: &Filter, list: &Values, shown: &[i64]) -> bool {
    for (position, n) in shown.iter().enumerate() {
        if !shows_at(filter, list, position, *n) {
            return false;
        }
    }
    filter.len() == shown.len() && filter.find(shown.len()).is_none()
}

fn above_three(alloc: Global) -> Matcher {
    Matcher::is(Path::new(alloc), Test::Gt, Value::num(3))
}

// A filter of the numbers above 3 follows the delta, and goes back.
fn follows<L: Ledger>(
    rt: &impl Abort,
    alloc: Global,
    change: &Change,
    before: &[i64],
    told: &[Told],
    after: &[i64],
    blank: Blank,
) -> Result<(), Fail>
    requires delta { IsDelta change.now.delta.pieces change.now.before change.now.after }
    requires name { blank.name ≡ L.name }
    requires parts { blank.parts ≡ L.parts }
    requires some { 0 < blank.parts }
{
    let mut steps: Steps<L> = Steps::new(blank);
    assert!(rt; change.before.len() < 100);
    let mut filter = Filter::make(alloc, above_three(alloc), &change.before, &mut steps)?;
    assert!(rt; shows(&filter, &change.before, before));
    let (out, undo) = filter.advance(&change.after, &change.delta, &mut steps)?;
    assert!(rt; tells(&out, told) && shows(&filter, &change.after, after));
    filter.retreat(undo);
    assert!(rt; shows(&filter, &change.before, before));
    Ok(())
}

fn followed(
    rt: &impl Abort,
    alloc: Global,
    change: &Change,
    before: &[i64],
    told: &[Told],
    after: &[i64],
) -> Result<(), Fail>
    requires { IsDelta change.now.delta.pieces change.now.before change.now.after }
{
    follows::<Brand>(rt, alloc, change, before, told, after, Blank::new(1))
}

/// A change of the list, what is shown before it, what is told of it, and what is shown after it.
const FOLLOWED: [(&[Row], &[i64], &[Told], &[i64]); 8] = [
    // deletions beside insertions
    (
        &[
            Row::Delete(5),
            Row::Delete(2),
            Row::Insert(7),
            Row::Insert(1),
            Row::Keep(9),
        ],
        &[5i64, 9],
        &[Told::Delete(5), Told::Insert(7), Told::Keep(1)],
        &[7i64, 9],
    ),
    // a deletion is told before an insertion that stands before it
    (
        &[Row::Update(1, 6), Row::Delete(7)],
        &[7],
        &[Told::Delete(7), Told::Insert(6)],
        &[6],
    ),
    // updates that cross the border, one that stays shown and one that stays hidden
    (
        &[
            Row::Update(5, 1),
            Row::Update(9, 8),
            Row::Update(2, 4),
            Row::Update(1, 2),
        ],
        &[5, 9],
        &[Told::Delete(5), Told::Update(9, 8), Told::Insert(4)],
        &[8, 4],
    ),
    // an update by an equal value is an update
    (
        &[Row::Update(5, 5), Row::Update(3, 3)],
        &[5],
        &[Told::Update(5, 5)],
        &[5],
    ),
    // hidden elements aren't told
    (
        &[
            Row::Keep(1),
            Row::Keep(5),
            Row::Keep(6),
            Row::Insert(2),
            Row::Keep(3),
            Row::Delete(0),
        ],
        &[5, 6],
        &[Told::Keep(2)],
        &[5, 6],
    ),
    // empty lists, from them and to them
    (&[], &[], &[], &[]),
    (
        &[Row::Insert(4), Row::Insert(3)],
        &[],
        &[Told::Insert(4)],
        &[4],
    ),
    (
        &[Row::Delete(4), Row::Delete(1), Row::Delete(5)],
        &[4, 5],
        &[Told::Delete(4), Told::Delete(5)],
        &[],
    ),
];

#[test]
fn deltas_through_a_filter(rt: HostRuntime) -> Result<(), Fail> {
    for (rows, before, told, after) in FOLLOWED {
        let change = change_of(rt.alloc(), rows)?;
        followed(&rt, rt.alloc(), &change, before, told, after)?;
    }
    Ok(())
}
