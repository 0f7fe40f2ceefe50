ghost use Rattle.std.specs.Prelude.{◌≡◌, ◌<◌, ◌≤◌, length};
ghost use Rattle.spec_views.specs.Leads.{IsDelta};

use crate::RangeKernel;
use gl_delta::Find;
use gl_lang::Bounds;
use gl_testing::{Change, Row, Told, change_of, is_number, tells};
use gl_value::{Shelf, Steps, Values};
use std::alloc::{AllocError, Global};
use std::marker::Brand;
use std::sync::ledger::{Blank, Ledger};
use std::test::Fail;

fn finds(range: &RangeKernel, input: &Values, position: usize, n: i64) -> bool {
    match range.find(position) {
        Some(Find::Input(at)) => input.get(at).is_some_and(|v| is_number(v, n)),
        _ => false,
    }
}

fn shows(range: &RangeKernel, input: &Values, shown: &[i64]) -> bool {
    for position in 0..shown.len() {
        if !finds(range, input, position, shown[position]) {
            return false;
        }
    }
    range.len() == shown.len() && range.find(shown.len()).is_none()
}

fn follows<L: Ledger>(
    alloc: Global,
    bounds: Bounds,
    change: &Change,
    told: &[Told],
    shown: (&[i64], &[i64]),
    blank: Blank,
) -> Result<bool, AllocError>
    requires delta { IsDelta change.now.delta.pieces change.now.before change.now.after }
    requires name { blank.name ≡ L.name }
    requires parts { blank.parts ≡ L.parts }
    requires some { 0 < blank.parts }
{
    let mut steps: Steps<L> = Steps::new(blank);
    let mut range = RangeKernel::make(alloc, bounds, &change.before, &mut steps)?;
    let opened = shows(&range, &change.before, shown.0);
    let (out, undo) = range.advance(&change.after, &change.delta, &mut steps)?;
    let followed = tells(&out, told) && shows(&range, &change.after, shown.1);
    range.retreat(undo);
    Ok(opened && followed && shows(&range, &change.before, shown.0) && range.bounds() == bounds)
}

/// Bounds, a change of the list, what is told of it, and what is shown before and after it.
const FOLLOWED: [(Bounds, &[Row], &[Told], &[i64], &[i64]); 9] = [
    (
        Bounds::Tail(2, 0),
        &[Row::Keep(1), Row::Keep(2), Row::Keep(3), Row::Insert(4)],
        &[Told::Delete(2), Told::Keep(1), Told::Insert(4)],
        &[2, 3],
        &[3, 4],
    ),
    (
        Bounds::Head(1, 3),
        &[
            Row::Delete(1),
            Row::Insert(9),
            Row::Insert(8),
            Row::Keep(2),
            Row::Update(3, 5),
            Row::Keep(4),
        ],
        &[Told::Insert(8), Told::Keep(1), Told::Delete(3)],
        &[2, 3],
        &[8, 2],
    ),
    (
        Bounds::Head(1, 3),
        &[
            Row::Insert(7),
            Row::Update(1, 6),
            Row::Keep(2),
            Row::Keep(3),
        ],
        &[Told::Insert(6), Told::Keep(1), Told::Delete(3)],
        &[2, 3],
        &[6, 2],
    ),
    (
        Bounds::Middle(1, 1),
        &[
            Row::Keep(1),
            Row::Update(2, 8),
            Row::Delete(3),
            Row::Insert(9),
            Row::Keep(4),
        ],
        &[Told::Update(2, 8), Told::Delete(3), Told::Insert(9)],
        &[2, 3],
        &[8, 9],
    ),
    (
        Bounds::Middle(2, 2),
        &[
            Row::Insert(8),
            Row::Insert(9),
            Row::Keep(1),
            Row::Keep(2),
            Row::Keep(3),
            Row::Keep(4),
            Row::Keep(5),
            Row::Keep(6),
        ],
        &[Told::Insert(1), Told::Insert(2), Told::Keep(2)],
        &[3, 4],
        &[1, 2, 3, 4],
    ),
    (
        Bounds::Tail(2, 0),
        &[Row::Delete(1), Row::Delete(2), Row::Delete(3)],
        &[Told::Delete(2), Told::Delete(3)],
        &[2, 3],
        &[],
    ),
    (
        Bounds::Middle(1, 1),
        &[Row::Insert(1), Row::Insert(2), Row::Insert(3)],
        &[Told::Insert(2)],
        &[],
        &[2],
    ),
    (
        Bounds::Head(2, 1),
        &[Row::Keep(1), Row::Update(2, 3)],
        &[],
        &[],
        &[],
    ),
    (Bounds::Head(0, 5), &[], &[], &[], &[]),
];

#[test]
fn changes_of_the_list(rt: HostRuntime) -> Result<(), Fail> {
    for (bounds, rows, told, before, after) in FOLLOWED {
        let change = change_of(rt.alloc(), rows)?;
        let right = follows::<Brand>(
            rt.alloc(),
            bounds,
            &change,
            told,
            (before, after),
            Blank::new(1),
        )?;
        assert!(rt; right);
    }
    Ok(())
}
