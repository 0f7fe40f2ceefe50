ghost use Rattle.std.specs.Prelude.{◌≡◌, ◌<◌};
ghost use Rattle.spec_sorting.specs.Leads.{IsDelta};

use crate::Sorted;
use gl_delta::Find;
use gl_lang::{Key, Keys, Order, Path};
use gl_testing::{Change, Row, Told, change_of, is_number, tells};
use gl_value::{Steps, Values};
use std::alloc::Global;
use std::marker::Brand;
use std::process::Abort;
use std::sync::ledger::{Blank, Ledger};
use std::test::Fail;

// Whether the sorted list of a list shows this number at a place.
fn shows_at(sorted: &Sorted, list: &Values, place: usize, n: i64) -> bool {
    match sorted.find(place) {
        Some(Find::Input(at)) => match list.as_slice().get(at) {
            Some(v) => is_number(v, n),
            None => false,
        },
        _ => false,
    }
}

fn shows(sorted: &Sorted, list: &Values, shown: &[i64]) -> bool {
    for (place, n) in shown.iter().enumerate() {
        if !shows_at(sorted, list, place, *n) {
            return false;
        }
    }
    sorted.len() == shown.len() && sorted.find(shown.len()).is_none()
}

// The order of the numbers themselves.
fn by_number(alloc: Global, down: bool) -> Result<Order, Fail> {
    let mut keys = Keys::new(alloc);
    let path = Path::new(alloc);
    match keys.push(Key { path, down }) {
        Ok(()) => Ok(Order { keys }),
        Err((_key, failed)) => Err(failed.into()),
    }
}

// A sorted list follows the delta, goes back, and takes the order that is turned round.
fn follows<L: Ledger>(
    rt: &impl Abort,
    alloc: Global,
    change: &Change,
    before: &[i64],
    told: &[Told],
    after: &[i64],
    blank: Blank,
) -> Result<(), Fail>
    requires delta { IsDelta change.now.delta.pieces change.now.before change.now.after }
    requires name { blank.name ≡ L.name }
    requires parts { blank.parts ≡ L.parts }
    requires some { 0 < blank.parts }
{
    let mut steps: Steps<L> = Steps::new(blank);
    assert!(rt; change.before.len() < 100);
    let mut sorted = Sorted::make(alloc, by_number(alloc, false)?, &change.before, &mut steps)?;
    assert!(rt; shows(&sorted, &change.before, before));
    let (out, undo) = sorted.advance(&change.after, &change.delta, &mut steps)?;
    assert!(rt; tells(&out, told) && shows(&sorted, &change.after, after));
    sorted.retreat(undo);
    assert!(rt; shows(&sorted, &change.before, before));
    let (out, undo) = sorted.change(by_number(alloc, true)?, &change.before, &mut steps)?;
    assert!(rt; out.changes() == 2 * before.len() && sorted.len() == before.len());
    sorted.retreat(undo);
    assert!(rt; shows(&sorted, &change.before, before));
    Ok(())
}

fn followed(
    rt: &impl Abort,
    alloc: Global,
    change: &Change,
    before: &[i64],
    told: &[Told],
    after: &[i64],
) -> Result<(), Fail>
    requires { IsDelta change.now.delta.pieces change.now.before change.now.after }
{
    follows::<Brand>(rt, alloc, change, before, told, after, Blank::new(1))
}

#[test]
fn deltas_through_a_sorted_list(rt: HostRuntime) -> Result<(), Fail> {
    for (rows, before, told, after) in [
        // an update that stays, beside one that passes an element of equal key that stands before it
        (
            [Row::Keep(5), Row::Update(2, 5), Row::Update(7, 6)].as_slice(),
            [2i64, 5, 7].as_slice(),
            [
                Told::Delete(2),
                Told::Keep(1),
                Told::Insert(5),
                Told::Update(7, 6),
            ]
            .as_slice(),
            [5i64, 5, 6].as_slice(),
        ),
        // two updates that cross, and two that don't
        (
            &[Row::Update(1, 5), Row::Update(2, 3), Row::Keep(9)],
            &[1, 2, 9],
            &[
                Told::Delete(1),
                Told::Delete(2),
                Told::Insert(3),
                Told::Insert(5),
                Told::Keep(1),
            ],
            &[3, 5, 9],
        ),
        (
            &[Row::Update(1, 4), Row::Update(2, 6), Row::Keep(9)],
            &[1, 2, 9],
            &[Told::Update(1, 4), Told::Update(2, 6), Told::Keep(1)],
            &[4, 6, 9],
        ),
        // an update that others pass, a deletion and an insertion
        (
            &[
                Row::Update(30, 35),
                Row::Update(10, 60),
                Row::Keep(50),
                Row::Delete(20),
                Row::Keep(40),
                Row::Insert(15),
            ],
            &[10, 20, 30, 40, 50],
            &[
                Told::Delete(10),
                Told::Delete(20),
                Told::Delete(30),
                Told::Insert(15),
                Told::Insert(35),
                Told::Keep(2),
                Told::Insert(60),
            ],
            &[15, 35, 40, 50, 60],
        ),
        // empty lists
        (&[], &[], &[], &[]),
    ] {
        let change = change_of(rt.alloc(), rows)?;
        followed(&rt, rt.alloc(), &change, before, told, after)?;
    }
    Ok(())
}
