ghost use Rattle.std.specs.Prelude.{◌≡◌, ◌<◌};
ghost use Rattle.spec_sorting.specs.Leads.{IsDelta};

use crate::Unique;
use gl_delta::Find;
use gl_lang::{Key, Keys, Order, Path};
use gl_testing::{Change, Row, Told, change_of, is_number, tells};
use gl_value::{Steps, Values};
use std::alloc::Global;
use std::marker::Brand;
use std::process::Abort;
use std::sync::ledger::{Blank, Ledger};
use std::test::Fail;

// Whether the unique list of a list shows this number at a place.
fn shows_at(unique: &Unique, list: &Values, place: usize, n: i64) -> bool {
    match unique.find(place) {
        Some(Find::Input(at)) => match list.as_slice().get(at) {
            Some(v) => is_number(v, n),
            None => false,
        },
        _ => false,
    }
}

fn shows(unique: &Unique, list: &Values, shown: &[i64]) -> bool {
    for (place, n) in shown.iter().enumerate() {
        if !shows_at(unique, list, place, *n) {
            return false;
        }
    }
    unique.len() == shown.len() && unique.find(shown.len()).is_none()
}

// The order of the numbers themselves, or one by which all of them have equal key.
fn order(alloc: Global, by_number: bool) -> Result<Order, Fail> {
    let mut keys = Keys::new(alloc);
    if !by_number {
        return Ok(Order { keys });
    }
    let path = Path::new(alloc);
    match keys.push(Key { path, down: false }) {
        Ok(()) => Ok(Order { keys }),
        Err((_key, failed)) => Err(failed.into()),
    }
}

// A unique list follows the delta, goes back, and takes its own order again, of which it tells all elements anew.
fn follows<L: Ledger>(
    rt: &impl Abort,
    alloc: Global,
    by_number: bool,
    change: &Change,
    before: &[i64],
    told: &[Told],
    after: &[i64],
    blank: Blank,
) -> Result<(), Fail>
    requires delta { IsDelta change.now.delta.pieces change.now.before change.now.after }
    requires name { blank.name ≡ L.name }
    requires parts { blank.parts ≡ L.parts }
    requires some { 0 < blank.parts }
{
    let mut steps: Steps<L> = Steps::new(blank);
    assert!(rt; change.before.len() < 100);
    let mut unique = Unique::make(alloc, order(alloc, by_number)?, &change.before, &mut steps)?;
    assert!(rt; shows(&unique, &change.before, before));
    let (out, undo) = unique.advance(&change.after, &change.delta, &mut steps)?;
    assert!(rt; tells(&out, told) && shows(&unique, &change.after, after));
    unique.retreat(undo);
    assert!(rt; shows(&unique, &change.before, before));
    let (out, undo) = unique.change(order(alloc, by_number)?, &change.before, &mut steps)?;
    assert!(rt; out.changes() == 2 * before.len() && shows(&unique, &change.before, before));
    unique.retreat(undo);
    assert!(rt; shows(&unique, &change.before, before));
    Ok(())
}

fn followed(
    rt: &impl Abort,
    alloc: Global,
    by_number: bool,
    change: &Change,
    before: &[i64],
    told: &[Told],
    after: &[i64],
) -> Result<(), Fail>
    requires { IsDelta change.now.delta.pieces change.now.before change.now.after }
{
    follows::<Brand>(
        rt,
        alloc,
        by_number,
        change,
        before,
        told,
        after,
        Blank::new(1),
    )
}

#[test]
fn deltas_through_a_unique_list(rt: HostRuntime) -> Result<(), Fail> {
    for (by_number, rows, before, told, after) in [
        // the shown element goes, and others of its class stay; then one that isn't shown; then the last one
        (
            false,
            [Row::Delete(10), Row::Keep(11), Row::Keep(12)].as_slice(),
            [10i64].as_slice(),
            [Told::Update(10, 11)].as_slice(),
            [11i64].as_slice(),
        ),
        (
            false,
            &[Row::Keep(10), Row::Delete(11), Row::Insert(12)],
            &[10],
            &[Told::Keep(1)],
            &[10],
        ),
        (false, &[Row::Delete(12)], &[12], &[Told::Delete(12)], &[]),
        // an element gets the key of another one, and stands first in its class
        (
            true,
            &[Row::Update(2, 1), Row::Keep(1)],
            &[1, 2],
            &[Told::Update(1, 1), Told::Delete(2)],
            &[1],
        ),
        // several changes in one class, between two others
        (
            true,
            &[
                Row::Keep(9),
                Row::Delete(7),
                Row::Update(7, 7),
                Row::Keep(7),
                Row::Insert(7),
                Row::Keep(3),
            ],
            &[3, 7, 9],
            &[Told::Keep(1), Told::Update(7, 7), Told::Keep(1)],
            &[3, 7, 9],
        ),
        // two keys go, one comes between them, and all elements of one change
        (
            true,
            &[
                Row::Update(5, 5),
                Row::Delete(4),
                Row::Keep(1),
                Row::Update(2, 3),
                Row::Keep(1),
            ],
            &[1, 2, 4, 5],
            &[
                Told::Keep(1),
                Told::Delete(2),
                Told::Delete(4),
                Told::Insert(3),
                Told::Update(5, 5),
            ],
            &[1, 3, 5],
        ),
        // empty lists
        (true, &[], &[], &[], &[]),
    ] {
        let change = change_of(rt.alloc(), rows)?;
        followed(&rt, rt.alloc(), by_number, &change, before, told, after)?;
    }
    Ok(())
}
