ghost use Rattle.std.specs.Prelude.{◌≡◌, ◌<◌, ◌≤◌, length};
ghost use Rattle.spec_views.specs.Leads.{IsDelta};

use crate::Function;
use gl_delta::Find;
use gl_lang::{Func, Path};
use gl_testing::{Change, Row, Told, change_of, is_number, tells};
use gl_value::Steps;
use std::alloc::{AllocError, Global};
use std::marker::Brand;
use std::sync::ledger::{Blank, Ledger};
use std::test::Fail;

fn finds(list: &Function, position: usize, n: i64) -> bool {
    match list.find(position) {
        Some(Find::Own(v)) => is_number(v, n),
        _ => false,
    }
}

fn shows(list: &Function, shown: &[i64]) -> bool {
    for position in 0..shown.len() {
        if !finds(list, position, shown[position]) {
            return false;
        }
    }
    list.len() == shown.len() && list.find(shown.len()).is_none()
}

// The function that adds a number.
fn plus(alloc: Global, n: i64) -> Result<Func, AllocError> {
    let itself = Box::new(alloc, Func::at(Path::new(alloc)))?;
    Ok(Func::add(itself, Box::new(alloc, Func::num(n))?))
}

fn follows<L: Ledger>(
    alloc: Global,
    change: &Change,
    told: &[Told],
    shown: (&[i64], &[i64]),
    blank: Blank,
) -> Result<bool, AllocError>
    requires delta { IsDelta change.now.delta.pieces change.now.before change.now.after }
    requires few { length change.now.before ≤ 2147483647 }
    requires name { blank.name ≡ L.name }
    requires parts { blank.parts ≡ L.parts }
    requires some { 0 < blank.parts }
{
    let mut steps: Steps<L> = Steps::new(blank);
    let mut list = Function::make(alloc, plus(alloc, 10)?, &change.before, &mut steps)?;
    let opened = shows(&list, shown.0);
    let (out, undo) = list.advance(&change.after, &change.delta, &mut steps)?;
    let followed = tells(&out, told) && shows(&list, shown.1);
    list.retreat(undo);
    Ok(opened && followed && shows(&list, shown.0))
}

/// A change of the list, what is told where the function adds 10, and what is shown before and after it.
const FOLLOWED: [(&[Row], &[Told], &[i64], &[i64]); 6] = [
    (
        &[
            Row::Keep(1),
            Row::Update(2, 7),
            Row::Delete(3),
            Row::Insert(9),
            Row::Keep(4),
            Row::Keep(5),
        ],
        &[
            Told::Keep(1),
            Told::Update(12, 17),
            Told::Delete(13),
            Told::Insert(19),
            Told::Keep(2),
        ],
        &[11, 12, 13, 14, 15],
        &[11, 17, 19, 14, 15],
    ),
    (
        &[Row::Insert(5), Row::Insert(6), Row::Delete(1)],
        &[Told::Delete(11), Told::Insert(15), Told::Insert(16)],
        &[11],
        &[15, 16],
    ),
    (
        &[Row::Update(5, 5), Row::Keep(5)],
        &[Told::Update(15, 15), Told::Keep(1)],
        &[15, 15],
        &[15, 15],
    ),
    (
        &[Row::Delete(1), Row::Delete(2)],
        &[Told::Delete(11), Told::Delete(12)],
        &[11, 12],
        &[],
    ),
    (&[Row::Insert(3)], &[Told::Insert(13)], &[], &[13]),
    (&[], &[], &[], &[]),
];

#[test]
fn changes_of_the_list(rt: HostRuntime) -> Result<(), Fail> {
    for (rows, told, before, after) in FOLLOWED {
        let change = change_of(rt.alloc(), rows)?;
        assert!(rt; change.before.len() < 100);
        let right = follows::<Brand>(rt.alloc(), &change, told, (before, after), Blank::new(1))?;
        assert!(rt; right);
    }
    Ok(())
}
