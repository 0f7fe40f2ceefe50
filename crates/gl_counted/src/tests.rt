ghost use Rattle.std.specs.Prelude.{IsTrue, Contains};
ghost use Rattle.gl_counted.specs.Counted.{handles};

use crate::{Counted, Handle};
use std::process::Abort;
use std::test::Fail;

// Whether a handle is live, by a look at every place.
#[tactic(auto, using(crate::proofs::Held::Contains_from_get))]
fn is_live(list: &Counted<u32>, handle: Handle) -> bool
    ensures { IsTrue result → Contains (handles list.now.entries) handle }
{
    for position in 0..list.len() {
        if let Some(other) = list.at(position) {
            if other == handle {
                return true;
            }
        }
    }
    false
}

// The item at a place, by its handle.
#[tactic(auto, using(crate::proofs::Held::Contains_from_get))]
fn item_at(list: &Counted<u32>, position: usize) -> Option<u32> {
    let handle = list.at(position)?;
    Some(*list.item(handle))
}

fn holds(list: &Counted<u32>, items: &[u32]) -> bool {
    for (position, item) in items.iter().enumerate() {
        if item_at(list, position) != Some(*item) {
            return false;
        }
    }
    list.len() == items.len() && list.at(items.len()).is_none()
}

fn insert(
    rt: &impl Abort,
    list: &mut Counted<u32>,
    position: usize,
    item: u32,
) -> Result<Handle, &'static str> {
    assert!(rt; position <= list.len() && list.len() < 100000);
    list.insert_at(position, item)
        .map_err(|_failed| "no memory")
}

#[test]
fn handles_tell_positions(rt: HostRuntime) -> Result<(), Fail> {
    let mut list = Counted::new(rt.alloc());
    let a = insert(&rt, &mut list, 0, 10)?;
    let b = insert(&rt, &mut list, 0, 20)?;
    let c = insert(&rt, &mut list, 1, 30)?;
    assert!(rt; holds(&list, &[20, 30, 10]));
    assert!(rt; is_live(&list, a));
    assert_eq!(rt; list.place(a), 2);
    assert!(rt; is_live(&list, b));
    assert_eq!(rt; list.take(b), 20);
    assert!(rt; is_live(&list, a));
    assert_eq!(rt; list.place(a), 1);
    assert!(rt; list.at(2).is_none());
    list.reserve(1)?;
    let len = list.len();
    assert!(rt; len == 2);
    list.insert_reserved(2, 40);
    assert!(rt; holds(&list, &[30, 10, 40]));
    assert!(rt; is_live(&list, c));
    *list.item_mut(c) = 31;
    assert!(rt; holds(&list, &[31, 10, 40]));
    assert_eq!(rt; list.height(), 2);
    Ok(())
}

fn next(seed: u32) -> u32 {
    let a = seed ^ (seed << 13);
    let b = a ^ (a >> 17);
    b ^ (b << 5)
}

// One edit of both, an insert or a removal.
fn edit(
    rt: &impl Abort,
    list: &mut Counted<u32>,
    plain: &mut Vec<u32>,
    seed: u32,
) -> Result<(), Fail> {
    let len = list.len();
    assert!(rt; len == plain.len() && len < 100000);
    let position = (seed as usize / 8) % (len + 1);
    if seed % 8 < 5 || position == len {
        plain.insert(position, seed)?;
        insert(rt, list, position, seed)?;
    } else {
        let handle = list.at(position).ok_or("no handle")?;
        assert!(rt; is_live(list, handle));
        assert_eq!(rt; list.place(handle), position);
        assert!(rt; position < plain.len());
        assert_eq!(rt; list.take(handle), plain.remove(position));
    }
    Ok(())
}

#[test]
fn agrees_with_a_vector(rt: HostRuntime) -> Result<(), Fail> {
    let mut list = Counted::new(rt.alloc());
    let mut plain = Vec::new(rt.alloc());
    let mut seed = 2463534242;
    for _ in 0..2000 {
        seed = next(seed);
        edit(&rt, &mut list, &mut plain, seed)?;
        assert!(rt; holds(&list, plain.as_slice()));
    }
    Ok(())
}

// An insert of the next number, in memory that may fail at any allocation.
fn try_insert(rt: &impl Abort, list: &mut Counted<u32>, plain: &mut Vec<u32>, item: u32) {
    let len = list.len();
    assert!(rt; len == plain.len() && len < 100000);
    if plain.reserve(1).is_err() {
        return;
    }
    match list.insert_at(len / 2, item) {
        Ok(_) => {
            let pushed = plain.insert(len / 2, item);
            assert!(rt; pushed.is_ok());
        }
        Err((same, _)) => assert_eq!(rt; same, item),
    }
}

#[test]
fn refusals_change_nothing(rt: HostRuntime) {
    let mut list = Counted::new(rt.alloc());
    let mut plain = Vec::new(rt.alloc());
    for item in 0..40 {
        try_insert(&rt, &mut list, &mut plain, item);
        assert!(rt; holds(&list, plain.as_slice()));
    }
}
