use crate::{Shelf, Text, TextFault, Value, ValueShape, Values};
use std::alloc::{AllocError, Global};
use std::test::Fail;

fn added(list: &mut Values, v: Value) -> Result<(), AllocError> {
    match list.push(v) {
        Ok(()) => Ok(()),
        Err((_, e)) => Err(e),
    }
}

// A number inside as many lists.
fn nested(alloc: Global, levels: usize) -> Result<Value, AllocError> {
    let mut value = Value::num(1);
    for _ in 0..levels {
        let mut list = Values::new(alloc);
        added(&mut list, value)?;
        value = Value::items(list);
    }
    Ok(value)
}

fn number_at(list: &[Value], position: usize) -> Option<i64> {
    match list.get(position)?.shape() {
        ValueShape::Num(n) => Some(n),
        _ => None,
    }
}

fn valid_of(alloc: Global, bytes: &[u8]) -> Option<usize> {
    match Text::from_utf8(alloc, bytes) {
        Err(TextFault::NotUtf8 { valid }) => Some(valid),
        _ => None,
    }
}

#[test]
fn texts(rt: HostRuntime) -> Result<(), Fail> {
    let text = Text::from_utf8(rt.alloc(), "crème".as_bytes())?;
    assert_eq!(rt; text.bytes(), "crème".as_bytes());
    assert_eq!(rt; text.copy()?.bytes(), text.bytes());
    assert_eq!(rt; valid_of(rt.alloc(), b"ab\xc3"), Some(2));
    assert_eq!(rt; valid_of(rt.alloc(), b"\xff"), Some(0));
    assert_eq!(rt; valid_of(rt.alloc(), b"a\xed\xa0\x80"), Some(1));
    Ok(())
}

#[test]
fn a_shared_list_is_copied_when_it_grows(rt: HostRuntime) -> Result<(), Fail> {
    let mut list = Values::new(rt.alloc());
    for n in 0..3i64 {
        added(&mut list, Value::num(n))?;
    }
    assert_eq!(rt; list.len(), 3);
    let before = list.copy()?;
    added(&mut list, nested(rt.alloc(), 1)?)?;
    assert_eq!(rt; (before.len(), list.len()), (3, 4));
    assert_eq!(rt; number_at(list.as_slice(), 2), Some(2));
    assert_eq!(rt; number_at(list.as_slice(), 3), None);
    Ok(())
}

// As deep as a value of a running pipeline may be.
#[test]
fn deep_values_are_compared_copied_and_dropped(rt: HostRuntime) -> Result<(), Fail> {
    let value = nested(rt.alloc(), 64 + 256 * 8)?;
    let other = nested(rt.alloc(), 64 + 256 * 8)?;
    let copy = value.copy()?;
    assert!(rt; value.same(&other));
    drop(value);
    drop(other);
    assert_eq!(rt; copy.elements().len(), 1);
    Ok(())
}

fn text(alloc: Global, s: &str) -> Result<Value, TextFault> {
    Ok(Value::text(Text::from_utf8(alloc, s.as_bytes())?))
}

fn numbers(alloc: Global, items: &[i64]) -> Result<Value, AllocError> {
    let mut list = Values::new(alloc);
    for n in items {
        added(&mut list, Value::num(*n))?;
    }
    Ok(Value::items(list))
}

#[test]
fn values_in_order(rt: HostRuntime) -> Result<(), Fail> {
    let alloc = rt.alloc();
    let rising = [
        Value::num(i64::MIN),
        Value::num(-1),
        Value::num(0),
        text(alloc, "")?,
        text(alloc, "a")?,
        text(alloc, "ab")?,
        text(alloc, "b")?,
        Value::empty(),
        numbers(alloc, &[1])?,
        numbers(alloc, &[1, 0])?,
        numbers(alloc, &[2])?,
    ];
    for (i, a) in rising.iter().enumerate() {
        for (j, b) in rising.iter().enumerate() {
            assert_eq!(rt; Value::cmp(a, b), i.cmp(&j), "{i} {j}");
        }
    }
    Ok(())
}

#[test]
fn shelves_are_lists(rt: HostRuntime) -> Result<(), Fail> {
    let list = numbers(rt.alloc(), &[7, 8])?;
    let shelf = list.elements();
    assert_eq!(rt; Shelf::len(&shelf), 2);
    assert!(rt; Shelf::get(&shelf, 2).is_none());
    assert!(rt; Shelf::get(&shelf, 1).is_some());
    Ok(())
}
