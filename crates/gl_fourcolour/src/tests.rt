use crate::{Memory, Runs};
use std::process::Abort;
use std::test::Fail;

#[test]
fn edits_and_questions(rt: HostRuntime) -> Result<(), Memory> {
    let mut runs = Runs::<4>::new(rt.alloc());
    runs.insert(0, 3, 5)?;
    assert_eq!(rt; runs.len(), 5);
    runs.paint(1, 2, 1)?;
    assert_eq!(rt; runs.len(), 5);
    runs.remove(0, 1);
    assert_eq!(rt; runs.len(), 4);
    for (at, colour) in [(0, 1), (1, 1), (2, 3), (3, 3)] {
        assert!(rt; at < runs.len());
        assert_eq!(rt; runs.colour(at), colour);
    }
    assert_eq!(rt; runs.rank(4, 0b0010), 2);
    assert_eq!(rt; runs.select(1, 0b1000), Some(3));
    assert_eq!(rt; runs.select(2, 0b1000), None);
    runs.reserve(2)?;
    runs.insert_reserved(4, 0, 1);
    assert_eq!(rt; runs.len(), 5);
    runs.paint_reserved(0, 1, 2);
    assert_eq!(rt; runs.len(), 5);
    for (at, colour) in [(0, 2), (1, 1), (2, 3), (3, 3), (4, 0)] {
        assert!(rt; at < runs.len());
        assert_eq!(rt; runs.colour(at), colour);
    }
    Ok(())
}

fn next(seed: u32) -> u32 {
    let a = seed ^ (seed << 13);
    let b = a ^ (a >> 17);
    b ^ (b << 5)
}

fn holds(runs: &Runs<4>, plain: &[u8]) -> bool {
    for (at, colour) in plain.iter().enumerate() {
        if at >= runs.len() || runs.colour(at) != *colour {
            return false;
        }
    }
    runs.len() == plain.len()
}

fn is_among(colour: u8, mask: u8) -> bool {
    colour < 4 && (mask >> colour) % 2 == 1
}

// Whether a list counts a set of colours before a place, and finds the next of them, as a plain one does.
fn counts(runs: &Runs<4>, plain: &[u8], at: usize, mask: u8) -> bool {
    if at > runs.len() || at > plain.len() {
        return false;
    }
    let before = plain[..at]
        .iter()
        .filter(|colour| is_among(**colour, mask))
        .count();
    let position = plain[at..]
        .iter()
        .position(|colour| is_among(*colour, mask));
    let all = plain
        .iter()
        .filter(|colour| is_among(**colour, mask))
        .count();
    runs.rank(at, mask) == before
        && runs.count(mask) == all
        && runs.select(before, mask) == position.map(|further| at + further)
}

// Puts `n` places of a colour in, and takes the room first.
fn insert(
    rt: &impl Abort,
    runs: &mut Runs<4>,
    plain: &mut Vec<u8>,
    at: usize,
    colour: u8,
    n: usize,
) -> Result<(), Fail> {
    plain.reserve(n)?;
    assert!(rt; at <= runs.len() && runs.len() < 100_000 && n < 10 && colour < 4);
    runs.insert(at, colour, n)?;
    for _ in 0..n {
        assert!(rt; at <= plain.len());
        plain.insert(at, colour)?;
    }
    Ok(())
}

fn paint(
    rt: &impl Abort,
    runs: &mut Runs<4>,
    plain: &mut Vec<u8>,
    at: usize,
    colour: u8,
    n: usize,
) -> Result<(), Fail> {
    assert!(rt; n < 10 && at < 100_000 && at + n <= runs.len() && colour < 4);
    runs.paint(at, n, colour)?;
    for position in at..at + n {
        assert!(rt; position < plain.len());
        plain[position] = colour;
    }
    Ok(())
}

fn remove(rt: &impl Abort, runs: &mut Runs<4>, plain: &mut Vec<u8>, at: usize, n: usize) {
    assert!(rt; n < 10 && at < 100_000 && at + n <= runs.len());
    runs.remove(at, n);
    for _ in 0..n {
        assert!(rt; at < plain.len());
        plain.remove(at);
    }
}

// One edit of both.
fn edit(rt: &impl Abort, runs: &mut Runs<4>, plain: &mut Vec<u8>, seed: u32) -> Result<(), Fail> {
    let len = plain.len();
    assert!(rt; len < 100_000);
    let at = (seed as usize / 1024) % (len + 1);
    let colour = (seed / 16 % 4) as u8;
    let n = seed as usize / 64 % 8;
    match seed % 8 {
        0..=2 => insert(rt, runs, plain, at, colour, n),
        3 | 4 => paint(rt, runs, plain, at, colour, n.min(len - at)),
        _ => {
            remove(rt, runs, plain, at, n.min(len - at));
            Ok(())
        }
    }
}

#[test]
fn agrees_with_a_vector(rt: HostRuntime) -> Result<(), Fail> {
    let mut runs = Runs::<4>::new(rt.alloc());
    let mut plain = Vec::new(rt.alloc());
    let mut seed = 2_463_534_242;
    for _ in 0..3000 {
        seed = next(seed);
        edit(&rt, &mut runs, &mut plain, seed)?;
        assert!(rt; holds(&runs, plain.as_slice()));
        let at = (seed as usize / 8) % (plain.len() + 1);
        assert!(rt; counts(&runs, plain.as_slice(), at, (seed % 16) as u8));
    }
    Ok(())
}

// Edits in memory that may fail at any allocation: one that fails leaves the list as it was.
#[test]
fn refusals_change_nothing(rt: HostRuntime) -> Result<(), Fail> {
    let mut runs = Runs::<4>::new(rt.alloc());
    let mut plain = Vec::with_capacity(rt.alloc(), 200)?;
    for k in 0..40u8 {
        assert!(rt; runs.len() < 100_000);
        let _more = runs.reserve_runs(k as usize);
        if runs.insert(runs.len() / 2, k % 4, 3).is_ok() {
            for _ in 0..3 {
                let middle = plain.len() / 2;
                plain.insert(middle, k % 4)?;
            }
        }
        assert!(rt; holds(&runs, plain.as_slice()));
    }
    Ok(())
}
