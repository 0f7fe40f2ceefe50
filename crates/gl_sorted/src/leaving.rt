//! Which updated elements of a sorted list stay.

ghost use Rattle.std.specs.Prelude.{◌≡◌, ◌<◌, Some, length, map, slice_get, IfOk};
ghost use Rattle.gl_sorted.specs.Leaves.{ranks, leaving_of, prefix_one, greater, prefix_scanned, back_one, lesser, back_scanned, settled, AreFound};
ghost use Rattle.gl_arranged.specs.declared.changed.Ranked.{Ranked};

use gl_arranged::{Arrangement, Ranked};
use std::alloc::{AllocError, Global};

/// A deleted or updated element of the old list: its sorted place, its place in the list, the sorted place of its partner
/// in the new list where it was updated, and whether it stays there.
#[derive(Clone, Copy)]
pub(crate) struct Leaving {
    pub(crate) place: usize,
    pub(crate) source: usize,
    pub(crate) new: Option<usize>,
    pub(crate) stays: bool,
}

// An element, before which so many of the changed ones stand. It stays so far where as many plain pairs stand before it in
// the new order as in the old one.
fn candidate(list: &Arrangement, gone: &[Ranked], came: &[Ranked], index: usize) -> Leaving
    requires index { index < length gone.now }
    requires found { AreFound list.now.tree.places gone.now came.now }
    ensures { (r : Ranked) → slice_get gone.now index ≡ Some r
        → result ≡ leaving_of list.now.tree.places (ranks gone.now) (ranks came.now) r }
{
    let one = gone[index];
    let (new, stays) = match one.partner {
        Some(partner) => {
            let new = list.place_of(partner);
            let before = came.partition_point(|other| other.place < new);
            (Some(new), one.place + before == new + index)
        }
        None => (None, false),
    };
    Leaving {
        place: one.place,
        source: one.source,
        new,
        stays,
    }
}

// All of them, each with whether it stays so far.
fn candidates(
    alloc: Global,
    list: &Arrangement,
    gone: &[Ranked],
    came: &[Ranked],
) -> Result<Vec<Leaving>, AllocError>
    requires { AreFound list.now.tree.places gone.now came.now }
    ensures { IfOk result (λ all. all.items
        ≡ map (leaving_of list.now.tree.places (ranks gone.now) (ranks came.now)) gone.now) }
{
    let mut all = Vec::with_capacity(alloc, gone.len())?;
    for index in 0..gone.len() {
        all.push_reserved(candidate(list, gone, came, index));
    }
    Ok(all)
}

// An element stays only if it comes to stand after those that stood before it.
fn prefix_one(greatest: usize, one: Leaving) -> Leaving
    ensures { result ≡ prefix_one greatest one one.new }
{
    match one.new {
        Some(new) => Leaving {
            stays: one.stays && greatest <= new,
            ..one
        },
        None => one,
    }
}

fn greater(greatest: usize, new: Option<usize>) -> usize
    ensures { result ≡ greater greatest new }
{
    match new {
        Some(new) => greatest.max(new),
        None => greatest,
    }
}

// The scan from the left.
fn scan_prefix(leaving: &mut [Leaving])
    ensures { leaving.new ≡ prefix_scanned 0 leaving.old }
{
    let mut greatest = 0;
    for index in 0..leaving.len() {
        let one = leaving[index];
        leaving[index] = prefix_one(greatest, one);
        greatest = greater(greatest, one.new);
    }
}

// An element stays only if it comes to stand before those that stood after it.
fn back_one(least: usize, one: Leaving) -> Leaving
    ensures { result ≡ back_one least one one.new }
{
    match one.new {
        Some(new) => Leaving {
            stays: one.stays && new < least,
            ..one
        },
        None => one,
    }
}

fn lesser(least: usize, new: Option<usize>) -> usize
    ensures { result ≡ lesser least new }
{
    match new {
        Some(new) => new.min(least),
        None => least,
    }
}

// The scan from the right. All come to stand before `top`.
fn scan_back(leaving: &mut [Leaving], top: usize)
    ensures { leaving.new ≡ back_scanned top leaving.old }
{
    let mut least = top;
    let mut left = leaving.len();
    while left > 0 {
        left -= 1;
        let one = leaving[left];
        leaving[left] = back_one(least, one);
        least = lesser(least, one.new);
    }
}

/// The deleted and updated elements, with whether they stay. `list` is the new arrangement.
pub(crate) fn settle(
    alloc: Global,
    list: &Arrangement,
    gone: &[Ranked],
    came: &[Ranked],
) -> Result<Vec<Leaving>, AllocError>
    requires { AreFound list.now.tree.places gone.now came.now }
    ensures { IfOk result (λ all. all.items
        ≡ settled list.now.tree.places (length list.now.tree.places) gone.now came.now) }
{
    let mut leaving = candidates(alloc, list, gone, came)?;
    scan_prefix(leaving.as_mut_slice());
    scan_back(leaving.as_mut_slice(), list.len());
    Ok(leaving)
}
