//! The classes that the changed elements of a list are in.

ghost use Rattle.std.specs.Prelude.{◌≡◌, ◌+◌, ◌<◌, ◌≤◌, List, length, IfOk, Some, slice_get};
ghost use Rattle.gl_classes.specs.Touching.{AreChangedIn, AreTouched, IsNext, IsEnd, IsRun, class_of};

use gl_arranged::Ranked;
use gl_barcode::Barcode;
use std::alloc::{AllocError, Global};

/// A class with a changed member.
#[derive(Clone, Copy)]
pub struct Touched {
    /// Its index in key order.
    pub class: usize,
    /// Where its first changed member stands in the list, and whether that is the first member of all.
    pub source: usize,
    pub first: bool,
    /// The sorted place of the first member that isn't changed, if there is one.
    pub plain: Option<usize>,
    /// Whether the other list has a class of its key. It has where a member isn't changed.
    pub stays: bool,
}

// The first sorted place from `start` on and before `end` that isn't one of the changed elements, which go on at `at`.
fn plain_from(ranked: &[Ranked], from: usize, start: usize, end: usize) -> Option<usize>
    requires { from ≤ length ranked.now }
    ensures { IsRun ranked.now from start end result }
{
    let mut at = from;
    let mut place = start;
    'run: while place < end {
        if at >= ranked.len() || ranked[at].place != place {
            return Some(place);
        }
        at += 1;
        place += 1;
    }
    None
}

// How many of the changed elements stand before a sorted place, of which so many do.
fn changed_before(ranked: &[Ranked], from: usize, place: usize) -> usize
    requires { from ≤ length ranked.now }
    ensures { IsEnd ranked.now from place result }
{
    let mut at = from;
    'passed: while at < ranked.len() && ranked[at].place < place {
        at += 1;
    }
    at
}

// The class of the next changed element, and how many of the changed elements stand before its end.
fn next_touched(firsts: &Barcode, ranked: &[Ranked], at: usize) -> (Touched, usize)
    requires more { at < length ranked.now }
    requires changed { AreChangedIn firsts.now.shown ranked.now }
    ensures { IsNext firsts.now.shown ranked.now at result.0 result.1 }
{
    let one = ranked[at];
    let class = firsts.rank(one.place + 1) - 1;
    let start = match firsts.select(class) {
        Some(start) => start,
        None => unreachable!(),
    };
    let end = match firsts.select(class + 1) {
        Some(end) => end,
        None => firsts.len(),
    };
    let plain = plain_from(ranked, at, start, end);
    let touched = Touched {
        class,
        source: one.source,
        first: start == one.place,
        plain,
        stays: plain.is_some(),
    };
    (touched, changed_before(ranked, at, end))
}

/// The classes that these elements are in, in key order.
pub fn find_touched(
    alloc: Global,
    firsts: &Barcode,
    ranked: &[Ranked],
) -> Result<Vec<Touched>, AllocError>
    requires { AreChangedIn firsts.now.shown ranked.now }
    ensures { IfOk result (λ touched. AreTouched firsts.now.shown ranked.now touched.items) }
{
    let mut out = Vec::new(alloc);
    let mut at = 0;
    'classes: while at < ranked.len() {
        let (one, next) = next_touched(firsts, ranked, at);
        out.push(one)?;
        at = next;
    }
    Ok(out)
}
