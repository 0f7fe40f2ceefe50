//! The touched keys, from the touched classes of both lists.

ghost use Rattle.std.specs.Prelude.{◌≡◌, length, IfOk};
ghost use Rattle.spec_sorting.specs.Leads.{LeadsTo, undone};
ghost use Rattle.gl_arranged.specs.Sorting.{order_cmp};
ghost use Rattle.spec_classes.specs.Slots.{slots};
ghost use Rattle.gl_classes.specs.Sides.{AreSides, AtTouched, Walks, HasMore, ArePassed, IsTold, AreMet, IsAhead, IsFewer, HasPlain, next_at, gap, alone, how_many, plain_first, old_first};
ghost use Rattle.gl_classes.specs.Stands.{StandsFor};

use crate::classes::Classes;
use crate::touched::Touched;
use gl_delta::Delta;
use gl_value::Shelf;
use spec_classes::{First, NewClass, OldClass, Slot};
use std::alloc::{AllocError, Global};

/// How far both lists were told: of how many classes of either, and of how many of the touched ones.
#[derive(Clone, Copy)]
pub(crate) struct Cursor {
    pub(crate) olds: usize,
    pub(crate) news: usize,
    pub(crate) gone: usize,
    pub(crate) came: usize,
}

// How many classes there are before the next touched one.
fn gap(touched: &[Touched], index: usize, class: usize) -> Option<usize>
    requires { IsAhead touched.now index class }
    ensures { result ≡ gap touched.now index class }
{
    match touched.get(index) {
        Some(next) => Some(next.class - class),
        None => None,
    }
}

// The lower one of the numbers that there are.
fn fewer(one: Option<usize>, other: Option<usize>) -> usize
    ensures { IsFewer one other result }
{
    match one {
        Some(one) => match other {
            Some(other) => { if one < other { one } else { other } }
            None => one,
        },
        None => match other {
            Some(other) => other,
            None => 0,
        },
    }
}

// Passes the classes that are kept before the next touched one.
fn pass<S: Shelf>(
    at: Cursor,
    classes: &Classes,
    input: &S,
    d: &Delta,
    olds: &[Touched],
    news: &[Touched],
) -> Cursor
    requires walks { Walks classes.now (S.items input.now) d.now.pieces olds.now news.now at }
    requires more { HasMore olds.now news.now at }
    ensures { ArePassed classes.now (S.items input.now) d.now.pieces olds.now news.now at result }
{
    let _ = input;
    let _olds = d.old_len();
    let _news = classes.len();
    let to_old = gap(olds, at.gone, at.olds);
    let to_new = gap(news, at.came, at.news);
    let kept = fewer(to_old, to_new);
    Cursor {
        olds: at.olds + kept,
        news: at.news + kept,
        gone: at.gone,
        came: at.came,
    }
}

// The next touched class, if no other one stands before it.
fn next_at(touched: &[Touched], index: usize, class: usize) -> Option<Touched>
    ensures { result ≡ next_at touched.now index class }
{
    match touched.get(index) {
        Some(next) => {
            if next.class == class {
                Some(*next)
            } else {
                None
            }
        }
        None => None,
    }
}

// The first changed member of a touched class that the other list has none of the key of.
fn alone(touched: Option<Touched>) -> Option<usize>
    ensures { result ≡ alone touched }
{
    match touched {
        Some(one) => { if one.stays { None } else { Some(one.source) } }
        None => None,
    }
}

// How many touched classes these are.
fn how_many(touched: Option<Touched>) -> usize
    ensures { result ≡ how_many touched }
{
    match touched {
        Some(_) => 1,
        None => 0,
    }
}

// The first member of a class of the new list that isn't changed, where its first member is this one.
fn plain_first(classes: &Classes, first: usize, came: Option<Touched>) -> usize
    requires { HasPlain (length classes.now.list.tree.places) came }
    ensures { result ≡ plain_first classes.now.list.tree.places first came }
{
    match came {
        Some(touched) => match touched.plain {
            Some(place) => classes.source_of(place),
            None => first,
        },
        None => first,
    }
}

// The first member of a class of the old list that meets one of the new list, whose first member is this one.
fn old_first(classes: &Classes, first: usize, gone: Option<Touched>, came: Option<Touched>) -> First
    requires { HasPlain (length classes.now.list.tree.places) came }
    ensures { result ≡ old_first classes.now.list.tree.places first gone came }
{
    match gone {
        Some(touched) => {
            if touched.first {
                First::Gone(touched.source)
            } else {
                First::Plain(plain_first(classes, first, came))
            }
        }
        None => First::Plain(plain_first(classes, first, came)),
    }
}

// The next touched key, of which both lists have a class.
fn met_slot<S: Shelf>(
    at: Cursor,
    classes: &Classes,
    input: &S,
    d: &Delta,
    olds: &[Touched],
    news: &[Touched],
    gone: Option<Touched>,
    came: Option<Touched>,
) -> (Slot, Cursor)
    requires walks { Walks classes.now (S.items input.now) d.now.pieces olds.now news.now at }
    requires met { AreMet olds.now news.now at gone came }
    ensures { IsTold classes.now (S.items input.now) d.now.pieces olds.now news.now at result.0
        result.1 }
{
    let _ = input;
    let _olds = d.old_len();
    let _news = classes.len();
    let _gone = olds.len();
    let _came = news.len();
    let first = match classes.find_first(at.news) {
        Some(first) => first,
        None => unreachable!(),
    };
    let old = OldClass {
        index: at.olds,
        first: old_first(classes, first, gone, came),
    };
    let new = NewClass {
        index: at.news,
        first,
    };
    let slot = Slot {
        old: Some(old),
        new: Some(new),
    };
    let next = Cursor {
        olds: at.olds + 1,
        news: at.news + 1,
        gone: at.gone + how_many(gone),
        came: at.came + how_many(came),
    };
    (slot, next)
}

// The next touched key, where no class that isn't touched stands before it; and how far the lists are told then.
fn next_slot<S: Shelf>(
    at: Cursor,
    classes: &Classes,
    input: &S,
    d: &Delta,
    olds: &[Touched],
    news: &[Touched],
) -> (Slot, Cursor)
    requires walks { Walks classes.now (S.items input.now) d.now.pieces olds.now news.now at }
    requires touched { AtTouched olds.now news.now at }
    ensures { IsTold classes.now (S.items input.now) d.now.pieces olds.now news.now at result.0
        result.1 }
{
    let _olds = d.old_len();
    let _news = classes.len();
    let _gone = olds.len();
    let _came = news.len();
    let gone = next_at(olds, at.gone, at.olds);
    let came = next_at(news, at.came, at.news);
    match alone(gone) {
        Some(first) => {
            let old = OldClass {
                index: at.olds,
                first: First::Gone(first),
            };
            let slot = Slot {
                old: Some(old),
                new: None,
            };
            let next = Cursor {
                olds: at.olds + 1,
                news: at.news,
                gone: at.gone + 1,
                came: at.came,
            };
            (slot, next)
        }
        None => match alone(came) {
            Some(first) => {
                let new = NewClass {
                    index: at.news,
                    first,
                };
                let slot = Slot {
                    old: None,
                    new: Some(new),
                };
                let next = Cursor {
                    olds: at.olds,
                    news: at.news + 1,
                    gone: at.gone,
                    came: at.came + 1,
                };
                (slot, next)
            }
            None => met_slot(at, classes, input, d, olds, news, gone, came),
        },
    }
}

/// The touched keys, in key order. It takes memory for them.
pub fn told_slots<S: Shelf>(
    alloc: Global,
    classes: &Classes,
    input: &S,
    d: &Delta,
    olds: &[Touched],
    news: &[Touched],
) -> Result<Vec<Slot>, AllocError>
    requires stands { StandsFor classes.now (S.items input.now) }
    requires leads { LeadsTo d.now.pieces (S.items input.now) }
    requires sides { AreSides (order_cmp classes.now.list.order)
        (undone d.now.pieces (S.items input.now)) (S.items input.now) d.now.pieces olds.now
        news.now }
    ensures { IfOk result (λ told. told.items
        ≡ slots (order_cmp classes.now.list.order) (undone d.now.pieces (S.items input.now)) d.now.pieces) }
{
    let mut out = Vec::new(alloc);
    let mut at = Cursor {
        olds: 0,
        news: 0,
        gone: 0,
        came: 0,
    };
    'slots: while at.gone < olds.len() || at.came < news.len() {
        let passed = pass(at, classes, input, d, olds, news);
        let (slot, next) = next_slot(passed, classes, input, d, olds, news);
        out.push(slot)?;
        at = next;
    }
    Ok(out)
}
