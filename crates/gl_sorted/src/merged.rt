//! What a sorted list tells of a change, from its changed elements in sorted order.

ghost use Rattle.std.specs.Prelude.{◌≡◌, ◌+◌, ◌<◌, length, drop, IfOk, OnOk};
ghost use Rattle.spec_sorting.specs.Piece.{normal};
ghost use Rattle.spec_sorting.specs.Leads.{undone};
ghost use Rattle.spec_sorting.specs.Ranked.{is_some_position};
ghost use Rattle.gl_sorted.specs.Merging.{CanMerge, merged_from};
ghost use Rattle.gl_sorted.specs.Next.{next_leaving, next_ranked, next_turn, IsLeft, GoesOn, AtChange, IsDeleteNext, IsInsertNext, IsUpdateNext};

use crate::leaving::Leaving;
use gl_arranged::{Ranked, old_value};
use gl_delta::{Cell, Delta};
use gl_kernel::{element, tell};
use gl_value::{Shelf, Value};
use std::alloc::{AllocError, Global};

/// How far both lists were told: of how many elements of either, in sorted order, and of how many of the changed ones.
#[derive(Clone, Copy)]
pub(crate) struct Told {
    olds: usize,
    news: usize,
    gone: usize,
    came: usize,
}

/// What is told next, once no more elements are kept.
#[derive(Clone, Copy)]
pub(crate) enum Turn {
    Delete,
    Update,
    Insert,
}

// Where the next changed element of the old list stands; the end, where there is none.
fn next_old(gone: &[Leaving], told: &Told, len: usize) -> usize
    ensures { result ≡ next_leaving len (drop told.now.gone gone.now) }
{
    match gone.get(told.gone) {
        Some(one) => one.place,
        None => len,
    }
}

// And of the new list.
fn next_new(came: &[Ranked], told: &Told, len: usize) -> usize
    ensures { result ≡ next_ranked len (drop told.now.came came.now) }
{
    match came.get(told.came) {
        Some(one) => one.place,
        None => len,
    }
}

// The elements that are kept before the next change.
fn pass<S: Shelf>(
    out: &mut Delta,
    told: &mut Told,
    input: &S,
    d: &Delta,
    gone: &[Leaving],
    came: &[Ranked],
) -> Result<(), AllocError>
    requires merge { CanMerge d.now.pieces (undone d.now.pieces (S.items input.now))
        (S.items input.now) gone.now came.now }
    requires left { IsLeft (undone d.now.pieces (S.items input.now)) (S.items input.now) gone.now
        came.now out.old.pieces told.old }
    ensures ok { OnOk result
        (GoesOn (undone d.now.pieces (S.items input.now)) (S.items input.now) gone.now came.now
        out.old.pieces told.old out.new.pieces told.new) }
    ensures gone { told.new.gone ≡ told.old.gone }
    ensures came { told.new.came ≡ told.old.came }
    ensures change { OnOk result
        (AtChange (undone d.now.pieces (S.items input.now)) (S.items input.now) gone.now came.now
        told.new) }
{
    let _ = input;
    let old = next_old(gone, told, d.old_len());
    let new = next_new(came, told, d.new_len());
    let kept = (old - told.olds).min(new - told.news);
    tell(out, Cell::Keep(kept))?;
    told.olds += kept;
    told.news += kept;
    Ok(())
}

// Whether the partner of an element stands at a place.
fn is_at(new: Option<usize>, place: usize) -> bool
    ensures { result ≡ is_some_position place new }
{
    match new {
        Some(new) => new == place,
        None => false,
    }
}

// What is told next.
fn next_turn(gone: &[Leaving], told: &Told) -> Turn
    ensures { result ≡ next_turn told.now.olds told.now.news (drop told.now.gone gone.now) }
{
    if told.gone >= gone.len() {
        return Turn::Insert;
    }
    let one = gone[told.gone];
    if one.place != told.olds {
        return Turn::Insert;
    }
    if !one.stays {
        return Turn::Delete;
    }
    if is_at(one.new, told.news) {
        Turn::Update
    } else {
        Turn::Insert
    }
}

// An element that goes.
fn tell_deleted<S: Shelf>(
    out: &mut Delta,
    told: &mut Told,
    input: &S,
    d: &Delta,
    gone: &[Leaving],
    came: &[Ranked],
) -> Result<(), AllocError>
    requires merge { CanMerge d.now.pieces (undone d.now.pieces (S.items input.now))
        (S.items input.now) gone.now came.now }
    requires left { IsLeft (undone d.now.pieces (S.items input.now)) (S.items input.now) gone.now
        came.now out.old.pieces told.old }
    requires next { IsDeleteNext gone.now told.old }
    ensures ok { OnOk result
        (GoesOn (undone d.now.pieces (S.items input.now)) (S.items input.now) gone.now came.now
        out.old.pieces told.old out.new.pieces told.new) }
    ensures further { OnOk result
        (told.new.gone + told.new.came ≡ told.old.gone + told.old.came + 1) }
{
    let _ = input;
    let _ = came;
    let _olds = d.old_len();
    let value = old_value(d, gone[told.gone].source);
    tell(out, Cell::Delete(value.copy()?))?;
    told.gone += 1;
    told.olds += 1;
    Ok(())
}

// An element that comes.
fn tell_inserted<S: Shelf>(
    out: &mut Delta,
    told: &mut Told,
    input: &S,
    d: &Delta,
    gone: &[Leaving],
    came: &[Ranked],
) -> Result<(), AllocError>
    requires merge { CanMerge d.now.pieces (undone d.now.pieces (S.items input.now))
        (S.items input.now) gone.now came.now }
    requires left { IsLeft (undone d.now.pieces (S.items input.now)) (S.items input.now) gone.now
        came.now out.old.pieces told.old }
    requires next { IsInsertNext gone.now came.now told.old }
    ensures ok { OnOk result
        (GoesOn (undone d.now.pieces (S.items input.now)) (S.items input.now) gone.now came.now
        out.old.pieces told.old out.new.pieces told.new) }
    ensures further { OnOk result
        (told.new.gone + told.new.came ≡ told.old.gone + told.old.came + 1) }
{
    let _ = gone;
    let _news = d.new_len();
    let value = element(input, came[told.came].source);
    tell(out, Cell::Insert(value.copy()?))?;
    told.came += 1;
    told.news += 1;
    Ok(())
}

// An element that stays.
fn tell_updated<S: Shelf>(
    out: &mut Delta,
    told: &mut Told,
    input: &S,
    d: &Delta,
    gone: &[Leaving],
    came: &[Ranked],
) -> Result<(), AllocError>
    requires merge { CanMerge d.now.pieces (undone d.now.pieces (S.items input.now))
        (S.items input.now) gone.now came.now }
    requires left { IsLeft (undone d.now.pieces (S.items input.now)) (S.items input.now) gone.now
        came.now out.old.pieces told.old }
    requires next { IsUpdateNext gone.now came.now told.old }
    ensures ok { OnOk result
        (GoesOn (undone d.now.pieces (S.items input.now)) (S.items input.now) gone.now came.now
        out.old.pieces told.old out.new.pieces told.new) }
    ensures further { OnOk result
        (told.new.gone + told.new.came ≡ told.old.gone + told.old.came + 2) }
{
    let _olds = d.old_len();
    let _news = d.new_len();
    let old = old_value(d, gone[told.gone].source);
    let new = element(input, came[told.came].source);
    tell(out, Cell::Update(old.copy()?, new.copy()?))?;
    told.gone += 1;
    told.came += 1;
    told.olds += 1;
    told.news += 1;
    Ok(())
}

// One change more, and the elements that are kept before it.
fn tell_next<S: Shelf>(
    out: &mut Delta,
    told: &mut Told,
    input: &S,
    d: &Delta,
    gone: &[Leaving],
    came: &[Ranked],
) -> Result<(), AllocError>
    requires merge { CanMerge d.now.pieces (undone d.now.pieces (S.items input.now))
        (S.items input.now) gone.now came.now }
    requires left { IsLeft (undone d.now.pieces (S.items input.now)) (S.items input.now) gone.now
        came.now out.old.pieces told.old }
    requires more { told.old.gone + told.old.came < length gone.now + length came.now }
    ensures ok { OnOk result
        (GoesOn (undone d.now.pieces (S.items input.now)) (S.items input.now) gone.now came.now
        out.old.pieces told.old out.new.pieces told.new) }
    ensures further { OnOk result (told.old.gone + told.old.came < told.new.gone + told.new.came) }
{
    pass(out, told, input, d, gone, came)?;
    match next_turn(gone, told) {
        Turn::Delete => tell_deleted(out, told, input, d, gone, came),
        Turn::Update => tell_updated(out, told, input, d, gone, came),
        Turn::Insert => tell_inserted(out, told, input, d, gone, came),
    }
}

/// What is told: elements that leave are deleted, those that come are inserted, and those that stay are updated.
pub(crate) fn merged<S: Shelf>(
    alloc: Global,
    input: &S,
    d: &Delta,
    gone: &[Leaving],
    came: &[Ranked],
) -> Result<Delta, AllocError>
    requires { CanMerge d.now.pieces (undone d.now.pieces (S.items input.now)) (S.items input.now)
        gone.now came.now }
    ensures { IfOk result (λ out. out.pieces
        ≡ normal (merged_from (undone d.now.pieces (S.items input.now)) (S.items input.now) gone.now 0 gone.now 0 came.now)) }
{
    let _news = d.new_len();
    let olds = d.old_len();
    let mut out = Delta::start(alloc);
    let mut told = Told {
        olds: 0,
        news: 0,
        gone: 0,
        came: 0,
    };
    while told.gone < gone.len() || told.came < came.len() {
        tell_next(&mut out, &mut told, input, d, gone, came)?;
    }
    tell(&mut out, Cell::Keep(olds - told.olds))?;
    Ok(out)
}
