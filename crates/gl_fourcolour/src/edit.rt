// Edits of maximal runs, by the places of the colours that they stand for. None makes more runs on
// the way than it leaves, so that none needs more room than its outcome.
ghost use Rattle.std.specs.Prelude.{◌≡◌, ◌+◌, ◌^◌, ◌<◌, ◌≤◌, List, ◌∷◌, ◌++◌, length, Some};
ghost use Rattle.gl_fourcolour.specs.Rows.{expanded, IsMaximal, IsSpot, CanPut, Puts, CanCut, Cuts};
ghost use Rattle.gl_fourcolour.specs.Edits.{SomeBetween, SomeRun, SomeGap, TakesOut};
ghost use Rattle.gl_fourcolour.specs.declared.run.Run.{Run};

use crate::counts::{Mask, total};
use crate::row::RunRow;
use crate::run::{Run, joined, run_if};

/// Where a place stands among the runs.
#[derive(Clone, Copy)]
pub(crate) struct Spot {
    /// The place of its run in the list of runs, or their number past the last place.
    pub(crate) position: usize,
    /// The first place of that run.
    pub(crate) start: usize,
    pub(crate) run: Option<Run>,
}

/// Finds the run that has a place.
pub(crate) fn locate<const C: usize>(row: &RunRow, at: usize) -> Spot
    requires few_colours { C ≤ 4 }
    requires maximal { IsMaximal C row.now.runs }
    requires small { length (expanded row.now.runs) < 2 ^ 32 }
    ensures { IsSpot row.now.runs at result.position result.start result.run }
{
    let found = row.find(Mask::all(), at);
    Spot {
        position: found.position,
        start: total(found.before),
        run: found.run,
    }
}

/// Puts a run in at a place.
pub(crate) fn put<const C: usize>(row: &mut RunRow, at: usize, run: Run)
    requires { CanPut C row.old at run }
    ensures { Puts C row.old row.new at run }
{
    let spot = locate::<C>(row, at);
    match spot.run {
        Some(here) => {
            if spot.start < at {
                put_within::<C>(row, at, spot, here, run);
                return;
            }
            put_between::<C>(row, at, spot, run);
        }
        None => put_between::<C>(row, at, spot, run),
    }
}

// Puts a run in after the first place of another: that one grows, or is split.
fn put_within<const C: usize>(row: &mut RunRow, at: usize, spot: Spot, here: Run, run: Run)
    requires can { CanPut C row.old at run }
    requires spot { IsSpot row.old.runs at spot.position spot.start (Some here) }
    requires within { spot.start < at }
    ensures { Puts C row.old row.new at run }
{
    if here.colour == run.colour {
        let whole = Run {
            colour: here.colour,
            len: here.len + run.len,
        };
        row.set(spot.position, whole);
        return;
    }
    let left = Run {
        colour: here.colour,
        len: at - spot.start,
    };
    let right = Run {
        colour: here.colour,
        len: here.len - left.len,
    };
    row.set(spot.position, left);
    row.insert(spot.position + 1, run);
    row.insert(spot.position + 2, right);
}

// Puts a run in where another starts, or past the last: that one grows if it has the colour.
fn put_between<const C: usize>(row: &mut RunRow, at: usize, spot: Spot, run: Run)
    requires can { CanPut C row.old at run }
    requires spot { IsSpot row.old.runs at spot.position spot.start spot.run }
    requires starts { spot.start ≡ at }
    ensures { Puts C row.old row.new at run }
{
    let Some(here) = run_if(spot.run, run.colour) else {
        put_after::<C>(row, at, spot.position, run);
        return;
    };
    let whole = Run {
        colour: here.colour,
        len: here.len + run.len,
    };
    row.set(spot.position, whole);
}

// Puts a run in before one of another colour: the run before it grows if it has the colour.
fn put_after<const C: usize>(row: &mut RunRow, at: usize, position: usize, run: Run)
    requires can { CanPut C row.old at run }
    requires between { SomeBetween row.old.runs at position run.colour }
    ensures { Puts C row.old row.new at run }
{
    let Some(before) = run_if(row.before(position), run.colour) else {
        row.insert(position, run);
        return;
    };
    let whole = Run {
        colour: before.colour,
        len: before.len + run.len,
    };
    row.set(position - 1, whole);
}

/// Takes `n` places out.
pub(crate) fn clear<const C: usize>(row: &mut RunRow, at: usize, n: usize)
    requires { CanCut C row.old at n }
    ensures { Cuts C row.old row.new at n }
{
    let mut left = n;
    while left > 0 {
        left -= cut::<C>(row, at, left);
    }
}

// Takes up to `n` places out of the run that has this place, and returns how many.
fn cut<const C: usize>(row: &mut RunRow, at: usize, n: usize) -> usize
    requires can { CanCut C row.old at n }
    requires some { 1 ≤ n }
    ensures some { 1 ≤ result }
    ensures few { result ≤ n }
    ensures cuts { Cuts C row.old row.new at result }
{
    let spot = locate::<C>(row, at);
    match spot.run {
        Some(here) => cut_run::<C>(row, at, spot, here, n),
        None => unreachable!(),
    }
}

// The same where that run is known: it gets shorter, or goes.
fn cut_run<const C: usize>(row: &mut RunRow, at: usize, spot: Spot, here: Run, n: usize) -> usize
    requires can { CanCut C row.old at n }
    requires some { 1 ≤ n }
    requires spot { IsSpot row.old.runs at spot.position spot.start (Some here) }
    ensures some { 1 ≤ result }
    ensures few { result ≤ n }
    ensures cuts { Cuts C row.old row.new at result }
{
    let taken = n.min(here.len - (at - spot.start));
    if taken < here.len {
        let shorter = Run {
            colour: here.colour,
            len: here.len - taken,
        };
        row.set(spot.position, shorter);
        return taken;
    }
    take_out::<C>(row, spot.position);
    taken
}

// Takes a whole run out, and makes its neighbours one run if they have one colour.
fn take_out<const C: usize>(row: &mut RunRow, position: usize)
    requires { SomeRun C row.old.runs position }
    ensures { (prefix back : List Run) (r : Run) → row.old.runs ≡ prefix ++ r ∷ back
        → position ≡ length prefix → TakesOut C row.old row.new prefix back }
{
    row.remove(position);
    close_gap::<C>(row, position);
}

// Makes the runs before and after a gap one run if they have one colour.
fn close_gap<const C: usize>(row: &mut RunRow, position: usize)
    requires { SomeGap C row.old.runs position }
    ensures { (prefix back : List Run) (r : Run) → row.old.runs ≡ prefix ++ back
        → IsMaximal C (prefix ++ r ∷ back) → position ≡ length prefix
        → TakesOut C row.old row.new prefix back }
{
    let Some(whole) = joined(row.before(position), row.get(position)) else {
        return;
    };
    row.set(position - 1, whole);
    row.remove(position);
}
