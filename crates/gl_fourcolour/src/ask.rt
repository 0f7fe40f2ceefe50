// Questions about the colours that maximal runs stand for, each one descent.
ghost use Rattle.std.specs.Prelude.{◌≡◌, ◌<◌, ◌≤◌, length, take, slice_index, MatchOption};
ghost use Rattle.gl_fourcolour.specs.Colours.{count_among, IsKth};
ghost use Rattle.gl_fourcolour.specs.Rows.{expanded, IsKept};

use crate::counts::{Mask, total};
use crate::edit::locate;
use crate::row::RunRow;
use gl_ranktree::Measure;

/// The colour of a place.
pub(crate) fn colour<const C: usize>(row: &RunRow, at: usize) -> u8
    requires kept { IsKept C row.now }
    requires in_range { at < length (expanded row.now.runs) }
    ensures { result ≡ slice_index (expanded row.now.runs) at }
{
    match locate::<C>(row, at).run {
        Some(here) => here.colour,
        None => unreachable!(),
    }
}

/// How many places before a place have a colour of the set.
pub(crate) fn rank<const C: usize>(row: &RunRow, at: usize, mask: Mask) -> usize
    requires kept { IsKept C row.now }
    requires in_range { at ≤ length (expanded row.now.runs) }
    ensures { result ≡ count_among mask.bits (take at (expanded row.now.runs)) }
{
    let found = row.find(Mask::all(), at);
    let before = mask.of(found.before);
    match found.run {
        Some(here) => {
            let within = at - total(found.before);
            before + mask.part(here.colour, within)
        }
        None => before,
    }
}

/// The place of the k-th place, counted from zero, that has a colour of the set.
pub(crate) fn select<const C: usize>(row: &RunRow, k: usize, mask: Mask) -> Option<usize>
    requires { IsKept C row.now }
    ensures { MatchOption result (count_among mask.bits (expanded row.now.runs) ≤ k)
        (IsKth mask.bits k (expanded row.now.runs)) }
{
    let found = row.find(mask, k);
    match found.run {
        Some(_) => {
            let within = k - mask.of(found.before);
            Some(total(found.before) + within)
        }
        None => None,
    }
}
