//! The colours of pieces turned round, in place: between two pairs the deletions become insertions and the other way.

ghost use Rattle.std.specs.Prelude.{◌≡◌, ◌<◌, ◌≤◌, ◌*◌, ◌-◌, ◌++◌, ℕ, List, length};
ghost use Rattle.gl_fourcolour.specs.Colours.{count_among};
ghost use Rattle.gl_delta.specs.DependencyOrder.{inverse_colours, InOrder, Reached, Turning};

use crate::mark::DELETED;
use gl_fourcolour::Runs;

const INSERTED: u8 = 3;

// The sets of the deleted pieces alone, of those that have no partner, and of those that have one.
const DELETIONS: u8 = 0b0100;

const LONE: u8 = 0b1100;

const PAIRED: u8 = 0b0011;

/// Turns all colours round. It takes no memory, and a few steps for each stretch of deletions and insertions.
pub(crate) fn turn(colours: &mut Runs<4>)
    requires ordered { InOrder colours.old.colours }
    requires room { 2 * count_among 14 colours.old.colours ≤ colours.old.room - 1 }
    ensures colours { colours.new.colours ≡ inverse_colours colours.old.colours }
    ensures room { colours.new.room ≡ colours.old.room }
{
    let mut at = 0;
    'gaps: while at < colours.len() {
        at = turn_gap(colours, at);
    }
}

// Turns the first gap from a place on, and answers the place after it.
fn turn_gap(colours: &mut Runs<4>, at: usize) -> usize
    requires turning { (start : List ℕ) × Turning start colours.old at }
    requires more { at < length colours.old.colours }
    ensures turning { (start : List ℕ) → Turning start colours.old at
        → Turning start colours.new result }
    ensures goes { at < result }
    ensures within { result ≤ length colours.new.colours }
    ensures len { length colours.new.colours ≡ length colours.old.colours }
    ensures room { colours.new.room ≡ colours.old.room }
{
    let _below = colours.len();
    let start = next(colours, at, LONE);
    let end = next(colours, start, PAIRED);
    if start == end {
        return end;
    }
    let deleted = colours.rank(end, DELETIONS) - colours.rank(start, DELETIONS);
    let inserted = end - start - deleted;
    if deleted < inserted {
        colours.paint_reserved(start + deleted, inserted - deleted, DELETED);
    } else {
        colours.paint_reserved(start + inserted, deleted - inserted, INSERTED);
    }
    end
}

// The first place of a set from a place on, or the end.
fn next(colours: &Runs<4>, from: usize, set: u8) -> usize
    requires { from ≤ length colours.now.colours }
    ensures within { result ≤ length colours.now.colours }
    ensures reached { (prefix rest : List ℕ) → colours.now.colours ≡ prefix ++ rest
        → from ≡ length prefix → Reached set prefix rest result }
{
    match colours.select(colours.rank(from, set), set) {
        Some(position) => position,
        None => colours.len(),
    }
}
