ghost use Rattle.std.specs.Prelude.{◌≡◌, ◌+◌, ◌++◌, ◌^◌, ◌<◌, ◌≤◌, ◌↔◌, [], length, take, replicate, insert, remove, slice_get, slice_set, Some, OnOk, OnErr, IsSome, IfSome};
ghost use Rattle.gl_barcode.specs.Bars.{count_shown, count_hidden, spare, HasRoom, IsKthShown, IsKthHidden};
ghost use Rattle.gl_barcode.specs.Held.{colour_of};

use gl_fourcolour::Runs;
use std::alloc::{AllocError, Global};
use std::marker::Model;

// The set of the one colour that is shown.
const SHOWN: u8 = 0b10;

// The set of the one colour that is hidden.
const HIDDEN: u8 = 0b01;

/// A list that says of each place whether it is shown: the Barcode of Glazed Lists.
///
/// All calls but `reserve` take time logarithmic in the number of stretches of shown and of hidden places.
#[derive(Drop)]
pub struct Barcode {
    runs: Runs<2>,
}

impl Model for Barcode {
    ghost use Rattle.gl_barcode.specs.Bars.{Bars};

    ghost Value = { Bars };

    ghost use Rattle.gl_fourcolour.specs.Colours.{AllBelow};
    ghost use Rattle.gl_barcode.specs.Held.{shown_of};

    ghost view = { λ b. record { shown = shown_of b.runs.colours; room = b.runs.room } };

    ghost invariant = { λ b. AllBelow 2 b.runs.colours };
}

// The colour of a place.
fn colour_of(shown: bool) -> u8
    ensures { result ≡ colour_of shown }
{
    if shown { 1 } else { 0 }
}

impl Barcode {
    /// No places. It takes no memory until the first edit or reserve.
    pub fn new(alloc: Global) -> Barcode
        ensures empty { result.shown ≡ [] }
        ensures no_room { result.room ≡ 0 }
    {
        Barcode {
            runs: Runs::<2>::new(alloc),
        }
    }

    /// The number of places, in constant time.
    pub fn len(&self) -> usize
        ensures { result ≡ length self.now.shown }
    {
        self.runs.len()
    }

    /// The number of places that are shown.
    pub fn shown_len(&self) -> usize
        ensures { result ≡ count_shown self.now.shown }
    {
        self.runs.rank(self.runs.len(), SHOWN)
    }

    /// Whether a place is shown.
    pub fn shown(&self, position: usize) -> bool
        requires { position < length self.now.shown }
        ensures { slice_get self.now.shown position ≡ Some result }
    {
        self.runs.colour(position) == 1
    }

    /// How many places before this one are shown.
    pub fn rank(&self, position: usize) -> usize
        requires { position ≤ length self.now.shown }
        ensures { result ≡ count_shown (take position self.now.shown) }
    {
        self.runs.rank(position, SHOWN)
    }

    /// The place that is shown and has k shown places before it, `None` where no more than k are shown.
    pub fn select(&self, k: usize) -> Option<usize>
        ensures some { IsSome result ↔ (k < count_shown self.now.shown) }
        ensures position { IfSome result (IsKthShown k self.now.shown) }
    {
        self.runs.select(k, SHOWN)
    }

    /// The place that is hidden and has k hidden places before it, `None` where no more than k are hidden.
    pub fn select_hidden(&self, k: usize) -> Option<usize>
        ensures some { IsSome result ↔ (k < count_hidden self.now.shown) }
        ensures position { IfSome result (IsKthHidden k self.now.shown) }
    {
        self.runs.select(k, HIDDEN)
    }

    /// Makes room for so many edits, which then take no memory.
    pub fn reserve(&mut self, edits: usize) -> Result<(), AllocError>
        ensures ok { OnOk result (edits ≤ spare self.new) }
        ensures shown { self.new.shown ≡ self.old.shown }
        ensures room { self.old.room ≤ self.new.room }
    {
        self.runs.reserve(edits)
    }

    /// Puts a place in. It takes memory where there is no room.
    pub fn insert(&mut self, at: usize, shown: bool) -> Result<(), AllocError>
        requires in_range { at ≤ length self.old.shown }
        requires small { length self.old.shown + 1 < 2 ^ 32 }
        ensures ok { OnOk result (self.new.shown ≡ insert self.old.shown at shown) }
        ensures err { OnErr result (self.new.shown ≡ self.old.shown) }
        ensures room { self.old.room ≤ self.new.room }
    {
        self.reserve(1)?;
        self.insert_reserved(at, shown);
        Ok(())
    }

    /// Puts so many places in at the end, all shown or all hidden, in one edit. It takes memory where there is no room.
    pub fn append(&mut self, shown: bool, n: usize) -> Result<(), AllocError>
        requires { length self.old.shown + n < 2 ^ 32 }
        ensures ok { OnOk result (self.new.shown ≡ self.old.shown ++ replicate n shown) }
        ensures err { OnErr result (self.new.shown ≡ self.old.shown) }
        ensures room { self.old.room ≤ self.new.room }
    {
        let end = self.runs.len();
        self.runs.insert(end, colour_of(shown), n)?;
        Ok(())
    }

    /// Shows or hides a place. It takes memory where there is no room.
    pub fn set(&mut self, at: usize, shown: bool) -> Result<(), AllocError>
        requires { at < length self.old.shown }
        ensures ok { OnOk result (self.new.shown ≡ slice_set self.old.shown at shown) }
        ensures err { OnErr result (self.new.shown ≡ self.old.shown) }
        ensures room { self.old.room ≤ self.new.room }
    {
        self.reserve(1)?;
        self.set_reserved(at, shown);
        Ok(())
    }

    /// Takes a place out. It takes no memory.
    pub fn remove(&mut self, at: usize)
        requires { at < length self.old.shown }
        ensures shown { self.new.shown ≡ remove self.old.shown at }
        ensures spare { spare self.old ≤ spare self.new }
        ensures room { self.new.room ≡ self.old.room }
    {
        self.runs.remove(at, 1);
    }

    /// Puts a place in, in room that was reserved. It takes no memory.
    pub fn insert_reserved(&mut self, at: usize, shown: bool)
        requires in_range { at ≤ length self.old.shown }
        requires small { length self.old.shown + 1 < 2 ^ 32 }
        requires has_room { HasRoom self.old (insert self.old.shown at shown) }
        ensures shown { self.new.shown ≡ insert self.old.shown at shown }
        ensures spare { spare self.old ≤ spare self.new + 1 }
        ensures room { self.new.room ≡ self.old.room }
    {
        self.runs.insert_reserved(at, colour_of(shown), 1);
    }

    /// Shows or hides a place, in room that was reserved. It takes no memory.
    pub fn set_reserved(&mut self, at: usize, shown: bool)
        requires in_range { at < length self.old.shown }
        requires has_room { HasRoom self.old (slice_set self.old.shown at shown) }
        ensures shown { self.new.shown ≡ slice_set self.old.shown at shown }
        ensures spare { spare self.old ≤ spare self.new + 1 }
        ensures room { self.new.room ≡ self.old.room }
    {
        self.runs.paint_reserved(at, 1, colour_of(shown));
    }
}
