ghost use Rattle.std.specs.Prelude.{◌≡◌, ℕ, ◌+◌, ◌*◌, ◌^◌, ◌<◌, ◌≤◌, ◌↔◌, [], length, take, slice_index, OnOk, OnErr, IsSome, IfSome};
ghost use Rattle.gl_fourcolour.specs.Colours.{inserted, painted, removed, run_count, count_among, spare, HasRoom, IsKth, AllBelow};

use crate::ask;
use crate::counts::Mask;
use crate::edit::{clear, put};
use crate::row::RunRow;
use crate::run::Run;
use std::alloc::{AllocError, Global};
use std::marker::Model;

/// A list of `C` colours, the numbers from 0 on, kept as a balanced tree of its runs of one colour.
///
/// A set of colours is a mask: bit number k stands for colour k. It is the four-colour tree of
/// Glazed Lists. All calls but `reserve` and `reserve_runs` take time logarithmic in the number of runs; `remove` and
/// `paint` take that for each run that they cover.
#[derive(Drop)]
pub struct Runs<const C: usize> {
    row: RunRow,
}

impl<const C: usize> Model for Runs<C> {
    ghost use Rattle.gl_fourcolour.specs.Colours.{Colours};

    ghost Value = { Colours };

    ghost use Rattle.gl_fourcolour.specs.Rows.{expanded, IsKept};

    ghost view = { λ r. record { colours = expanded r.row.runs; room = r.row.room } };

    ghost invariant = { λ r. IsKept C r.row };
}

impl<const C: usize> Runs<C> {
    /// An empty list, which takes no memory until the first edit or reserve.
    pub fn new(alloc: Global) -> Runs<C>
        requires at_least { 2 ≤ C }
        requires at_most { C ≤ 4 }
        ensures empty { result.colours ≡ [] }
        ensures no_room { result.room ≡ 0 }
    {
        Runs {
            row: RunRow::new(alloc),
        }
    }

    /// The number of places, in constant time.
    pub fn len(&self) -> usize
        ensures value { result ≡ length self.now.colours }
        ensures small { result < 2 ^ 32 }
        ensures colours { AllBelow C self.now.colours }
    {
        self.row.positions()
    }

    /// The number of levels of the tree: at most twice the binary digits of the number of runs.
    pub fn height(&self) -> usize
        ensures deep { run_count self.now.colours < 2 ^ result }
        ensures shallow { (digits : ℕ) → run_count self.now.colours < 2 ^ digits
            → result ≤ 2 * digits }
    {
        self.row.height()
    }

    /// The colour of a place.
    pub fn colour(&self, at: usize) -> u8
        requires { at < length self.now.colours }
        ensures { result ≡ slice_index self.now.colours at }
    {
        ask::colour::<C>(&self.row, at)
    }

    /// How many places have a colour of the set, in constant time.
    pub fn count(&self, colours: u8) -> usize
        ensures { result ≡ count_among colours self.now.colours }
    {
        self.row.weight(Mask { bits: colours })
    }

    /// How many places before `at` have a colour of the set.
    pub fn rank(&self, at: usize, colours: u8) -> usize
        requires { at ≤ length self.now.colours }
        ensures { result ≡ count_among colours (take at self.now.colours) }
    {
        ask::rank::<C>(&self.row, at, Mask { bits: colours })
    }

    /// The place that has a colour of the set and k such places before it, `None` where there are no more than k.
    pub fn select(&self, k: usize, colours: u8) -> Option<usize>
        ensures some { IsSome result ↔ (k < count_among colours self.now.colours) }
        ensures position { IfSome result (IsKth colours k self.now.colours) }
    {
        ask::select::<C>(&self.row, k, Mask { bits: colours })
    }

    /// Makes room for so many edits, which then take no memory.
    pub fn reserve(&mut self, edits: usize) -> Result<(), AllocError>
        ensures ok { OnOk result (edits ≤ spare self.new) }
        ensures colours { self.new.colours ≡ self.old.colours }
        ensures room { self.old.room ≤ self.new.room }
    {
        match edits.checked_mul(2) {
            Some(runs) => self.row.reserve(runs),
            None => Err(AllocError),
        }
    }

    /// Makes room for so many runs in all.
    pub fn reserve_runs(&mut self, runs: usize) -> Result<(), AllocError>
        ensures ok { OnOk result (runs ≤ self.new.room) }
        ensures colours { self.new.colours ≡ self.old.colours }
        ensures room { self.old.room ≤ self.new.room }
    {
        self.row.reserve(runs.saturating_sub(self.row.len()))
    }

    /// Puts `n` places of a colour in at a place. It takes memory where there is no room.
    pub fn insert(&mut self, at: usize, colour: u8, n: usize) -> Result<(), AllocError>
        requires in_range { at ≤ length self.old.colours }
        requires colour { colour < C }
        requires small { length self.old.colours + n < 2 ^ 32 }
        ensures ok { OnOk result (self.new.colours ≡ inserted self.old.colours at colour n) }
        ensures err { OnErr result (self.new.colours ≡ self.old.colours) }
        ensures room { self.old.room ≤ self.new.room }
    {
        self.reserve(1)?;
        self.insert_reserved(at, colour, n);
        Ok(())
    }

    /// Gives `n` places from `at` on a colour. It takes memory where there is no room.
    pub fn paint(&mut self, at: usize, n: usize, colour: u8) -> Result<(), AllocError>
        requires in_range { at + n ≤ length self.old.colours }
        requires colour { colour < C }
        ensures ok { OnOk result (self.new.colours ≡ painted self.old.colours at n colour) }
        ensures err { OnErr result (self.new.colours ≡ self.old.colours) }
        ensures room { self.old.room ≤ self.new.room }
    {
        self.reserve(1)?;
        self.paint_reserved(at, n, colour);
        Ok(())
    }

    /// Takes `n` places from `at` on out. It takes no memory.
    pub fn remove(&mut self, at: usize, n: usize)
        requires { at + n ≤ length self.old.colours }
        ensures colours { self.new.colours ≡ removed self.old.colours at n }
        ensures spare { spare self.old ≤ spare self.new }
        ensures room { self.new.room ≡ self.old.room }
    {
        clear::<C>(&mut self.row, at, n);
    }

    /// Puts `n` places of a colour in at a place, in room that was reserved. It takes no memory.
    pub fn insert_reserved(&mut self, at: usize, colour: u8, n: usize)
        requires in_range { at ≤ length self.old.colours }
        requires colour { colour < C }
        requires small { length self.old.colours + n < 2 ^ 32 }
        requires has_room { HasRoom self.old (inserted self.old.colours at colour n) }
        ensures colours { self.new.colours ≡ inserted self.old.colours at colour n }
        ensures spare { spare self.old ≤ spare self.new + 1 }
        ensures room { self.new.room ≡ self.old.room }
    {
        if n == 0 {
            return;
        }
        put::<C>(&mut self.row, at, Run { colour, len: n });
    }

    /// Gives `n` places from `at` on a colour, in room that was reserved. It takes no memory.
    pub fn paint_reserved(&mut self, at: usize, n: usize, colour: u8)
        requires in_range { at + n ≤ length self.old.colours }
        requires colour { colour < C }
        requires has_room { HasRoom self.old (painted self.old.colours at n colour) }
        ensures colours { self.new.colours ≡ painted self.old.colours at n colour }
        ensures spare { spare self.old ≤ spare self.new + 1 }
        ensures room { self.new.room ≡ self.old.room }
    {
        if n == 0 {
            return;
        }
        clear::<C>(&mut self.row, at, n);
        put::<C>(&mut self.row, at, Run { colour, len: n });
    }
}
