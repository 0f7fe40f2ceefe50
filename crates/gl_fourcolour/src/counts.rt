ghost use Rattle.std.specs.Prelude.{◌≡◌, ◌<◌, ◌^◌};
ghost use Rattle.gl_fourcolour.specs.Counts.{counts_of, run_of, colour_of, part_of, total_of};

use crate::run::Run;
use gl_ranktree::{Measure, Summary};

/// How many places of each colour there are in some runs.
#[derive(Clone, Copy)]
pub(crate) struct Counts {
    pub(crate) first: u32,
    pub(crate) second: u32,
    pub(crate) third: u32,
    pub(crate) fourth: u32,
}

impl Summary for Counts {
    ghost use Rattle.gl_fourcolour.specs.Counts.{no_counts, plus_counts, fits_counts};
    ghost use Rattle.gl_fourcolour.specs.Sums.{counts_are_sums};

    ghost sums = { record { zero = no_counts; plus = plus_counts; fits = fits_counts } };

    ghost laws = { counts_are_sums };

    fn zero() -> Counts {
        Counts {
            first: 0,
            second: 0,
            third: 0,
            fourth: 0,
        }
    }

    fn plus(self, other: Counts) -> Counts {
        Counts {
            first: self.first.wrapping_add(other.first),
            second: self.second.wrapping_add(other.second),
            third: self.third.wrapping_add(other.third),
            fourth: self.fourth.wrapping_add(other.fourth),
        }
    }
}

/// A set of colours: bit number k stands for colour k.
#[derive(Clone, Copy)]
pub(crate) struct Mask {
    pub(crate) bits: u8,
}

impl Measure<Counts> for Mask {
    ghost use Rattle.gl_fourcolour.specs.Counts.{weigh};
    ghost use Rattle.gl_fourcolour.specs.Sums.{weigh-zero, weigh-plus};

    ghost measured = { λ by c. weigh by.bits c };

    ghost empty = { λ by. weigh-zero by.bits };

    ghost additive = { λ by x y. weigh-plus by.bits x y };

    #[tactic(auto, unfolding(crate::specs::Counts::weigh))]
    fn of(self, sum: Counts) -> usize {
        let first = self.part(0, sum.first as usize);
        let second = self.part(1, sum.second as usize);
        let third = self.part(2, sum.third as usize);
        let fourth = self.part(3, sum.fourth as usize);
        first + second + third + fourth
    }
}

impl Mask {
    /// All four colours.
    pub(crate) fn all() -> Mask
        ensures { result ≡ record { bits = 15 } }
    {
        Mask { bits: 15 }
    }

    // The count if the set has the colour, and else 0.
    #[tactic(auto, unfolding(crate::specs::Colours::is_among))]
    pub(crate) fn part(self, colour: u8, count: usize) -> usize
        requires { colour < 4 }
        ensures { result ≡ part_of self.bits colour count }
    {
        if (self.bits >> colour) % 2 == 1 {
            count
        } else {
            0
        }
    }
}

// A run, counted.
pub(crate) fn counts_of(run: Run) -> Counts
    requires { run.len < 2 ^ 32 }
    ensures { result ≡ counts_of run }
{
    let len = run.len as u32;
    Counts {
        first: if run.colour == 0 { len } else { 0 },
        second: if run.colour == 1 { len } else { 0 },
        third: if run.colour == 2 { len } else { 0 },
        fourth: if run.colour == 3 { len } else { 0 },
    }
}

// The run that was counted.
pub(crate) fn run_of(counts: Counts) -> Run
    ensures { result ≡ run_of counts }
{
    Run {
        colour: colour_of(counts),
        len: total(counts),
    }
}

// The colour of places of one colour that were counted.
fn colour_of(counts: Counts) -> u8
    ensures { result ≡ colour_of counts }
{
    if 0 < counts.first {
        0
    } else if 0 < counts.second {
        1
    } else if 0 < counts.third {
        2
    } else {
        3
    }
}

// How many places were counted.
pub(crate) fn total(counts: Counts) -> usize
    ensures { result ≡ total_of counts }
{
    counts.first as usize + counts.second as usize + counts.third as usize + counts.fourth as usize
}
