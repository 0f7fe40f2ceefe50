ghost use Rattle.std.specs.Prelude.{◌≡◌, ◌+◌, ◌-◌, ◌*◌, ◌^◌, ◌<◌, ◌≤◌, ℕ, List, [], ◌++◌, length, insert, remove, OnOk, Option, option_map, slice_get, slice_set};
ghost use Rattle.gl_fourcolour.specs.Rows.{last_run};
ghost use Rattle.gl_fourcolour.specs.Counts.{IsFound, sum_of, total_of, weigh, run_of};
ghost use Rattle.gl_fourcolour.specs.declared.run.Run.{Run};

use crate::counts::{Counts, Mask, counts_of, run_of, total};
use crate::run::Run;
use gl_ranktree::{Measure, RankTree};
use std::alloc::{AllocError, Global};
use std::marker::Model;

/// A list of runs in a balanced tree, whose nodes count the places of each colour below them.
#[derive(Drop)]
pub(crate) struct RunRow {
    tree: RankTree<Counts>,
}

impl Model for RunRow {
    ghost use Rattle.gl_fourcolour.specs.Rows.{Row};

    ghost Value = { Row };

    ghost use Rattle.gl_fourcolour.specs.Counts.{runs_of, AreRuns};

    ghost view = { λ t. record { runs = runs_of t.tree.entries; room = t.tree.room } };

    ghost invariant = { λ t. AreRuns t.tree.entries };
}

/// Where a search among the runs stopped.
#[derive(Clone, Copy)]
pub(crate) struct Found {
    /// The place of the run in the list of runs, or their number where none was found.
    pub(crate) position: usize,
    /// The runs before it, counted.
    pub(crate) before: Counts,
    pub(crate) run: Option<Run>,
}

// The run that was counted, if one was.
fn run_from(own: Option<Counts>) -> Option<Run>
    ensures { result ≡ option_map run_of own }
{
    match own {
        Some(counts) => Some(run_of(counts)),
        None => None,
    }
}

// The run of an entry of the tree.
fn entry_run(entry: Option<(u32, Counts)>) -> Option<Run>
    ensures { result ≡ option_map (λ e. run_of e.1) entry }
{
    match entry {
        Some((_, own)) => Some(run_of(own)),
        None => None,
    }
}

impl RunRow {
    pub(crate) fn new(alloc: Global) -> RunRow
        ensures empty { result.runs ≡ [] }
        ensures no_room { result.room ≡ 0 }
    {
        RunRow {
            tree: RankTree::new(alloc),
        }
    }

    pub(crate) fn height(&self) -> usize
        ensures deep { length self.now.runs < 2 ^ result }
        ensures shallow { (digits : ℕ) → length self.now.runs < 2 ^ digits → result ≤ 2 * digits }
    {
        self.tree.height()
    }

    /// How many runs there are.
    pub(crate) fn len(&self) -> usize
        ensures { result ≡ length self.now.runs }
    {
        self.tree.len()
    }

    /// How many places the runs have.
    pub(crate) fn positions(&self) -> usize
        requires { total_of (sum_of self.now.runs) < 2 ^ 32 }
        ensures { result ≡ total_of (sum_of self.now.runs) }
    {
        total(self.tree.sum())
    }

    /// How many places of the runs have a colour of the set.
    pub(crate) fn weight(&self, mask: Mask) -> usize
        requires { total_of (sum_of self.now.runs) < 2 ^ 32 }
        ensures { result ≡ weigh mask.bits (sum_of self.now.runs) }
    {
        mask.of(self.tree.sum())
    }

    /// The run at a place of the list of runs.
    pub(crate) fn get(&self, position: usize) -> Option<Run>
        ensures { result ≡ slice_get self.now.runs position }
    {
        entry_run(self.tree.get(position))
    }

    /// The run before a place of the list of runs.
    pub(crate) fn before(&self, position: usize) -> Option<Run>
        ensures { (prefix back : List Run) → self.now.runs ≡ prefix ++ back
            → position ≡ length prefix → result ≡ last_run prefix }
    {
        if position == 0 {
            return None;
        }
        self.get(position - 1)
    }

    /// The first run with which more than `k` places have a colour of the set.
    pub(crate) fn find(&self, mask: Mask, k: usize) -> Found
        requires { total_of (sum_of self.now.runs) < 2 ^ 32 }
        ensures { IsFound mask.bits k self.now.runs result.position result.before result.run }
    {
        let sought = self.tree.seek(mask, k);
        Found {
            position: sought.position,
            before: sought.before,
            run: run_from(sought.own),
        }
    }

    /// Makes room for so many runs more.
    pub(crate) fn reserve(&mut self, additional: usize) -> Result<(), AllocError>
        ensures spare { OnOk result (length self.new.runs + additional ≤ self.new.room) }
        ensures runs { self.new.runs ≡ self.old.runs }
        ensures room { self.old.room ≤ self.new.room }
    {
        self.tree.reserve(additional)
    }

    /// Puts a run in at a place of the list of runs, in room that was reserved.
    pub(crate) fn insert(&mut self, position: usize, run: Run)
        requires in_range { position ≤ length self.old.runs }
        requires few { length self.old.runs + 1 < 2 ^ 32 }
        requires spare { length self.old.runs < self.old.room }
        requires colour { run.colour < 4 }
        requires some { 1 ≤ run.len }
        requires small { run.len < 2 ^ 32 }
        ensures runs { self.new.runs ≡ insert self.old.runs position run }
        ensures room { self.new.room ≡ self.old.room }
    {
        self.tree.insert_reserved(position, counts_of(run));
    }

    /// Puts another run in the place of one.
    pub(crate) fn set(&mut self, position: usize, run: Run)
        requires in_range { position < length self.old.runs }
        requires colour { run.colour < 4 }
        requires some { 1 ≤ run.len }
        requires small { run.len < 2 ^ 32 }
        ensures runs { self.new.runs ≡ slice_set self.old.runs position run }
        ensures room { self.new.room ≡ self.old.room }
    {
        self.tree.set_own(position, counts_of(run));
    }

    /// Takes the run at a place of the list of runs out.
    pub(crate) fn remove(&mut self, position: usize)
        requires { position < length self.old.runs }
        ensures runs { self.new.runs ≡ remove self.old.runs position }
        ensures room { self.new.room ≡ self.old.room }
    {
        self.tree.remove_at(position);
    }
}
