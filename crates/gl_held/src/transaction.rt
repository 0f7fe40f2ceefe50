//! A transaction.

ghost use Rattle.std.specs.Prelude.{◌≡◌, ◌≢◌, ◌↔◌, ◌∷◌, ◌<◌, ◌≤◌, [], List, length, drop, Err, None, Some, IfSome, IfOk, OnOk, OnErr, slice_get};
ghost use Rattle.spec_lists.specs.Piece.{old_len};
ghost use Rattle.spec_lists.specs.Delta.{no_change};
ghost use Rattle.spec_states.specs.Tree.{Tree};
ghost use Rattle.spec_states.specs.Shown.{undone_all};
ghost use Rattle.spec_states.specs.Wave.{committed};
ghost use Rattle.spec_states.specs.Laws.{LedTo};
ghost use Rattle.gl_kernel.specs.Found.{found};
ghost use Rattle.gl_held.specs.Levels.{AreJoined, BeginsWith, IsShown, followed, held_len, told_at_commit, told_by, taken_back};
ghost use Rattle.gl_held.specs.Back.{CanRetreat, HasLevel, IsUndo, levels_before, stepped};

use crate::composition::Composition;
use crate::fault::CloseFault;
use crate::levels::Levels;
use crate::undo::{HeldUndo, LevelStep, Way};
use gl_delta::{Delta, Find};
use std::alloc::{AllocError, Global};
use std::marker::Model;

/// What a transaction list keeps of its open levels: the TransactionList of Glazed Lists. Edits go to its source, and it
/// keeps what became of that in each level; what it shows follows from what the source shows. Contracts see the deltas of
/// the levels, the innermost first, and for how many there is room. It takes memory by what changed, however long the list.
#[derive(Drop)]
pub struct Transaction {
    alloc: Global,
    pub(crate) levels: Levels,
}

impl Model for Transaction {
    ghost use Rattle.gl_held.specs.Kept.{Kept, kept_code};
    ghost use Rattle.gl_held.specs.Levels.{AreJoined};

    ghost Value = { Kept };

    ghost coded = { kept_code };

    ghost view = { λ t. t.levels };

    ghost invariant = { λ t. AreJoined t.levels.levels };
}

/// What a commit ended: an inner level, or the outermost one, whose delta is that of the list.
#[derive(Drop)]
pub enum Closed {
    Inner,
    Outer(Delta),
}

impl Transaction {
    /// A transaction list with no open level. It takes no memory.
    pub fn make(alloc: Global) -> Transaction
        ensures { result.levels ≡ [] }
    {
        Transaction {
            alloc,
            levels: Levels::new(alloc),
        }
    }

    /// How many levels are open.
    pub fn depth(&self) -> usize
        ensures { result ≡ length self.now.levels }
    {
        self.levels.depth()
    }

    /// Opens a level, over a source of so many elements.
    pub fn begin(&mut self, len: usize) -> Result<HeldUndo, AllocError>
        requires begins { BeginsWith len self.old.levels }
        requires few { len ≤ 2147483647 }
        ensures levels { OnOk result (self.new.levels ≡ no_change len ∷ self.old.levels) }
        ensures undo { IfOk result (λ undo. IsUndo undo self.old self.new) }
        ensures err { OnErr result (self.new.levels ≡ self.old.levels) }
        ensures room { self.old.room ≤ self.new.room }
    {
        let level = Composition::start(self.alloc, len)?;
        self.levels.reserve()?;
        self.levels.push(level);
        Ok(HeldUndo {
            way: Way::Levels(LevelStep::Begun),
        })
    }

    /// Composes a delta of the source into the innermost level. It takes memory, and time, by the changes of both.
    pub fn follow(&mut self, d: &Delta) -> Result<HeldUndo, AllocError>
        requires open { self.old.levels ≢ [] }
        requires begins { BeginsWith (old_len d.now.pieces) self.old.levels }
        ensures levels { OnOk result (self.new.levels ≡ followed self.old.levels d.now.pieces) }
        ensures undo { IfOk result (λ undo. IsUndo undo self.old self.new) }
        ensures err { OnErr result (self.new.levels ≡ self.old.levels) }
        ensures room { self.old.room ≤ self.new.room }
    {
        let next = self.levels.level(0).then(d)?;
        let level = self.levels.take();
        self.levels.push(next);
        Ok(HeldUndo {
            way: Way::Levels(LevelStep::Followed(level)),
        })
    }

    /// Ends the innermost level: an inner one is composed into the next outer one, and the outermost one tells its delta.
    /// It takes memory by the changes of these levels.
    pub fn commit(&mut self) -> Result<(Closed, HeldUndo), CloseFault>
        ensures told { IfOk result (λ done. told_by done.0 ≡ told_at_commit self.old.levels) }
        ensures levels { OnOk result (self.new.levels ≡ committed self.old.levels) }
        ensures not_open { (result ≡ Err CloseFault.NotOpen) ↔ (self.old.levels ≡ []) }
        ensures undo { IfOk result (λ done. IsUndo done.1 self.old self.new) }
        ensures err { OnErr result (self.new.levels ≡ self.old.levels) }
        ensures room { self.old.room ≤ self.new.room }
    {
        let depth = self.levels.depth();
        if depth == 0 {
            return Err(CloseFault::NotOpen);
        }
        if depth == 1 {
            return Ok(self.commit_outermost()?);
        }
        Ok((Closed::Inner, self.commit_inner()?))
    }

    // The outermost level, which is the only one, tells its delta.
    fn commit_outermost(&mut self) -> Result<(Closed, HeldUndo), AllocError>
        requires { length self.old.levels ≡ 1 }
        ensures told { IfOk result (λ done. told_by done.0 ≡ told_at_commit self.old.levels) }
        ensures levels { OnOk result (self.new.levels ≡ committed self.old.levels) }
        ensures undo { IfOk result (λ done. IsUndo done.1 self.old self.new) }
        ensures err { OnErr result (self.new.levels ≡ self.old.levels) }
        ensures room { self.old.room ≤ self.new.room }
    {
        let d = self.levels.level(0).delta()?;
        Ok((Closed::Outer(d), self.drop_level()))
    }

    // The innermost of several levels is composed into the next outer one.
    fn commit_inner(&mut self) -> Result<HeldUndo, AllocError>
        requires { 1 < length self.old.levels }
        ensures levels { OnOk result (self.new.levels ≡ committed self.old.levels) }
        ensures undo { IfOk result (λ undo. IsUndo undo self.old self.new) }
        ensures err { OnErr result (self.new.levels ≡ self.old.levels) }
        ensures room { self.old.room ≤ self.new.room }
    {
        let d = self.levels.level(0).delta()?;
        let joined = self.levels.level(1).then(&d)?;
        let level = self.levels.take();
        let outer = self.levels.take();
        self.levels.push(joined);
        Ok(HeldUndo {
            way: Way::Levels(LevelStep::Joined(outer, level)),
        })
    }

    /// The delta that takes the source back to where it stood when the innermost level began. It takes memory by the changes
    /// of the level.
    pub fn taken_back(&self) -> Result<Delta, CloseFault>
        ensures pieces { IfOk result (λ d. d.pieces ≡ taken_back self.now.levels) }
        ensures not_open { (result ≡ Err CloseFault.NotOpen) ↔ (self.now.levels ≡ []) }
    {
        if self.levels.depth() == 0 {
            return Err(CloseFault::NotOpen);
        }
        Ok(self.levels.level(0).delta()?.inverse())
    }

    /// Drops the innermost level, and answers the delta that takes its source back to where it stood when that began; an
    /// outer level keeps its delta. It takes memory by the changes of the level.
    pub fn rollback(&mut self) -> Result<(Delta, HeldUndo), CloseFault>
        ensures pieces { IfOk result (λ done. done.0.pieces ≡ taken_back self.old.levels) }
        ensures levels { OnOk result (self.new.levels ≡ drop 1 self.old.levels) }
        ensures not_open { (result ≡ Err CloseFault.NotOpen) ↔ (self.old.levels ≡ []) }
        ensures undo { IfOk result (λ done. IsUndo done.1 self.old self.new) }
        ensures err { OnErr result (self.new.levels ≡ self.old.levels) }
        ensures room { self.old.room ≤ self.new.room }
    {
        let d = self.taken_back()?;
        Ok((d, self.drop_level()))
    }

    /// Drops the innermost level, once the source stands as it did when that began. It takes no memory.
    pub fn drop_level(&mut self) -> HeldUndo
        requires { 0 < length self.old.levels }
        ensures levels { self.new.levels ≡ drop 1 self.old.levels }
        ensures undo { IsUndo result self.old self.new }
        ensures room { self.new.room ≡ self.old.room }
    {
        let level = self.levels.take();
        HeldUndo {
            way: Way::Levels(LevelStep::Closed(level)),
        }
    }

    /// Goes back to where the transaction stood before its last change, whose undo this is. It takes no memory.
    pub fn retreat(&mut self, undo: HeldUndo)
        requires { CanRetreat undo self.old }
        ensures back { self.new.levels ≡ levels_before undo.way self.old.levels }
        ensures room { self.old.room ≤ self.new.room }
    {
        let HeldUndo { way } = undo;
        match way {
            Way::Levels(step) => self.step_back(step),
            _ => unreachable!(),
        }
    }

    // The levels as they were before a step.
    fn step_back(&mut self, step: LevelStep)
        requires has { HasLevel step self.old.levels }
        requires joined { AreJoined (stepped step self.old.levels) }
        requires room { length (stepped step self.old.levels) ≤ self.old.room }
        ensures back { self.new.levels ≡ stepped step self.old.levels }
        ensures room { self.old.room ≤ self.new.room }
    {
        match step {
            LevelStep::Begun => {
                self.levels.take();
            }
            LevelStep::Followed(level) => {
                self.levels.take();
                self.levels.push(level);
            }
            LevelStep::Joined(outer, level) => {
                self.levels.take();
                self.levels.push(outer);
                self.levels.push(level);
            }
            LevelStep::Closed(level) => self.levels.push(level),
        }
    }

    /// How many elements are shown, `None` exactly where no level is open.
    pub fn held_len(&self) -> Option<usize>
        ensures none { (result ≡ None) ↔ (self.now.levels ≡ []) }
        ensures len { (ys : List Tree) → LedTo self.now.levels ys
            → IfSome result (λ len. len ≡ length (undone_all self.now.levels ys)) }
        ensures value { result ≡ held_len self.now.levels }
    {
        self.levels.held_len()
    }

    /// Where an element that is shown stands: here, or at a position of the source. It takes time logarithmic in the
    /// changes of each level.
    pub fn find(&self, position: usize) -> Find<'_>
        requires { IsShown position self.now.levels }
        ensures { (ys : List Tree) → LedTo self.now.levels ys
            → found (Some result) ys ≡ slice_get (undone_all self.now.levels ys) position }
    {
        self.levels.find(position)
    }
}
