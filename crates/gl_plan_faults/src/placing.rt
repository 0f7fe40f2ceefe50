//! Lines that may not stand where they stand, or are too many.

ghost use Rattle.std.specs.Prelude.{◌≡◌, ◌<◌, ◌^◌, ◌++◌, ◌∷◌, [], List, ◌||◌, ◌&&◌, ◌==◌};
ghost use Rattle.gl_lines.specs.declared.line.NumberedLine.{NumberedLine as Numbered};
ghost use Rattle.spec_plans.specs.Place.{first_misplaced, is_out_of_place, is_too_many, place_fault};
ghost use Rattle.gl_plan_faults.specs.Before.{StandsAfter};

use crate::line::{
    is_command, is_declaration, is_end, is_limit, is_list, is_listener, is_section, is_writer,
};
use gl_lines::{Line, Lines, Misplaced, PlanKind};

/// What the lines before a line hold, as far as the places of lines go.
#[derive(Clone, Copy)]
pub struct Before {
    pub limited: bool,
    pub written: bool,
    /// Whether the last writer has a section.
    pub open_section: bool,
    pub lists: usize,
    pub listeners: usize,
    pub writers: usize,
}

impl Before {
    /// No lines.
    pub fn nothing() -> Before
        ensures { StandsAfter result [] }
    {
        Before {
            limited: false,
            written: false,
            open_section: false,
            lists: 0,
            listeners: 0,
            writers: 0,
        }
    }

    fn is_out_of_place(&self, line: &Line) -> bool
        ensures { (lines : List Numbered) → StandsAfter self.now lines
            → result ≡ is_out_of_place lines line.now }
    {
        is_end(line)
            || (is_declaration(line) && self.written)
            || (is_limit(line) && self.limited)
            || (is_section(line) && !self.written)
            || (is_command(line) && !self.open_section)
    }

    fn is_too_many(&self, line: &Line) -> bool
        ensures { (lines : List Numbered) → StandsAfter self.now lines
            → result ≡ is_too_many lines line.now }
    {
        (is_list(line) && self.lists == 256)
            || (is_listener(line) && self.listeners == 256)
            || (is_writer(line) && self.writers == 64)
    }

    /// What is wrong with the place of a line after them, if anything is.
    pub fn fault(&self, line: &Line) -> Option<PlanKind>
        ensures { (lines : List Numbered) → StandsAfter self.now lines
            → result ≡ place_fault lines line.now }
    {
        if self.is_out_of_place(line) {
            Some(PlanKind::Place)
        } else if self.is_too_many(line) {
            Some(PlanKind::Many)
        } else {
            None
        }
    }

    /// The lines with one more.
    pub fn with(&self, line: &Line) -> Before
        requires lists { self.now.lists < 2 ^ 63 }
        requires listeners { self.now.listeners < 2 ^ 63 }
        requires writers { self.now.writers < 2 ^ 63 }
        ensures { (lines : List Numbered) (l : Numbered) → l.what ≡ line.now
            → StandsAfter self.now lines → StandsAfter result (lines ++ l ∷ []) }
    {
        Before {
            limited: self.limited || is_limit(line),
            written: self.written || is_writer(line),
            open_section: is_section(line) || (self.open_section && !is_writer(line)),
            lists: self.lists + usize::from(is_list(line)),
            listeners: self.listeners + usize::from(is_listener(line)),
            writers: self.writers + usize::from(is_writer(line)),
        }
    }
}

/// The first line that may not stand where it stands, or is one too many, with what is wrong. It takes no memory.
pub fn misplaced(lines: &Lines) -> Option<Misplaced>
    ensures { result ≡ first_misplaced lines.now }
{
    let mut before = Before::nothing();
    for line in lines.as_slice() {
        if let Some(kind) = before.fault(&line.what) {
            return Some(Misplaced {
                line: line.line,
                kind,
            });
        }
        before = before.with(&line.what);
    }
    None
}
