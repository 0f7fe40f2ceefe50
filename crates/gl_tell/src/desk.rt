//! The edits that listeners try while they are told.

ghost use Rattle.std.specs.Prelude.{◌≡◌, ◌+◌, min};

use gl_source::Edit;
use std::marker::Model;

/// What every edit at a desk is answered: it is refused.
#[derive(Clone, Copy, Debug, PartialEq, Eq)]
pub struct WriteBack;

/// Where a listener may try to edit its list while it is told of it. Each edit is refused, and counted. Contracts see how
/// many were refused.
#[derive(Drop)]
pub struct Desk {
    refused: u32,
}

impl Model for Desk {
    ghost use Rattle.std.specs.Prelude.{ℕ};

    ghost Value = { ℕ };

    ghost view = { λ desk. desk.refused };
}

impl Desk {
    /// A desk at which nothing was tried yet. It takes no memory.
    pub fn new() -> Desk
        ensures { result ≡ 0 }
    {
        Desk { refused: 0 }
    }

    /// Refuses an edit, and counts it. The count stays at 4,294,967,295 once it is there. It takes no memory.
    pub fn edit(&mut self, _e: Edit) -> WriteBack
        ensures { self.new ≡ min (self.old + 1) 4294967295 }
    {
        self.refused = self.refused.saturating_add(1);
        WriteBack
    }

    /// How many edits were refused.
    pub fn refused(&self) -> u32
        ensures { result ≡ self.now }
    {
        self.refused
    }
}
