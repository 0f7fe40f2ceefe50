//! What a writer's turn came to.

ghost use Rattle.std.specs.Prelude.{◌≡◌};

use crate::world::RunName;
use std::marker::{Model, PhantomData};

/// What a writer's turn came to.
#[derive(Drop)]
pub enum Next<N: RunName> {
    /// Its section is the entry at this place.
    Some(u64),
    /// It has no section left.
    None(Spent<N>),
}

/// Tells of a writer that it has no section left. Contracts see it as the writer.
#[derive(Drop)]
pub struct Spent<N: RunName> {
    pub(crate) writer: u32,
    pub(crate) name: PhantomData<N>,
}

impl<N: RunName> Model for Spent<N> {
    ghost use Rattle.std.specs.Prelude.{ℕ};

    ghost Value = { ℕ };

    ghost view = { λ s. s.writer };
}

impl<N: RunName> Spent<N> {
    /// The writer that has no section left.
    pub fn writer(&self) -> u32
        ensures { result ≡ self.now }
    {
        self.writer
    }
}
