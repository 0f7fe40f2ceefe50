//! What the pump of a proxy came to.

ghost use Rattle.std.specs.Prelude.{◌≡◌};

use crate::world::RunName;
use std::marker::{Model, PhantomData};

/// What the pump of a proxy came to.
#[derive(Drop)]
pub enum Pumped<N: RunName> {
    /// It is the entry at this place.
    Done(u64),
    /// The proxy has nothing to take.
    Nothing(Idle<N>),
}

/// Tells of a proxy that it had nothing to take after so many entries. Contracts see it as the proxy and that number.
#[derive(Drop)]
pub struct Idle<N: RunName> {
    pub(crate) proxy: u32,
    pub(crate) entries: u64,
    pub(crate) name: PhantomData<N>,
}

impl<N: RunName> Model for Idle<N> {
    ghost use Rattle.gl_world.specs.Idle.{IdleAt};

    ghost Value = { IdleAt };

    ghost view = { λ i. record { proxy = i.proxy; entries = i.entries } };
}

impl<N: RunName> Idle<N> {
    /// The proxy that had nothing to take.
    pub fn proxy(&self) -> u32
        ensures { result ≡ self.now.proxy }
    {
        self.proxy
    }

    /// How many entries there were then.
    pub fn entries(&self) -> u64
        ensures { result ≡ self.now.entries }
    {
        self.entries
    }
}
