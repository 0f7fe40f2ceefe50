//! Why a held list isn't let go, or a free one isn't held.

use gl_value::Memory;
use thiserror::Error;

/// Why a level isn't committed or rolled back. The transaction is then as it was.
#[derive(Debug, Drop, Error)]
pub enum CloseFault {
    /// No level is open.
    #[error("no level is open")]
    NotOpen,
    /// There was no memory for it.
    #[error("out of memory")]
    Memory,
}

/// Why a list isn't frozen. It is then as it was.
#[derive(Debug, Drop, Error)]
pub enum FreezeFault {
    /// It is frozen.
    #[error("it is frozen")]
    AlreadyFrozen,
    /// There was no memory for it.
    #[error("out of memory")]
    Memory,
}

/// Why a list isn't thawed. It is then as it was.
#[derive(Debug, Drop, Error)]
pub enum ThawFault {
    /// It isn't frozen.
    #[error("it isn't frozen")]
    NotFrozen,
    /// There was no memory for it.
    #[error("out of memory")]
    Memory,
}

/// Why a proxy isn't pumped. It is then as it was.
#[derive(Debug, Drop, Error)]
pub enum PumpFault {
    /// Its queue is empty.
    #[error("the queue is empty")]
    Nothing,
    /// There was no memory for it.
    #[error("out of memory")]
    Memory,
}

impl From<Memory> for CloseFault {
    ghost use Rattle.std.specs.Prelude.{◌≡◌};
    ghost use Rattle.gl_held.specs.declared.fault.CloseFault.TheVariants.{Memory};

    ghost from_gives = { λ _ fault. fault ≡ Memory };

    fn from(_memory: Memory) -> CloseFault {
        CloseFault::Memory
    }
}

impl From<Memory> for FreezeFault {
    ghost use Rattle.std.specs.Prelude.{◌≡◌};
    ghost use Rattle.gl_held.specs.declared.fault.FreezeFault.TheVariants.{Memory};

    ghost from_gives = { λ _ fault. fault ≡ Memory };

    fn from(_memory: Memory) -> FreezeFault {
        FreezeFault::Memory
    }
}

impl From<Memory> for ThawFault {
    ghost use Rattle.std.specs.Prelude.{◌≡◌};
    ghost use Rattle.gl_held.specs.declared.fault.ThawFault.TheVariants.{Memory};

    ghost from_gives = { λ _ fault. fault ≡ Memory };

    fn from(_memory: Memory) -> ThawFault {
        ThawFault::Memory
    }
}

impl From<Memory> for PumpFault {
    ghost use Rattle.std.specs.Prelude.{◌≡◌};
    ghost use Rattle.gl_held.specs.declared.fault.PumpFault.TheVariants.{Memory};

    ghost from_gives = { λ _ fault. fault ≡ Memory };

    fn from(_memory: Memory) -> PumpFault {
        PumpFault::Memory
    }
}
