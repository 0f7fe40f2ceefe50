//! Why a source isn't opened or edited.

use gl_value::Memory;
use thiserror::Error;

/// Why a source isn't opened.
#[derive(Debug, Drop, Error)]
pub enum OpenFault {
    /// It would have so many elements, which are more than it may have.
    #[error("{len} elements are more than the limit")]
    TooLong { len: u128 },
    /// There was no memory for it.
    #[error("out of memory")]
    Memory,
}

/// Why a source isn't edited. It is then as it was.
#[derive(Debug, Drop, Error)]
pub enum EditFault {
    /// It has no place of that index for the edit; this is its length.
    #[error("the index {index} isn't one of {len} elements")]
    OutOfRange { index: u64, len: u64 },
    /// It would have so many elements, which are more than it may have.
    #[error("{len} elements are more than the limit")]
    TooLong { len: u128 },
    /// There was no memory for it.
    #[error("out of memory")]
    Memory,
}

impl From<Memory> for OpenFault {
    ghost use Rattle.std.specs.Prelude.{◌≡◌};
    ghost use Rattle.gl_source.specs.declared.fault.OpenFault.TheVariants.{Memory};

    ghost from_gives = { λ _ fault. fault ≡ Memory };

    fn from(_memory: Memory) -> OpenFault {
        OpenFault::Memory
    }
}

impl From<Memory> for EditFault {
    ghost use Rattle.std.specs.Prelude.{◌≡◌};
    ghost use Rattle.gl_source.specs.declared.fault.EditFault.TheVariants.{Memory};

    ghost from_gives = { λ _ fault. fault ≡ Memory };

    fn from(_memory: Memory) -> EditFault {
        EditFault::Memory
    }
}
