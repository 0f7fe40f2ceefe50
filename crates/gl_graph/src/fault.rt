//! Why the lists of a plan aren't opened.

use gl_plan::Memory;
use thiserror::Error;

/// Why the lists of a plan aren't opened.
#[derive(Debug, Drop, Error)]
pub enum BuildFault {
    /// The list would show so many elements, which are more than it may.
    #[error("list {list} would have {len} elements, more than the limit")]
    TooLong { list: u32, len: u128 },
    /// There was no memory for them.
    #[error("out of memory")]
    Memory,
}

impl From<Memory> for BuildFault {
    ghost use Rattle.std.specs.Prelude.{◌≡◌};
    ghost use Rattle.gl_graph.specs.declared.fault.BuildFault.TheVariants.{Memory};

    ghost from_gives = { λ _ fault. fault ≡ Memory };

    fn from(_memory: Memory) -> BuildFault {
        BuildFault::Memory
    }
}
