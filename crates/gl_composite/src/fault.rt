//! Why a member isn't detached.

use thiserror::Error;

/// Why a member isn't detached. The composite is then as it was.
#[derive(Debug, Drop, Error)]
pub enum DetachFault {
    /// There is no member of that index; this is the number of members.
    #[error("the index {index} isn't one of {len} members")]
    OutOfRange { index: u64, len: u64 },
    /// There was no memory for it.
    #[error("out of memory")]
    Memory,
}
