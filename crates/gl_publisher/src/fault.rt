use super::Numbers;
pub use std::alloc::AllocError as Memory;
use thiserror::Error;

/// Why there is no order.
#[derive(Debug, Drop, Error)]
pub enum OrderFault {
    /// The items of a cycle: each depends on the next, and the last on the first.
    #[error("a cycle of dependencies")]
    Cycle(Numbers),
    /// Memory ran out, and nothing is known of cycles.
    #[error("out of memory")]
    Memory,
}

impl From<Memory> for OrderFault {
    ghost use Rattle.std.specs.Prelude.{◌≡◌};
    ghost use Rattle.gl_publisher.specs.declared.fault.OrderFault.TheVariants.{Memory};

    ghost from_gives = { λ _ fault. fault ≡ Memory };

    fn from(_memory: Memory) -> OrderFault {
        OrderFault::Memory
    }
}
