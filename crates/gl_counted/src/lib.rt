//! A list whose items keep a handle that tells their place.
//!
//! Insert, removal, the item at a place and the place of a handle each take logarithmic time.
#![tactic(auto)]

mod counted;
mod descent;
mod handle;
mod items;
#[cfg(test)]
mod tests;

pub use counted::Counted;
pub use descent::Descent;
pub use handle::Handle;
pub use std::alloc::AllocError as Memory;
