//! What event lists know of the world outside: where a text comes from, where one goes, and who
//! watches the threads. Each source and sink counts its faults, and whoever calls one can rely on
//! its trait alone.
#![tactic(auto)]

mod calls;
mod gate;
mod memory_sink;
mod memory_source;
mod read_source;
mod sink;
mod source;
#[cfg(test)]
mod tests;
mod write_sink;

pub use calls::Calls;
pub use gate::{Actor, Gate, NoGate};
pub use memory_sink::MemorySink;
pub use memory_source::MemorySource;
pub use read_source::ReadSource;
pub use sink::{Given, Sink};
pub use source::{Source, Taken};
pub use std::alloc::AllocError as Memory;
pub use write_sink::WriteSink;
