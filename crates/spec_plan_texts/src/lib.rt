//! What plan the bytes of a text spell, or which fault of theirs is the first: definitions and laws, with no code.
#![tactic(auto)]

pub use spec_plans::FaultAt;
