//! Laws of truth values, numbers, options and lists that several crates use and std doesn't have.
#![tactic(auto)]
