//! Definitions: what lists show of their inputs, and what becomes of a change of the input.
#![tactic(auto)]
