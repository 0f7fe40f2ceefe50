//! What is meant by a delta between two lists, its composition and inverse, its cells, its changes and their replay:
//! definitions and laws, with no code.
#![tactic(auto)]
