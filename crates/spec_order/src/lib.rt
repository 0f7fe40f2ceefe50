//! What a dependency order is, and what a cycle of dependencies is: definitions and their laws alone.
#![tactic(auto)]
