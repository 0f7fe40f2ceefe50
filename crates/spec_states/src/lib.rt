//! What the lists of a plan keep and show, and what a command does to them: definitions and laws, with no code.
#![tactic(auto)]
