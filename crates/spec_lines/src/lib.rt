//! The grammar of the lines of a plan's text, with readers that read it: definitions and laws, with no code.
#![tactic(auto)]
