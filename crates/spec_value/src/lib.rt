//! What values are, how they are ordered and how deep they nest: definitions and laws, with no code.
#![tactic(auto)]
