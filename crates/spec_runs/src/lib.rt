//! What the actors of a plan do, one entry after another: what commands are answered, what listeners are told, what
//! lists show; definitions and laws, with no code.
#![tactic(auto)]
