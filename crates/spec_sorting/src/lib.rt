//! Laws of a sorted list that follows a change: which updated pairs stay, and how what it tells comes of the changed
//! elements alone, in sorted order. Definitions and laws, with no code.
#![tactic(auto)]
