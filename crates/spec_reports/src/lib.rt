//! Orders in words, the texts of events, the report of a plan and an order, and what a call of the program answers for its
//! words and bytes: definitions and laws, with no code.
#![tactic(auto)]
