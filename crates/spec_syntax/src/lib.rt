//! The grammars of values, names, paths, orders, bounds, functions and matchers, each with its readers on lists of bytes
//! and its one spelling: definitions and their laws alone.
#![tactic(auto)]
