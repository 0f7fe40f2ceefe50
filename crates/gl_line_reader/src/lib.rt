//! Readers of the lines of plan texts: of whole lines, and of what these are made of: names in their columns, paths,
//! orders, bounds, functions and matchers. What bytes spell is defined in `spec_syntax` and `spec_lines`. A reader goes
//! once over the bytes, and where they leave the grammar it says in which column.
#![tactic(auto)]

mod bounds;
mod composite;
mod func;
mod keyword;
mod line;
mod listener;
mod matcher;
mod name;
mod named;
mod one_name;
mod path;
mod table;
mod two_names;

pub use line::read_line;
