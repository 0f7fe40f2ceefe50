//! Writers of the lines of plan texts and of what they are made of, each in the one spelling that `spec_syntax` and
//! `spec_lines` define. They add to bytes. Whatever text a line was read from, what is written of it reads back as the
//! same line.
#![tactic(auto)]

mod form;
mod func;
mod line;
mod matcher;
mod name;
mod path;

pub use form::{
    name_bounds, name_func, name_index, name_index_value, name_matcher, name_order, name_value,
    name_values, names_bounds, names_func, names_matcher, names_order, names_path, one_name,
    two_names,
};
pub use func::add_func;
pub use line::{add_limit, add_line, write_line};
pub use matcher::add_matcher;
pub use name::add_names;
pub use path::{add_bounds, add_order, add_path};
