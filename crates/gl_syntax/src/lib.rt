//! Readers and writers of values, in their one spelling. What bytes spell is defined in `spec_syntax`.
//! A reader goes once over the bytes, and says in which column they leave the grammar.
//! A writer adds to bytes; where memory runs out it leaves them as they were.
#![tactic(auto)]

mod cuts;
mod decimal;
mod number;
mod spelling;
mod stop;
#[cfg(test)]
mod tests;
mod text;
mod value;

pub use cuts::{cut, next_line};
pub use decimal::{decimal_index, decimal_number};
pub use gl_value::{Bytes, Memory, Name, Steps, Text, Value};
pub use number::{natural_ahead, number_ahead, positive_ahead};
pub use spelling::{add_comma, add_number, add_signed, add_value, write_value};
pub use stop::{ReadFault, Stop, begins_with, word};
pub use text::{text_ahead, text_of};
pub use value::{elements_ahead, fault_at, read_value, value_ahead};
