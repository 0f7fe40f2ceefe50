//! The top call of the program: it reads the words, takes the source whole where they ask for something of its plan, and
//! gives the sink the text of what it came to. What that is for which words and bytes is defined in `spec_reports`.
//! A text is made whole before the sink is given anything.
#![tactic(auto)]

mod answer;
mod big;
mod call;
mod form;
mod laws;
mod outcome;
mod reading;
mod replaying;
mod requests;
mod status;
#[cfg(test)]
mod tests;
mod texts;
mod words;

pub use call::plain;
pub use gl_outside::{Sink, Source};
pub use gl_syntax::Text;
pub use laws::one_outcome;
pub use status::Status;
