//! The report of a world: the order of its entries, what each was answered and told, and what its lists show at last;
//! its summary, which counts instead; and the text of an event.
//! It is written from the world alone, through its public calls, into one run of bytes.
//! What they say is defined in `spec_reports`.
#![tactic(auto)]

mod counts;
mod entries;
mod event;
mod held;
mod lists;
mod order;
mod replies;
mod text;
mod totals;

pub use event::event_text;
pub use gl_value::{Bytes, Memory};
pub use text::report;
pub use totals::summary;
