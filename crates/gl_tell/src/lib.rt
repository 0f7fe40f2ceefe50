//! The teller of a plan's listeners: at the end of an entry each of them is told what became of its list, after those that
//! it is told after.
//! A listener may try to write back at a desk, which refuses each edit and counts it.
#![tactic(auto)]

mod desk;
mod handing;
mod listeners;
mod teller;
mod telling;

pub use desk::{Desk, WriteBack};
pub use gl_event::Event;
pub use gl_source::Edit;
pub use gl_value::Memory;
pub use teller::Teller;
pub use telling::Telling;
