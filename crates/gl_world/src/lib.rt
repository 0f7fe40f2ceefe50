//! A world: the lists of a plan, kept up to date as its actors make their entries one after another.
//! Contracts see a world as its plan and the order of the entries so far, which fix everything else: the replies, what
//! listeners were told, what lists show and what is left.
#![tactic(auto)]

mod back;
mod command;
mod due;
mod entering;
mod joined;
mod log;
mod next;
mod pump;
mod pumped;
mod section;
mod show;
mod world;

pub use gl_graph::{BuildFault, Hold};
pub use gl_outside::Actor;
pub use gl_plan::Reply;
pub use gl_tell::{Event, Telling};
pub use next::{Next, Spent};
pub use pumped::{Idle, Pumped};
pub use world::{RunName, World};
