//! The faults of the lines of plans: `misplaced` finds the first line that may not stand where it stands or is one too many,
//! and `first_fault` the first fault of all, names included. `NameTable` gives names their numbers.
//! What lines mean together is defined in `spec_plans`.
#![tactic(auto)]

mod finding;
mod judge;
mod judging;
mod known;
mod line;
mod listed;
mod marks;
mod names;
mod needs;
mod passed;
mod placing;
mod tables;

pub use gl_lines::{Line, Lines, Misplaced, Named, NamedList, NumberedLine, PlanKind};
pub use judging::first_fault;
pub use names::NameTable;
pub use placing::{Before, misplaced};
pub use spec_plans::FaultAt;
pub use tables::{names_of_listeners, names_of_lists};
