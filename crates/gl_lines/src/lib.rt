//! The plain data of plan texts: the lines that a plan may have, with their names and the columns of these.
//! They are types alone, below the definitions, so that definitions and code speak of the same ones.
//! How lines are written, and what plan they make, stands in the crates above.
#![tactic(auto)]

mod fault;
mod line;
mod named;
mod plan;
mod reply;

pub use fault::{Misplaced, PlanKind};
pub use gl_publisher::Numbers;
pub use line::{Line, Lines, NumberedLine};
pub use named::{Named, NamedList};
pub use plan::{Command, ListDecl, ListKind, ListenerDecl};
pub use reply::Reply;
