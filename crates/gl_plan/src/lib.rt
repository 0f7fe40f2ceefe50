//! Whole plans: `Plan::from_lines` makes the plan that lines mean, or finds their first fault or first cycle.
//! Contracts see a plan as the definitions of `spec_plans` do.
#![tactic(auto)]

mod alike;
mod alike_commands;
mod alike_kinds;
mod command;
mod depend;
mod draft;
mod fault;
mod making;
mod part;
mod plan;
mod tables;

pub use fault::{Names, PlanFault};
pub use gl_lang::{Bounds, Func, Matcher, Path, Test};
pub use gl_lines::{
    Command, Line, Lines, ListDecl, ListKind, ListenerDecl, Misplaced, Named, NamedList,
    NumberedLine, PlanKind, Reply,
};
pub use gl_plan_faults::{Before, misplaced};
pub use gl_value::{Items, Memory, Name, Shelf, Steps, Text, Value, Values};
pub use plan::Plan;
