//! Parts of plans.

use gl_lines::{Command, ListDecl, ListenerDecl};

/// What a line adds to a plan.
#[derive(Drop)]
pub enum Part {
    Limit(u64),
    List(ListDecl),
    Listener(ListenerDecl),
    Writer,
    Section,
    Command(Command),
    /// Nothing, or elements of a source, which stand in its declaration.
    Elsewhere,
}
