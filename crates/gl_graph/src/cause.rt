//! What makes a wave.

ghost use Rattle.std.specs.Prelude.{◌≡◌};
ghost use Rattle.spec_states.specs.Wave.{subject};
ghost use Rattle.gl_graph.specs.Causes.{cause_of};

use crate::command::about;
use gl_plan::Command;

/// What makes a wave: a command, or the pump of a proxy, by its number among the lists.
#[derive(Drop)]
pub(crate) enum Cause<'a> {
    Command(&'a Command),
    Pump(u32),
}

/// The number of the list that it is about.
pub(crate) fn subject(cause: &Cause<'_>) -> u32
    ensures { result ≡ subject (cause_of cause.now) }
{
    match cause {
        Cause::Command(command) => about(command),
        Cause::Pump(list) => *list,
    }
}
