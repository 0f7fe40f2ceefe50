//! What a command is about, and the parameter that it gives.

ghost use Rattle.std.specs.Prelude.{◌≡◌, Some};
ghost use Rattle.spec_states.specs.Plan.{origin as about};
ghost use Rattle.spec_states.specs.View.{matcher as giving_matcher, order as giving_order, bounds as giving_bounds, func as giving_func};
ghost use Rattle.spec_states.specs.Wave.{parameter_of};
ghost use Rattle.gl_graph.specs.Commands.{IsMatcher, IsOrder, IsBounds, IsFunc};

use gl_kernels::Order;
use gl_plan::{Bounds, Command, Func, Matcher};

/// The number of the list that a command is about.
pub(crate) fn about(command: &Command) -> u32
    ensures { result ≡ about command.now }
{
    match command {
        Command::Add { list, .. }
        | Command::AddAll { list, .. }
        | Command::Insert { list, .. }
        | Command::Set { list, .. }
        | Command::Remove { list, .. }
        | Command::Clear { list }
        | Command::Match { list, .. }
        | Command::Order { list, .. }
        | Command::Bounds { list, .. }
        | Command::Apply { list, .. }
        | Command::Attach { list, .. }
        | Command::Detach { list, .. }
        | Command::Begin { list }
        | Command::Commit { list }
        | Command::Rollback { list }
        | Command::Freeze { list }
        | Command::Thaw { list }
        | Command::Show { list } => *list,
    }
}

/// The matcher that a command gives.
pub(crate) fn matcher_of(command: &Command) -> &Matcher
    requires { IsMatcher (parameter_of command.now) }
    ensures { parameter_of command.now ≡ Some (giving_matcher result.now) }
{
    match command {
        Command::Match { list: _, matcher } => matcher,
        _ => unreachable!(),
    }
}

/// The order that a command gives.
pub(crate) fn order_of(command: &Command) -> &Order
    requires { IsOrder (parameter_of command.now) }
    ensures { parameter_of command.now ≡ Some (giving_order result.now) }
{
    match command {
        Command::Order { list: _, order } => order,
        _ => unreachable!(),
    }
}

/// The bounds that a command gives.
pub(crate) fn bounds_of(command: &Command) -> Bounds
    requires { IsBounds (parameter_of command.now) }
    ensures { parameter_of command.now ≡ Some (giving_bounds result) }
{
    match command {
        Command::Bounds { list: _, bounds } => *bounds,
        _ => unreachable!(),
    }
}

/// The function that a command gives.
pub(crate) fn func_of(command: &Command) -> &Func
    requires { IsFunc (parameter_of command.now) }
    ensures { parameter_of command.now ≡ Some (giving_func result.now) }
{
    match command {
        Command::Apply { list: _, func } => func,
        _ => unreachable!(),
    }
}
