//! Whether two commands are equal.

ghost use Rattle.std.specs.Prelude.{◌≡◌, ◌↔◌, IsTrue};
ghost use Rattle.gl_lines.specs.declared.plan.Command.TheVariants as commands;

use crate::alike::Alike;
use gl_lang::{Bounds, Func, Matcher, Order};
use gl_lines::Command;
use gl_value::{Value, Values};

impl Alike for Command {
    fn is_same(&self, other: &Command) -> bool {
        match self {
            Command::Add { list, value } => is_add(other, *list, value),
            Command::AddAll { list, values } => is_add_all(other, *list, values),
            Command::Insert { list, index, value } => is_insert(other, *list, *index, value),
            Command::Set { list, index, value } => is_set(other, *list, *index, value),
            Command::Remove { list, index } => is_remove(other, *list, *index),
            Command::Clear { list } => is_clear(other, *list),
            Command::Match { list, matcher } => is_match(other, *list, matcher),
            Command::Order { list, order } => is_order(other, *list, order),
            Command::Bounds { list, bounds } => is_bounds(other, *list, *bounds),
            Command::Apply { list, func } => is_apply(other, *list, func),
            Command::Attach { list, member } => is_attach(other, *list, *member),
            Command::Detach { list, index } => is_detach(other, *list, *index),
            Command::Begin { list } => is_begin(other, *list),
            Command::Commit { list } => is_commit(other, *list),
            Command::Rollback { list } => is_rollback(other, *list),
            Command::Freeze { list } => is_freeze(other, *list),
            Command::Thaw { list } => is_thaw(other, *list),
            Command::Show { list } => is_show(other, *list),
        }
    }
}

fn is_add(command: &Command, list: u32, value: &Value) -> bool
    ensures { IsTrue result ↔ (commands.Add list value.now ≡ command.now) }
{
    match command {
        Command::Add {
            list: other_list,
            value: other_value,
        } => list == *other_list && value.is_same(other_value),
        _ => false,
    }
}

fn is_add_all(command: &Command, list: u32, values: &Values) -> bool
    ensures { IsTrue result ↔ (commands.AddAll list values.now ≡ command.now) }
{
    match command {
        Command::AddAll {
            list: other_list,
            values: other_values,
        } => list == *other_list && values.is_same(other_values),
        _ => false,
    }
}

fn is_insert(command: &Command, list: u32, index: u32, value: &Value) -> bool
    ensures { IsTrue result ↔ (commands.Insert list index value.now ≡ command.now) }
{
    match command {
        Command::Insert {
            list: other_list,
            index: other_index,
            value: other_value,
        } => list == *other_list && index == *other_index && value.is_same(other_value),
        _ => false,
    }
}

fn is_set(command: &Command, list: u32, index: u32, value: &Value) -> bool
    ensures { IsTrue result ↔ (commands.Set list index value.now ≡ command.now) }
{
    match command {
        Command::Set {
            list: other_list,
            index: other_index,
            value: other_value,
        } => list == *other_list && index == *other_index && value.is_same(other_value),
        _ => false,
    }
}

fn is_remove(command: &Command, list: u32, index: u32) -> bool
    ensures { IsTrue result ↔ (commands.Remove list index ≡ command.now) }
{
    match command {
        Command::Remove {
            list: other_list,
            index: other_index,
        } => list == *other_list && index == *other_index,
        _ => false,
    }
}

fn is_clear(command: &Command, list: u32) -> bool
    ensures { IsTrue result ↔ (commands.Clear list ≡ command.now) }
{
    match command {
        Command::Clear { list: other_list } => list == *other_list,
        _ => false,
    }
}

fn is_match(command: &Command, list: u32, matcher: &Matcher) -> bool
    ensures { IsTrue result ↔ (commands.Match list matcher.now ≡ command.now) }
{
    match command {
        Command::Match {
            list: other_list,
            matcher: other_matcher,
        } => list == *other_list && matcher.same(other_matcher),
        _ => false,
    }
}

fn is_order(command: &Command, list: u32, order: &Order) -> bool
    ensures { IsTrue result ↔ (commands.Order list order.now ≡ command.now) }
{
    match command {
        Command::Order {
            list: other_list,
            order: other_order,
        } => list == *other_list && order.same(other_order),
        _ => false,
    }
}

fn is_bounds(command: &Command, list: u32, bounds: Bounds) -> bool
    ensures { IsTrue result ↔ (commands.Bounds list bounds ≡ command.now) }
{
    match command {
        Command::Bounds {
            list: other_list,
            bounds: other_bounds,
        } => list == *other_list && bounds == *other_bounds,
        _ => false,
    }
}

fn is_apply(command: &Command, list: u32, func: &Func) -> bool
    ensures { IsTrue result ↔ (commands.Apply list func.now ≡ command.now) }
{
    match command {
        Command::Apply {
            list: other_list,
            func: other_func,
        } => list == *other_list && func.same(other_func),
        _ => false,
    }
}

fn is_attach(command: &Command, list: u32, member: u32) -> bool
    ensures { IsTrue result ↔ (commands.Attach list member ≡ command.now) }
{
    match command {
        Command::Attach {
            list: other_list,
            member: other_member,
        } => list == *other_list && member == *other_member,
        _ => false,
    }
}

fn is_detach(command: &Command, list: u32, index: u32) -> bool
    ensures { IsTrue result ↔ (commands.Detach list index ≡ command.now) }
{
    match command {
        Command::Detach {
            list: other_list,
            index: other_index,
        } => list == *other_list && index == *other_index,
        _ => false,
    }
}

fn is_begin(command: &Command, list: u32) -> bool
    ensures { IsTrue result ↔ (commands.Begin list ≡ command.now) }
{
    match command {
        Command::Begin { list: other_list } => list == *other_list,
        _ => false,
    }
}

fn is_commit(command: &Command, list: u32) -> bool
    ensures { IsTrue result ↔ (commands.Commit list ≡ command.now) }
{
    match command {
        Command::Commit { list: other_list } => list == *other_list,
        _ => false,
    }
}

fn is_rollback(command: &Command, list: u32) -> bool
    ensures { IsTrue result ↔ (commands.Rollback list ≡ command.now) }
{
    match command {
        Command::Rollback { list: other_list } => list == *other_list,
        _ => false,
    }
}

fn is_freeze(command: &Command, list: u32) -> bool
    ensures { IsTrue result ↔ (commands.Freeze list ≡ command.now) }
{
    match command {
        Command::Freeze { list: other_list } => list == *other_list,
        _ => false,
    }
}

fn is_thaw(command: &Command, list: u32) -> bool
    ensures { IsTrue result ↔ (commands.Thaw list ≡ command.now) }
{
    match command {
        Command::Thaw { list: other_list } => list == *other_list,
        _ => false,
    }
}

fn is_show(command: &Command, list: u32) -> bool
    ensures { IsTrue result ↔ (commands.Show list ≡ command.now) }
{
    match command {
        Command::Show { list: other_list } => list == *other_list,
        _ => false,
    }
}
