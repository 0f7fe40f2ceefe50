//! The commands of a section.

ghost use Rattle.std.specs.Prelude.{◌≡◌, ◌++◌, ◌||◌, flat_map, IsTrue, OnOk};
ghost use Rattle.spec_plan_texts.specs.Spelled.{spelled_line};
ghost use Rattle.spec_plan_texts.specs.Canonical.{command_line};
ghost use Rattle.gl_text.specs.Sorts.{is_change, is_plain_command};
ghost use Rattle.gl_text.specs.Texts.{names_of_decls, command_text, section_text};

use crate::name::list_name;
use gl_line_writer::{
    name_bounds, name_func, name_index, name_index_value, name_matcher, name_order, name_value,
    name_values, one_name, two_names,
};
use gl_lines::{Command, ListDecl};
use gl_syntax::{Bytes, Memory};

/// Adds the lines of a section.
pub(crate) fn add_section(
    lists: &[ListDecl],
    commands: &[Command],
    out: &mut Bytes,
) -> Result<(), Memory>
    ensures { OnOk result
        (out.new ≡ out.old ++ section_text (names_of_decls lists.now) commands.now) }
{
    out.push_all(b"section\n")?;
    add_commands(lists, commands, out)
}

fn add_commands(lists: &[ListDecl], commands: &[Command], out: &mut Bytes) -> Result<(), Memory>
    ensures { OnOk result
        (out.new ≡ out.old ++ flat_map (command_text (names_of_decls lists.now)) commands.now) }
{
    'commands: for command in commands {
        add_line(lists, command, out)?;
    }
    Ok(())
}

fn add_line(lists: &[ListDecl], command: &Command, out: &mut Bytes) -> Result<(), Memory>
    ensures { OnOk result
        (out.new ≡ out.old ++ command_text (names_of_decls lists.now) command.now) }
{
    add_command(lists, command, out)?;
    out.push_all(b"\n")
}

fn add_command(lists: &[ListDecl], command: &Command, out: &mut Bytes) -> Result<(), Memory>
    ensures { OnOk result
        (out.new ≡ out.old ++ spelled_line (command_line (names_of_decls lists.now) command.now)) }
{
    match command {
        Command::Add { list, value } => name_value(b"add", list_name(lists, *list), value, out),
        Command::AddAll { list, values } => {
            name_values(b"addall", list_name(lists, *list), values, out)
        }
        Command::Insert { list, index, value } => {
            name_index_value(b"insert", list_name(lists, *list), *index, value, out)
        }
        Command::Set { list, index, value } => {
            name_index_value(b"set", list_name(lists, *list), *index, value, out)
        }
        Command::Remove { list, index } => {
            name_index(b"remove", list_name(lists, *list), *index, out)
        }
        Command::Clear { list } => one_name(b"clear", list_name(lists, *list), out),
        _ => add_change(lists, command, out),
    }
}

// A command that gives a list another matcher, order, function or bounds, or else one without values.
fn add_change(lists: &[ListDecl], command: &Command, out: &mut Bytes) -> Result<(), Memory>
    requires { IsTrue (is_change command.now || is_plain_command command.now) }
    ensures { OnOk result
        (out.new ≡ out.old ++ spelled_line (command_line (names_of_decls lists.now) command.now)) }
{
    match command {
        Command::Match { list, matcher } => {
            name_matcher(b"match", list_name(lists, *list), matcher, out)
        }
        Command::Order { list, order } => name_order(b"order", list_name(lists, *list), order, out),
        Command::Bounds { list, bounds } => {
            name_bounds(b"bounds", list_name(lists, *list), *bounds, out)
        }
        Command::Apply { list, func } => name_func(b"apply", list_name(lists, *list), func, out),
        _ => add_plain(lists, command, out),
    }
}

fn add_plain(lists: &[ListDecl], command: &Command, out: &mut Bytes) -> Result<(), Memory>
    requires { IsTrue (is_plain_command command.now) }
    ensures { OnOk result
        (out.new ≡ out.old ++ spelled_line (command_line (names_of_decls lists.now) command.now)) }
{
    match command {
        Command::Attach { list, member } => two_names(
            b"attach",
            list_name(lists, *list),
            list_name(lists, *member),
            out,
        ),
        Command::Detach { list, index } => {
            name_index(b"detach", list_name(lists, *list), *index, out)
        }
        Command::Begin { list } => one_name(b"begin", list_name(lists, *list), out),
        Command::Commit { list } => one_name(b"commit", list_name(lists, *list), out),
        Command::Rollback { list } => one_name(b"rollback", list_name(lists, *list), out),
        Command::Freeze { list } => one_name(b"freeze", list_name(lists, *list), out),
        Command::Thaw { list } => one_name(b"thaw", list_name(lists, *list), out),
        Command::Show { list } => one_name(b"show", list_name(lists, *list), out),
        _ => unreachable!(),
    }
}
