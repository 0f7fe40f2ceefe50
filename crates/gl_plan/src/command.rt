//! The commands that lines give.

ghost use Rattle.std.specs.Prelude.{◌≡◌, ◌||◌, ℕ, List, IsTrue};
ghost use Rattle.spec_plans.specs.Tree.{Tree};
ghost use Rattle.spec_plans.specs.declared.part.Part.TheVariants as parts;
ghost use Rattle.spec_plans.specs.Lines.{is_command};
ghost use Rattle.spec_plans.specs.Making.{part_of};
ghost use Rattle.gl_plan.specs.Sorts.{is_edit, is_bare};

use gl_lines::{Command, Line};
use gl_plan_faults::NameTable;

/// The command that a line gives. What the line holds is moved.
pub(crate) fn command(names: &NameTable, line: Line) -> Command
    requires { IsTrue (is_command line) }
    ensures { (listeners : List (List ℕ)) (rows : ℕ → List Tree)
        → parts.Command result ≡ part_of names.now listeners rows line }
{
    match line {
        Line::Match { list, matcher } => Command::Match {
            list: names.number_of(&list),
            matcher,
        },
        Line::Order { list, order } => Command::Order {
            list: names.number_of(&list),
            order,
        },
        Line::Bounds { list, bounds } => Command::Bounds {
            list: names.number_of(&list),
            bounds,
        },
        Line::Apply { list, func } => Command::Apply {
            list: names.number_of(&list),
            func,
        },
        Line::Attach { list, member } => Command::Attach {
            list: names.number_of(&list),
            member: names.number_of(&member),
        },
        Line::Detach { list, index } => Command::Detach {
            list: names.number_of(&list),
            index,
        },
        other => edit(names, other),
    }
}

// A command about an element or about several, or else what `bare` makes of the line.
fn edit(names: &NameTable, line: Line) -> Command
    requires { IsTrue (is_edit line || is_bare line) }
    ensures { (listeners : List (List ℕ)) (rows : ℕ → List Tree)
        → parts.Command result ≡ part_of names.now listeners rows line }
{
    match line {
        Line::Add { list, value } => Command::Add {
            list: names.number_of(&list),
            value,
        },
        Line::AddAll { list, values } => Command::AddAll {
            list: names.number_of(&list),
            values,
        },
        Line::Insert { list, index, value } => Command::Insert {
            list: names.number_of(&list),
            index,
            value,
        },
        Line::Set { list, index, value } => Command::Set {
            list: names.number_of(&list),
            index,
            value,
        },
        Line::Remove { list, index } => Command::Remove {
            list: names.number_of(&list),
            index,
        },
        other => bare(names, other),
    }
}

// A command that names no more than its list.
fn bare(names: &NameTable, line: Line) -> Command
    requires { IsTrue (is_bare line) }
    ensures { (listeners : List (List ℕ)) (rows : ℕ → List Tree)
        → parts.Command result ≡ part_of names.now listeners rows line }
{
    match line {
        Line::Clear { list } => Command::Clear {
            list: names.number_of(&list),
        },
        Line::Begin { list } => Command::Begin {
            list: names.number_of(&list),
        },
        Line::Commit { list } => Command::Commit {
            list: names.number_of(&list),
        },
        Line::Rollback { list } => Command::Rollback {
            list: names.number_of(&list),
        },
        Line::Freeze { list } => Command::Freeze {
            list: names.number_of(&list),
        },
        Line::Thaw { list } => Command::Thaw {
            list: names.number_of(&list),
        },
        Line::Show { list } => Command::Show {
            list: names.number_of(&list),
        },
        _ => unreachable!(),
    }
}
