//! What a line adds to a plan.

ghost use Rattle.std.specs.Prelude.{◌≡◌, ◌||◌, ℕ, List, IsTrue, IfOk};
ghost use Rattle.spec_plans.specs.Tree.{Tree};
ghost use Rattle.gl_lines.specs.declared.line.Line.TheVariants as lines;
ghost use Rattle.spec_plans.specs.Lines.{is_command};
ghost use Rattle.spec_plans.specs.Making.{declared, numbers, part_of};
ghost use Rattle.gl_plan.specs.Sorts.{is_view, is_plain};
ghost use Rattle.gl_plan.specs.Tables.{rows_at};

use crate::command::command;
use crate::tables::Tables;
use gl_lines::{Line, ListDecl, ListKind, ListenerDecl, Named, NamedList};
use gl_plan_faults::NameTable;
use gl_publisher::Numbers;
use gl_value::Values;
use spec_plans::Part;
use std::alloc::{AllocError, Global};

/// What a line adds. What the line holds is moved.
pub(crate) fn part(alloc: Global, tables: &Tables, line: Line) -> Result<Part, AllocError>
    ensures { IfOk result
        (λ part. part
        ≡ part_of tables.now.lists tables.now.listeners (rows_at tables.now.rows.items) line) }
{
    match line {
        Line::Limit { limit } => Ok(Part::Limit(limit)),
        Line::Source { name } => source(tables, name),
        Line::Row { .. } | Line::Csv { .. } | Line::EndCsv => Ok(Part::Elsewhere),
        Line::Composite { name, members, may } => composite(alloc, tables, name, members, may),
        Line::Listen {
            name,
            list,
            after,
            echo,
        } => listener(alloc, tables, name, list, after, echo),
        Line::Writer => Ok(Part::Writer),
        Line::Section => Ok(Part::Section),
        other => Ok(view(&tables.lists, other)),
    }
}

// A source with its rows, which are shared with the table.
fn source(tables: &Tables, name: Named) -> Result<Part, AllocError>
    ensures { IfOk result
        (λ part. part
        ≡ part_of tables.now.lists tables.now.listeners (rows_at tables.now.rows.items)
        (lines.Source name)) }
{
    let rows = rows_of(tables, tables.lists.number_of(&name))?;
    Ok(declared(name, ListKind::Source { rows }))
}

fn rows_of(tables: &Tables, number: u32) -> Result<Values, AllocError>
    ensures { IfOk result (λ rows. rows ≡ rows_at tables.now.rows.items number) }
{
    match tables.rows.get(number as usize) {
        Some(rows) => rows.copy(),
        None => Ok(Values::new(tables.alloc)),
    }
}

fn composite(
    alloc: Global,
    tables: &Tables,
    name: Named,
    members: NamedList,
    may: NamedList,
) -> Result<Part, AllocError>
    ensures { IfOk result
        (λ part. part
        ≡ part_of tables.now.lists tables.now.listeners (rows_at tables.now.rows.items)
        (lines.Composite name members may)) }
{
    let members = numbers(alloc, &tables.lists, members.as_slice())?;
    let may = numbers(alloc, &tables.lists, may.as_slice())?;
    Ok(declared(name, ListKind::Composite { members, may }))
}

fn listener(
    alloc: Global,
    tables: &Tables,
    name: Named,
    list: Named,
    after: NamedList,
    echo: bool,
) -> Result<Part, AllocError>
    ensures { IfOk result
        (λ part. part
        ≡ part_of tables.now.lists tables.now.listeners (rows_at tables.now.rows.items)
        (lines.Listen name list after echo)) }
{
    let after = numbers(alloc, &tables.listeners, after.as_slice())?;
    Ok(Part::Listener(ListenerDecl {
        name: name.name,
        list: tables.lists.number_of(&list),
        after,
        echo,
    }))
}

// The numbers that names stand for.
fn numbers(alloc: Global, names: &NameTable, listed: &[Named]) -> Result<Numbers, AllocError>
    ensures { IfOk result (λ found. found ≡ numbers names.now listed.now) }
{
    let mut found = Numbers::new(alloc);
    for named in listed {
        found.push(names.number_of(named)).map_err(|_| AllocError)?;
    }
    Ok(found)
}

// A list of this name.
fn declared(name: Named, kind: ListKind) -> Part
    ensures { result ≡ declared name kind }
{
    Part::List(ListDecl {
        name: name.name,
        kind,
    })
}

// A list of one input and of what makes it another list, or else what `plain` makes of the line.
fn view(names: &NameTable, line: Line) -> Part
    requires { IsTrue (is_view line || (is_plain line || is_command line)) }
    ensures { (listeners : List (List ℕ)) (rows : ℕ → List Tree)
        → result ≡ part_of names.now listeners rows line }
{
    let (name, kind) = match line {
        Line::Filter {
            name,
            input,
            matcher,
        } => {
            let input = names.number_of(&input);
            (name, ListKind::Filter { input, matcher })
        }
        Line::Sorted { name, input, order } => {
            let input = names.number_of(&input);
            (name, ListKind::Sorted { input, order })
        }
        Line::Unique { name, input, order } => {
            let input = names.number_of(&input);
            (name, ListKind::Unique { input, order })
        }
        Line::Grouping { name, input, order } => {
            let input = names.number_of(&input);
            (name, ListKind::Grouping { input, order })
        }
        Line::Function { name, input, func } => {
            let input = names.number_of(&input);
            (name, ListKind::Function { input, func })
        }
        Line::Collection { name, input, kids } => {
            let input = names.number_of(&input);
            (name, ListKind::Collection { input, kids })
        }
        other => return plain(names, other),
    };
    declared(name, kind)
}

// A list whose declaration holds no more than its input and numbers, or else a command.
fn plain(names: &NameTable, line: Line) -> Part
    requires { IsTrue (is_plain line || is_command line) }
    ensures { (listeners : List (List ℕ)) (rows : ℕ → List Tree)
        → result ≡ part_of names.now listeners rows line }
{
    match line {
        Line::Range {
            name,
            input,
            bounds,
        } => {
            let input = names.number_of(&input);
            declared(name, ListKind::Range { input, bounds })
        }
        Line::Transaction { name, input } => {
            let input = names.number_of(&input);
            declared(name, ListKind::Transaction { input })
        }
        Line::Freezable { name, input } => {
            let input = names.number_of(&input);
            declared(name, ListKind::Freezable { input })
        }
        Line::Proxy { name, input } => {
            let input = names.number_of(&input);
            declared(name, ListKind::Proxy { input })
        }
        other => Part::Command(command(names, other)),
    }
}
