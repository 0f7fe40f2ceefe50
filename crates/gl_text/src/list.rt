//! The lists of a plan, each source with its opening elements.

ghost use Rattle.std.specs.Prelude.{◌≡◌, ◌++◌, flat_map, IsTrue, OnOk};
ghost use Rattle.spec_plan_texts.specs.Spelled.{spelled_line};
ghost use Rattle.spec_plan_texts.specs.Canonical.{list_line};
ghost use Rattle.spec_plan_texts.specs.PlanNames.{unplaced_name};
ghost use Rattle.gl_text.specs.Sorts.{is_plain_kind};
ghost use Rattle.gl_lines.specs.declared.plan.ListKind.TheVariants as kinds;
ghost use Rattle.gl_text.specs.Texts.{names_of_decls, list_text, row_text, rows_text};

use crate::name::{add_may, add_names, list_name};
use gl_line_writer::{
    name_value, names_bounds, names_func, names_matcher, names_order, names_path, one_name,
    two_names,
};
use gl_lines::{ListDecl, ListKind, Numbers};
use gl_syntax::{Bytes, Memory, Value};

/// Adds the lines of the lists, in number order.
pub(crate) fn add_lists(lists: &[ListDecl], out: &mut Bytes) -> Result<(), Memory>
    ensures { OnOk result
        (out.new ≡ out.old ++ flat_map (list_text (names_of_decls lists.now)) lists.now) }
{
    'lists: for decl in lists {
        add_list(lists, decl, out)?;
    }
    Ok(())
}

fn add_list(lists: &[ListDecl], decl: &ListDecl, out: &mut Bytes) -> Result<(), Memory>
    ensures { OnOk result (out.new ≡ out.old ++ list_text (names_of_decls lists.now) decl.now) }
{
    let name = decl.name.text().bytes();
    add_kind(lists, name, &decl.kind, out)?;
    out.push_all(b"\n")?;
    add_rows(name, &decl.kind, out)
}

// The line that declares a list of this name.
fn add_kind(lists: &[ListDecl], name: &[u8], kind: &ListKind, out: &mut Bytes) -> Result<(), Memory>
    ensures { OnOk result
        (out.new ≡ out.old ++ spelled_line (list_line (names_of_decls lists.now) (unplaced_name name.now) kind.now)) }
{
    match kind {
        ListKind::Source { .. } => one_name(b"source", name, out),
        ListKind::Filter { input, matcher } => {
            names_matcher(b"filter", name, list_name(lists, *input), matcher, out)
        }
        ListKind::Sorted { input, order } => {
            names_order(b"sorted", name, list_name(lists, *input), order, out)
        }
        ListKind::Unique { input, order } => {
            names_order(b"unique", name, list_name(lists, *input), order, out)
        }
        ListKind::Grouping { input, order } => {
            names_order(b"grouping", name, list_name(lists, *input), order, out)
        }
        ListKind::Function { input, func } => {
            names_func(b"function", name, list_name(lists, *input), func, out)
        }
        ListKind::Collection { input, kids } => {
            names_path(
                b"collection",
                name,
                list_name(lists, *input),
                &kids.path,
                out,
            )
        }
        ListKind::Composite { members, may } => add_composite(lists, name, members, may, out),
        _ => add_plain(lists, name, kind, out),
    }
}

// The line of a list that holds no more than its input and numbers.
fn add_plain(
    lists: &[ListDecl],
    name: &[u8],
    kind: &ListKind,
    out: &mut Bytes,
) -> Result<(), Memory>
    requires { IsTrue (is_plain_kind kind.now) }
    ensures { OnOk result
        (out.new ≡ out.old ++ spelled_line (list_line (names_of_decls lists.now) (unplaced_name name.now) kind.now)) }
{
    match kind {
        ListKind::Range { input, bounds } => {
            names_bounds(b"range", name, list_name(lists, *input), *bounds, out)
        }
        ListKind::Transaction { input } => {
            two_names(b"transaction", name, list_name(lists, *input), out)
        }
        ListKind::Freezable { input } => {
            two_names(b"freezable", name, list_name(lists, *input), out)
        }
        ListKind::Proxy { input } => two_names(b"proxy", name, list_name(lists, *input), out),
        _ => unreachable!(),
    }
}

fn add_composite(
    lists: &[ListDecl],
    name: &[u8],
    members: &Numbers,
    may: &Numbers,
    out: &mut Bytes,
) -> Result<(), Memory>
    ensures { OnOk result
        (out.new ≡ out.old
        ++ spelled_line (list_line (names_of_decls lists.now) (unplaced_name name.now) (kinds.Composite members.now may.now))) }
{
    out.push_all(b"composite ")?;
    out.push_all(name)?;
    add_names(lists, members.as_slice(), out)?;
    add_may(lists, may.as_slice(), out)
}

// The opening elements of a source.
fn add_rows(name: &[u8], kind: &ListKind, out: &mut Bytes) -> Result<(), Memory>
    ensures { OnOk result (out.new ≡ out.old ++ rows_text name.now kind.now) }
{
    match kind {
        ListKind::Source { rows } => add_row_lines(name, rows.as_slice(), out),
        _ => Ok(()),
    }
}

fn add_row_lines(name: &[u8], rows: &[Value], out: &mut Bytes) -> Result<(), Memory>
    ensures { OnOk result (out.new ≡ out.old ++ flat_map (row_text name.now) rows.now) }
{
    'rows: for row in rows {
        add_row(name, row, out)?;
    }
    Ok(())
}

fn add_row(name: &[u8], row: &Value, out: &mut Bytes) -> Result<(), Memory>
    ensures { OnOk result (out.new ≡ out.old ++ row_text name.now row.now) }
{
    name_value(b"row", name, row, out)?;
    out.push_all(b"\n")
}
