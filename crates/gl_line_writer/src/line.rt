//! Whole lines.

ghost use Rattle.std.specs.Prelude.{◌≡◌, ◌++◌, OnOk, OnErr};
ghost use Rattle.spec_lines.specs.Spelled.{spelled_line};
ghost use Rattle.spec_lines.specs.Same.{ReadsBack, SpellsSame};
ghost use Rattle.spec_lines.specs.Within.{IsWithin};
ghost use Rattle.gl_lines.specs.declared.line.Line.TheVariants as meant;
ghost use Rattle.gl_line_writer.specs.Groups.{IsOverOrCommand, IsCommand};

use crate::form::{
    name_bounds, name_func, name_index, name_index_value, name_matcher, name_order, name_value,
    name_values, names_bounds, names_func, names_matcher, names_order, names_path, one_name,
    two_names,
};
use crate::name::{add_after, add_may, add_name, add_names, bytes_of};
use gl_lines::{Line, Named, NamedList};
use gl_syntax::{Bytes, Memory, add_number};
use std::alloc::Global;

/// Adds the line in its one spelling, with no line feed; where memory runs out the bytes are as before. It takes memory
/// for the spelling beside them while it writes. What is added of a line that was read from any text reads back as that
/// line, columns and all; so does any line within the limits of the language, with its names in the columns where they
/// then stand.
pub fn write_line(alloc: Global, line: &Line, out: &mut Bytes) -> Result<(), Memory>
    ensures ok { OnOk result (out.new ≡ out.old ++ spelled_line line.now) }
    ensures back { ReadsBack line.now }
    ensures within { IsWithin line.now → SpellsSame line.now }
    ensures err { OnErr result (out.new ≡ out.old) }
{
    let mut text = Bytes::new(alloc);
    add_line(line, &mut text)?;
    out.push_all(text.as_slice())
}

/// Adds the line in its one spelling, with no line feed. It recurses once a level of nesting. Where memory runs out
/// part of it may be added.
pub fn add_line(line: &Line, out: &mut Bytes) -> Result<(), Memory>
    ensures { OnOk result (out.new ≡ out.old ++ spelled_line line.now) }
{
    match line {
        Line::Limit { limit } => add_limit(*limit, out),
        Line::Source { name } => one_name(b"source", bytes_of(name), out),
        Line::Row { list, value } => name_value(b"row", bytes_of(list), value, out),
        Line::Csv { list } => one_name(b"csv", bytes_of(list), out),
        Line::EndCsv => out.push_all(b"end csv"),
        Line::Listen {
            name,
            list,
            after,
            echo,
        } => add_listen(name, list, after, *echo, out),
        Line::Writer => out.push_all(b"writer"),
        Line::Section => out.push_all(b"section"),
        _ => add_over(line, out),
    }
}

// A list over others, or a command.
fn add_over(line: &Line, out: &mut Bytes) -> Result<(), Memory>
    requires { IsOverOrCommand line.now }
    ensures { OnOk result (out.new ≡ out.old ++ spelled_line line.now) }
{
    match line {
        Line::Filter {
            name,
            input,
            matcher,
        } => names_matcher(b"filter", bytes_of(name), bytes_of(input), matcher, out),
        Line::Sorted { name, input, order } => names_order(
            b"sorted",
            bytes_of(name),
            bytes_of(input),
            order,
            out,
        ),
        Line::Unique { name, input, order } => names_order(
            b"unique",
            bytes_of(name),
            bytes_of(input),
            order,
            out,
        ),
        Line::Grouping { name, input, order } => names_order(
            b"grouping",
            bytes_of(name),
            bytes_of(input),
            order,
            out,
        ),
        Line::Range {
            name,
            input,
            bounds,
        } => names_bounds(b"range", bytes_of(name), bytes_of(input), *bounds, out),
        Line::Function { name, input, func } => names_func(
            b"function",
            bytes_of(name),
            bytes_of(input),
            func,
            out,
        ),
        Line::Collection { name, input, kids } => {
            names_path(
                b"collection",
                bytes_of(name),
                bytes_of(input),
                &kids.path,
                out,
            )
        }
        Line::Composite { name, members, may } => add_composite(name, members, may, out),
        Line::Transaction { name, input } => two_names(
            b"transaction",
            bytes_of(name),
            bytes_of(input),
            out,
        ),
        Line::Freezable { name, input } => two_names(
            b"freezable",
            bytes_of(name),
            bytes_of(input),
            out,
        ),
        Line::Proxy { name, input } => two_names(b"proxy", bytes_of(name), bytes_of(input), out),
        _ => add_command(line, out),
    }
}

fn add_command(line: &Line, out: &mut Bytes) -> Result<(), Memory>
    requires { IsCommand line.now }
    ensures { OnOk result (out.new ≡ out.old ++ spelled_line line.now) }
{
    match line {
        Line::Add { list, value } => name_value(b"add", bytes_of(list), value, out),
        Line::AddAll { list, values } => name_values(b"addall", bytes_of(list), values, out),
        Line::Insert { list, index, value } => {
            name_index_value(b"insert", bytes_of(list), *index, value, out)
        }
        Line::Set { list, index, value } => name_index_value(
            b"set",
            bytes_of(list),
            *index,
            value,
            out,
        ),
        Line::Remove { list, index } => name_index(b"remove", bytes_of(list), *index, out),
        Line::Clear { list } => one_name(b"clear", bytes_of(list), out),
        Line::Match { list, matcher } => name_matcher(b"match", bytes_of(list), matcher, out),
        Line::Order { list, order } => name_order(b"order", bytes_of(list), order, out),
        Line::Bounds { list, bounds } => name_bounds(b"bounds", bytes_of(list), *bounds, out),
        Line::Apply { list, func } => name_func(b"apply", bytes_of(list), func, out),
        Line::Attach { list, member } => two_names(
            b"attach",
            bytes_of(list),
            bytes_of(member),
            out,
        ),
        Line::Detach { list, index } => name_index(b"detach", bytes_of(list), *index, out),
        Line::Begin { list } => one_name(b"begin", bytes_of(list), out),
        Line::Commit { list } => one_name(b"commit", bytes_of(list), out),
        Line::Rollback { list } => one_name(b"rollback", bytes_of(list), out),
        Line::Freeze { list } => one_name(b"freeze", bytes_of(list), out),
        Line::Thaw { list } => one_name(b"thaw", bytes_of(list), out),
        Line::Show { list } => one_name(b"show", bytes_of(list), out),
        _ => unreachable!(),
    }
}

/// Adds the line of the limit, with no line feed. Where memory runs out part of it may be added.
pub fn add_limit(limit: u64, out: &mut Bytes) -> Result<(), Memory>
    ensures { OnOk result (out.new ≡ out.old ++ spelled_line (meant.Limit limit)) }
{
    out.push_all(b"limit ")?;
    add_number(limit, out)
}

fn add_composite(
    name: &Named,
    members: &NamedList,
    may: &NamedList,
    out: &mut Bytes,
) -> Result<(), Memory>
    ensures { OnOk result
        (out.new ≡ out.old ++ spelled_line (meant.Composite name.now members.now may.now)) }
{
    out.push_all(b"composite ")?;
    add_name(name, out)?;
    add_names(members.as_slice(), out)?;
    add_may(may.as_slice(), out)
}

fn add_listen(
    name: &Named,
    list: &Named,
    after: &NamedList,
    echo: bool,
    out: &mut Bytes,
) -> Result<(), Memory>
    ensures { OnOk result
        (out.new ≡ out.old ++ spelled_line (meant.Listen name.now list.now after.now echo)) }
{
    one_name(b"listen", bytes_of(name), out)?;
    one_name(b" on", bytes_of(list), out)?;
    add_after(after.as_slice(), out)?;
    if echo {
        return out.push_all(b" echo");
    }
    Ok(())
}
