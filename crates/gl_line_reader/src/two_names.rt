//! Lines of two names, and of two names and one thing more. They are read from after their first word on.

ghost use Rattle.std.specs.Prelude.{◌+◌, ◌<◌, ◌^◌, length};
ghost use Rattle.spec_lines.specs.Line as form;
ghost use Rattle.spec_lines.specs.Reader.{read_formed};
ghost use Rattle.gl_lines.specs.declared.line.Line.TheVariants as line;
ghost use Rattle.gl_syntax.specs.Stop.{Reads};
ghost use Rattle.gl_line_reader.specs.Keywords.{about_two, with_order};

use crate::bounds::bounds_ahead;
use crate::func::func_ahead;
use crate::keyword::{NamesOrder, TwoNames};
use crate::matcher::matcher_ahead;
use crate::named::{named_ahead, past, spaced_name, two_spaced};
use crate::path::{order_ahead, path_ahead};
use gl_lang::Kids;
use gl_lines::Line;
use gl_syntax::Stop;
use std::alloc::Global;

/// Two names.
pub(crate) fn two_names(
    alloc: Global,
    word: TwoNames,
    column: u64,
    bytes: &[u8],
) -> Result<(Line, &[u8]), Stop>
    requires { column + length bytes.now < 2 ^ 64 }
    ensures { Reads result (read_formed (column, form.two_names (about_two word)) bytes.now) }
{
    let (first, rest) = spaced_name(alloc, column, bytes)?;
    let (second, rest) = named_ahead(alloc, past(column, &first) + 1, rest)?;
    Ok((word.line(first, second), rest))
}

/// Two names and a matcher.
pub(crate) fn names_matcher(alloc: Global, column: u64, bytes: &[u8]) -> Result<(Line, &[u8]), Stop>
    requires { column + length bytes.now < 2 ^ 64 }
    ensures { Reads result (read_formed (column, form.names_matcher line.Filter) bytes.now) }
{
    let ((name, input), rest) = two_spaced(alloc, column, bytes)?;
    let (matcher, rest) = matcher_ahead(alloc, rest)?;
    Ok((
        Line::Filter {
            name,
            input,
            matcher,
        },
        rest,
    ))
}

/// Two names and an order.
pub(crate) fn names_order(
    alloc: Global,
    word: NamesOrder,
    column: u64,
    bytes: &[u8],
) -> Result<(Line, &[u8]), Stop>
    requires { column + length bytes.now < 2 ^ 64 }
    ensures { Reads result (read_formed (column, form.names_order (with_order word)) bytes.now) }
{
    let ((name, input), rest) = two_spaced(alloc, column, bytes)?;
    let (order, rest) = order_ahead(alloc, rest)?;
    Ok((word.line(name, input, order), rest))
}

/// Two names and bounds.
pub(crate) fn names_bounds(alloc: Global, column: u64, bytes: &[u8]) -> Result<(Line, &[u8]), Stop>
    requires { column + length bytes.now < 2 ^ 64 }
    ensures { Reads result (read_formed (column, form.names_bounds line.Range) bytes.now) }
{
    let ((name, input), rest) = two_spaced(alloc, column, bytes)?;
    let (bounds, rest) = bounds_ahead(rest)?;
    Ok((
        Line::Range {
            name,
            input,
            bounds,
        },
        rest,
    ))
}

/// Two names and a function, nested 8 deep at most.
pub(crate) fn names_func(alloc: Global, column: u64, bytes: &[u8]) -> Result<(Line, &[u8]), Stop>
    requires { column + length bytes.now < 2 ^ 64 }
    ensures { Reads result (read_formed (column, form.names_func line.Function) bytes.now) }
{
    let ((name, input), rest) = two_spaced(alloc, column, bytes)?;
    let (func, rest) = func_ahead(alloc, 8, rest)?;
    Ok((Line::Function { name, input, func }, rest))
}

/// Two names and the path of the children.
pub(crate) fn names_path(alloc: Global, column: u64, bytes: &[u8]) -> Result<(Line, &[u8]), Stop>
    requires { column + length bytes.now < 2 ^ 64 }
    ensures { Reads result (read_formed (column, form.names_path line.Collection) bytes.now) }
{
    let ((name, input), rest) = two_spaced(alloc, column, bytes)?;
    let (path, rest) = path_ahead(alloc, rest)?;
    let kids = Kids { path };
    Ok((Line::Collection { name, input, kids }, rest))
}
