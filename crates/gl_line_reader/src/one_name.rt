//! Lines of a number, of a name, and of a name and one thing more. They are read from after their first word on.

ghost use Rattle.std.specs.Prelude.{codes};
ghost use Rattle.spec_syntax.specs.Reader.{after_word};
ghost use Rattle.spec_syntax.specs.ValueReader.{read_nested, read_bracketed};
ghost use Rattle.spec_lines.specs.Line as form;
ghost use Rattle.spec_lines.specs.Reader.{read_formed, read_index_value};
ghost use Rattle.gl_lines.specs.declared.line.Line.TheVariants as line;
ghost use Rattle.gl_syntax.specs.Stop.{Reads};
ghost use Rattle.gl_line_reader.specs.Keywords.{about, with_value, with_index, with_value_at};

use crate::bounds::{bounds_ahead, short_ahead};
use crate::func::func_ahead;
use crate::keyword::{NameIndex, NameIndexValue, NameValue, OneName};
use crate::matcher::matcher_ahead;
use crate::named::{named_ahead, spaced_name};
use crate::path::order_ahead;
use gl_lines::Line;
use gl_syntax::{Stop, Value, elements_ahead, positive_ahead, value_ahead, word};
use gl_value::Values;
use std::alloc::Global;

/// The limit, from 1 to 2^24.
pub(crate) fn limit_ahead(column: u64, bytes: &[u8]) -> Result<(Line, &[u8]), Stop>
    ensures { Reads result (read_formed (column, form.limited) bytes.now) }
{
    let (limit, rest) = positive_ahead(1 << 24, bytes)?;
    Ok((Line::Limit { limit }, rest))
}

/// A name.
pub(crate) fn one_name(
    alloc: Global,
    word: OneName,
    column: u64,
    bytes: &[u8],
) -> Result<(Line, &[u8]), Stop>
    ensures { Reads result (read_formed (column, form.one_name (about word)) bytes.now) }
{
    let (name, rest) = named_ahead(alloc, column, bytes)?;
    Ok((word.line(name), rest))
}

/// A name and a value, nested 64 deep at most.
pub(crate) fn name_value(
    alloc: Global,
    word: NameValue,
    column: u64,
    bytes: &[u8],
) -> Result<(Line, &[u8]), Stop>
    ensures { Reads result (read_formed (column, form.name_value (with_value word)) bytes.now) }
{
    let (list, rest) = spaced_name(alloc, column, bytes)?;
    let (value, rest) = value_ahead(alloc, 64, rest)?;
    Ok((word.line(list, value), rest))
}

/// A name and a list of values.
pub(crate) fn name_values(alloc: Global, column: u64, bytes: &[u8]) -> Result<(Line, &[u8]), Stop>
    ensures { Reads result (read_formed (column, form.name_values line.AddAll) bytes.now) }
{
    let (list, rest) = spaced_name(alloc, column, bytes)?;
    let (values, rest) = values_ahead(alloc, rest)?;
    Ok((Line::AddAll { list, values }, rest))
}

// Values between brackets, which stand as deep as those of a list within a value.
#[tactic(auto, using(crate::proofs::Parts::inside_found, crate::proofs::Parts::inside_stops, crate::proofs::Parts::inside_stops_within, crate::proofs::Parts::inside_stops_last))]
fn values_ahead(alloc: Global, bytes: &[u8]) -> Result<(Values, &[u8]), Stop>
    ensures { Reads result (read_bracketed (read_nested 63) bytes.now) }
{
    let inside = word(b"[", bytes)?;
    let (values, rest) = elements_ahead(alloc, 63, inside)?;
    let after_word = word(b"]", rest)?;
    Ok((values, after_word))
}

/// A name and a matcher.
pub(crate) fn name_matcher(alloc: Global, column: u64, bytes: &[u8]) -> Result<(Line, &[u8]), Stop>
    ensures { Reads result (read_formed (column, form.name_matcher line.Match) bytes.now) }
{
    let (list, rest) = spaced_name(alloc, column, bytes)?;
    let (matcher, rest) = matcher_ahead(alloc, rest)?;
    Ok((Line::Match { list, matcher }, rest))
}

/// A name and an order.
pub(crate) fn name_order(alloc: Global, column: u64, bytes: &[u8]) -> Result<(Line, &[u8]), Stop>
    ensures { Reads result (read_formed (column, form.name_order line.Order) bytes.now) }
{
    let (list, rest) = spaced_name(alloc, column, bytes)?;
    let (order, rest) = order_ahead(alloc, rest)?;
    Ok((Line::Order { list, order }, rest))
}

/// A name and bounds.
pub(crate) fn name_bounds(alloc: Global, column: u64, bytes: &[u8]) -> Result<(Line, &[u8]), Stop>
    ensures { Reads result (read_formed (column, form.name_bounds line.Bounds) bytes.now) }
{
    let (list, rest) = spaced_name(alloc, column, bytes)?;
    let (bounds, rest) = bounds_ahead(rest)?;
    Ok((Line::Bounds { list, bounds }, rest))
}

/// A name and a function, nested 8 deep at most.
pub(crate) fn name_func(alloc: Global, column: u64, bytes: &[u8]) -> Result<(Line, &[u8]), Stop>
    ensures { Reads result (read_formed (column, form.name_func line.Apply) bytes.now) }
{
    let (list, rest) = spaced_name(alloc, column, bytes)?;
    let (func, rest) = func_ahead(alloc, 8, rest)?;
    Ok((Line::Apply { list, func }, rest))
}

/// A name and an index.
pub(crate) fn name_index(
    alloc: Global,
    word: NameIndex,
    column: u64,
    bytes: &[u8],
) -> Result<(Line, &[u8]), Stop>
    ensures { Reads result (read_formed (column, form.name_index (with_index word)) bytes.now) }
{
    let (list, rest) = spaced_name(alloc, column, bytes)?;
    let (index, rest) = short_ahead(rest)?;
    Ok((word.line(list, index), rest))
}

/// A name, an index and a value.
pub(crate) fn name_index_value(
    alloc: Global,
    word: NameIndexValue,
    column: u64,
    bytes: &[u8],
) -> Result<(Line, &[u8]), Stop>
    ensures { Reads result
        (read_formed (column, form.name_index_value (with_value_at word)) bytes.now) }
{
    let (list, rest) = spaced_name(alloc, column, bytes)?;
    let ((index, value), rest) = index_value(alloc, rest)?;
    Ok((word.line(list, index, value), rest))
}

fn index_value(alloc: Global, bytes: &[u8]) -> Result<((u32, Value), &[u8]), Stop>
    ensures { Reads result (read_index_value bytes.now) }
{
    let (index, rest) = short_ahead(bytes)?;
    let (value, rest) = value_after_space(alloc, rest)?;
    Ok(((index, value), rest))
}

#[tactic(auto, using(spec_syntax::proofs::Joints::after_on, spec_syntax::proofs::Joints::later_stops))]
fn value_after_space(alloc: Global, bytes: &[u8]) -> Result<(Value, &[u8]), Stop>
    ensures { Reads result (after_word (codes " ") (read_nested 64) bytes.now) }
{
    let rest = word(b" ", bytes)?;
    value_ahead(alloc, 64, rest)
}
