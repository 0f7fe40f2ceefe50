//! Names in their columns.

ghost use Rattle.std.specs.Prelude.{◌≡◌, ◌∷◌, ◌++◌, ◌+◌, ◌<◌, ◌^◌, [], length, IfOk};
ghost use Rattle.spec_syntax.specs.Reader.{made, after_word};
ghost use Rattle.spec_lines.specs.Line.{in_row};
ghost use Rattle.spec_lines.specs.Reader.{read_names};
ghost use Rattle.gl_syntax.specs.Stop.{Reads};
ghost use Rattle.gl_line_reader.specs.Named.{read_named, read_spaced, read_two_spaced, read_more};

use crate::name::name_ahead;
use gl_lines::{Named, NamedList};
use gl_syntax::{Memory, Stop, begins_with, word};
use std::alloc::Global;

/// The name, which stands in this column, and the bytes after it. It takes memory for the name.
#[tactic(auto, using(crate::proofs::Columns::name_length))]
pub(crate) fn named_ahead(alloc: Global, column: u64, bytes: &[u8]) -> Result<(Named, &[u8]), Stop>
    ensures read { Reads result (read_named column bytes.now) }
    ensures used { IfOk result (λ x. length bytes.now ≡ length x.0.name + length x.1.now) }
{
    let (name, rest) = name_ahead(alloc, bytes)?;
    Ok((Named { name, column }, rest))
}

/// The column after the name, which stands in this column.
pub(crate) fn past(column: u64, name: &Named) -> u64
    requires { column + length name.now.name < 2 ^ 64 }
    ensures { result ≡ column + length name.now.name }
{
    column + name.name.text().bytes().len() as u64
}

/// The name and the bytes after the space after it.
#[tactic(auto, using(spec_syntax::proofs::Joints::close_on, spec_syntax::proofs::Joints::close_stops, spec_syntax::proofs::Joints::close_ends, crate::proofs::Joins::word_length))]
pub(crate) fn spaced_name(alloc: Global, column: u64, bytes: &[u8]) -> Result<(Named, &[u8]), Stop>
    ensures read { Reads result (read_spaced column bytes.now) }
    ensures used { IfOk result (λ x. length bytes.now ≡ length x.0.name + 1 + length x.1.now) }
{
    let (name, rest) = named_ahead(alloc, column, bytes)?;
    let rest = word(b" ", rest)?;
    Ok((name, rest))
}

/// Two names, each with a space after it, and the bytes after these.
pub(crate) fn two_spaced(
    alloc: Global,
    column: u64,
    bytes: &[u8],
) -> Result<((Named, Named), &[u8]), Stop>
    requires { column + length bytes.now < 2 ^ 64 }
    ensures { Reads result (read_two_spaced column bytes.now) }
{
    let (first, rest) = spaced_name(alloc, column, bytes)?;
    let (second, rest) = spaced_name(alloc, past(column, &first) + 1, rest)?;
    Ok(((first, second), rest))
}

/// Names with a separator between every two, and the bytes after them.
#[tactic(auto, using(crate::proofs::Columns::names_stop))]
pub(crate) fn names_ahead(
    alloc: Global,
    separator: u8,
    column: u64,
    bytes: &[u8],
) -> Result<(NamedList, &[u8]), Stop>
    requires { column + length bytes.now < 2 ^ 64 }
    ensures { Reads result
        (made (in_row column) (read_names separator (separator ∷ []) bytes.now)) }
{
    let (first, rest) = named_ahead(alloc, column, bytes)?;
    let after_word = past(column, &first);
    let names = with_name(NamedList::new(alloc), first)?;
    other_names(alloc, separator, names, after_word, rest)
}

// The names with those after them, each after its separator, the first of which stands in this column.
#[tactic(auto, using(crate::proofs::Columns::more_ends, crate::proofs::Columns::more_stops))]
fn other_names(
    alloc: Global,
    separator: u8,
    names: NamedList,
    column: u64,
    bytes: &[u8],
) -> Result<(NamedList, &[u8]), Stop>
    requires { column + length bytes.now < 2 ^ 64 }
    ensures { Reads result (read_more separator names column (length bytes.now) bytes.now) }
{
    let mut names = names;
    let mut column = column;
    let mut rest = bytes;
    'names: while begins_with(separator, rest) {
        let (name, others) = name_after(alloc, separator, column + 1, rest)?;
        column = past(column + 1, &name);
        names = with_name(names, name)?;
        rest = others;
    }
    Ok((names, rest))
}

/// The name after a separator; the name stands in this column.
#[tactic(auto, using(spec_syntax::proofs::Joints::after_on, spec_syntax::proofs::Joints::later_stops, crate::proofs::Joins::word_length))]
pub(crate) fn name_after(
    alloc: Global,
    separator: u8,
    column: u64,
    bytes: &[u8],
) -> Result<(Named, &[u8]), Stop>
    ensures read { Reads result (after_word (separator ∷ []) (read_named column) bytes.now) }
    ensures used { IfOk result (λ x. length bytes.now ≡ 1 + length x.0.name + length x.1.now) }
{
    let rest = word(&[separator], bytes)?;
    named_ahead(alloc, column, rest)
}

/// The names with one more.
pub(crate) fn with_name(mut names: NamedList, name: Named) -> Result<NamedList, Memory>
    ensures { IfOk result (λ more. more ≡ names ++ name ∷ []) }
{
    match names.push(name) {
        Ok(()) => Ok(names),
        Err((_, failed)) => Err(failed),
    }
}
