//! Lines of listeners: a name, ` on ` and a list, the listeners after ` after `, and ` echo`.

ghost use Rattle.std.specs.Prelude.{◌≡◌, ◌+◌, ◌<◌, ◌^◌, false, length, codes, IfOk};
ghost use Rattle.spec_syntax.specs.Reader.{made, seq, close, maybe};
ghost use Rattle.spec_syntax.specs.ValueReader.{is};
ghost use Rattle.spec_lines.specs.Line as form;
ghost use Rattle.spec_lines.specs.Reader.{read_formed, read_names, read_echo, read_ending, read_endings};
ghost use Rattle.gl_syntax.specs.Stop.{Reads};
ghost use Rattle.gl_line_reader.specs.Named.{read_named};
ghost use Rattle.gl_line_reader.specs.Endings.{told, ending_of};

use crate::named::{named_ahead, names_ahead, past};
use crate::table::row_ahead;
use gl_lines::{Line, Named, NamedList};
use gl_syntax::{Stop, begins_with, word};
use std::alloc::Global;

// What stands after the list of a listener.
#[derive(Clone, Copy)]
enum Ending {
    After,
    Echo,
}

const ENDINGS: [(&str, Ending); 2] = [(" after ", Ending::After), (" echo", Ending::Echo)];

/// The line of a listener, from after its first word on.
#[tactic(auto, using(crate::proofs::Endings::listened_found, crate::proofs::Endings::listened_stops, crate::proofs::Endings::listened_ends))]
pub(crate) fn listener(alloc: Global, column: u64, bytes: &[u8]) -> Result<(Line, &[u8]), Stop>
    requires { column + length bytes.now + 7 < 2 ^ 64 }
    ensures { Reads result (read_formed (column, form.listened) bytes.now) }
{
    let (name, rest) = listening_name(alloc, column, bytes)?;
    let column = past(column, &name) + 4;
    let (list, rest) = named_ahead(alloc, column, rest)?;
    let ((after, echo), rest) = endings_ahead(alloc, past(column, &list) + 7, rest)?;
    Ok((
        Line::Listen {
            name,
            list,
            after,
            echo,
        },
        rest,
    ))
}

// The name and the bytes after ` on ` after it.
#[tactic(auto, using(spec_syntax::proofs::Joints::close_on, spec_syntax::proofs::Joints::close_stops, spec_syntax::proofs::Joints::close_ends, crate::proofs::Joins::word_length))]
fn listening_name(alloc: Global, column: u64, bytes: &[u8]) -> Result<(Named, &[u8]), Stop>
    ensures read { Reads result (close (read_named column) (codes " on ") bytes.now) }
    ensures used { IfOk result (λ x. length bytes.now ≡ length x.0.name + 4 + length x.1.now) }
{
    let (name, rest) = named_ahead(alloc, column, bytes)?;
    let rest = word(b" on ", rest)?;
    Ok((name, rest))
}

// The listeners after ` after `, the first of which stands in this column, and whether there is an echo.
#[tactic(auto, using(crate::proofs::Endings::endings_none, crate::proofs::Endings::endings_on, crate::proofs::Endings::endings_stop, crate::proofs::Joins::table_rest))]
fn endings_ahead(
    alloc: Global,
    column: u64,
    bytes: &[u8],
) -> Result<((NamedList, bool), &[u8]), Stop>
    requires { column + length bytes.now < 2 ^ 64 }
    ensures { Reads result (made (told column) (read_endings bytes.now)) }
{
    if !begins_with(b' ', bytes) {
        return Ok(((NamedList::new(alloc), false), bytes));
    }
    let (ending, rest) = row_ahead(&ENDINGS, bytes)?;
    ending_after(alloc, ending, column, rest)
}

// What the ending comes to, after its word.
fn ending_after(
    alloc: Global,
    ending: Ending,
    column: u64,
    bytes: &[u8],
) -> Result<((NamedList, bool), &[u8]), Stop>
    requires { column + length bytes.now < 2 ^ 64 }
    ensures { Reads result (made (told column) (read_ending (ending_of ending) bytes.now)) }
{
    match ending {
        Ending::After => after_ahead(alloc, column, bytes),
        Ending::Echo => Ok(((NamedList::new(alloc), true), bytes)),
    }
}

fn after_ahead(alloc: Global, column: u64, bytes: &[u8]) -> Result<((NamedList, bool), &[u8]), Stop>
    requires { column + length bytes.now < 2 ^ 64 }
    ensures { Reads result
        (made (told column)
        (seq (read_names 44 (codes ",")) (maybe false (is 32) read_echo) bytes.now)) }
{
    let (after, rest) = names_ahead(alloc, b',', column, bytes)?;
    let (echo, rest) = echo_ahead(rest)?;
    Ok(((after, echo), rest))
}

// Whether an echo stands here.
fn echo_ahead(bytes: &[u8]) -> Result<(bool, &[u8]), Stop>
    ensures { Reads result (maybe false (is 32) read_echo bytes.now) }
{
    if !begins_with(b' ', bytes) {
        return Ok((false, bytes));
    }
    let rest = word(b" echo", bytes)?;
    Ok((true, rest))
}
