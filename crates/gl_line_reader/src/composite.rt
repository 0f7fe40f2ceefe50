//! Lines of composites: a name, members, each after a space, and after ` may ` the lists that may become members.

ghost use Rattle.std.specs.Prelude.{◌+◌, ◌<◌, ◌^◌, [], length};
ghost use Rattle.spec_syntax.specs.Reader.{made};
ghost use Rattle.spec_lines.specs.Line as form;
ghost use Rattle.spec_lines.specs.Line.{in_row};
ghost use Rattle.spec_lines.specs.Reader.{read_formed, read_may};
ghost use Rattle.gl_syntax.specs.Stop.{Reads};
ghost use Rattle.gl_line_reader.specs.Members.{read_members, read_part, may_or};

use crate::named::{name_after, named_ahead, names_ahead, past, with_name};
use crate::table::lesser;
use gl_lines::{Line, Named, NamedList};
use gl_syntax::{Stop, begins_with, word};
use std::alloc::Global;

// What stands after a member, where the line goes on.
enum Part {
    Member(Named),
    // The lists that may become members.
    May(NamedList),
}

/// The line of a composite, from after its first word on.
#[tactic(auto, using(crate::proofs::Members::composite_found, crate::proofs::Members::composite_stops, crate::proofs::Members::composite_ends))]
pub(crate) fn composite(alloc: Global, column: u64, bytes: &[u8]) -> Result<(Line, &[u8]), Stop>
    requires { column + length bytes.now + 7 < 2 ^ 64 }
    ensures { Reads result (read_formed (column, form.composed) bytes.now) }
{
    let (name, rest) = named_ahead(alloc, column, bytes)?;
    let ((members, may), rest) = members_ahead(alloc, past(column, &name), rest)?;
    Ok((Line::Composite { name, members, may }, rest))
}

// The members, each after a space, the first of which stands in this column, and the lists that may become members.
#[tactic(auto, using(crate::proofs::Members::members_end))]
fn members_ahead(
    alloc: Global,
    column: u64,
    bytes: &[u8],
) -> Result<((NamedList, NamedList), &[u8]), Stop>
    requires { column + length bytes.now + 7 < 2 ^ 64 }
    ensures { Reads result (read_members [] column (length bytes.now) bytes.now) }
{
    let mut members = NamedList::new(alloc);
    let mut column = column;
    let mut rest = bytes;
    'members: while begins_with(b' ', rest) {
        let (part, others) = part_ahead(alloc, column, rest)?;
        let member = match part {
            Part::Member(member) => member,
            Part::May(may) => return Ok(((members, may), others)),
        };
        column = past(column + 1, &member);
        members = with_name(members, member)?;
        rest = others;
    }
    Ok(((members, NamedList::new(alloc)), rest))
}

// One member more, or the lists that may become members; the space before them stands in this column.
fn part_ahead(alloc: Global, column: u64, bytes: &[u8]) -> Result<(Part, &[u8]), Stop>
    requires { column + length bytes.now + 7 < 2 ^ 64 }
    ensures { Reads result (read_part column bytes.now) }
{
    match name_after(alloc, b' ', column + 1, bytes) {
        Ok((member, rest)) => Ok((Part::Member(member), rest)),
        Err(Stop::Form { left }) => may_part(alloc, left, column, bytes),
        Err(Stop::Memory) => Err(Stop::Memory),
    }
}

// The lists that may become members, where the reader of a member stopped with so many bytes left.
fn may_part(alloc: Global, left: usize, column: u64, bytes: &[u8]) -> Result<(Part, &[u8]), Stop>
    requires { column + length bytes.now + 7 < 2 ^ 64 }
    ensures { Reads result (may_or left column bytes.now) }
{
    match may_ahead(alloc, column + 5, bytes) {
        Ok((may, rest)) => Ok((Part::May(may), rest)),
        Err(Stop::Form { left: least }) => Err(Stop::Form {
            left: lesser(least, left),
        }),
        Err(Stop::Memory) => Err(Stop::Memory),
    }
}

// The lists after ` may `, the first of which stands in this column.
#[tactic(auto, using(crate::proofs::Members::may_on, crate::proofs::Members::may_stops, crate::proofs::Joins::word_length))]
fn may_ahead(alloc: Global, column: u64, bytes: &[u8]) -> Result<(NamedList, &[u8]), Stop>
    requires { column + length bytes.now < 2 ^ 64 }
    ensures { Reads result (made (in_row column) (read_may bytes.now)) }
{
    let rest = word(b" may ", bytes)?;
    names_ahead(alloc, b' ', column, rest)
}
