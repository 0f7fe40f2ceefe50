//! Lines.

ghost use Rattle.std.specs.Prelude.{◌+◌, ◌<◌, ◌≤◌, ◌^◌, length, MatchResult, IfOk};
ghost use Rattle.spec_syntax.specs.Language.{Spell};
ghost use Rattle.spec_lines.specs.Line.{line_of_text};
ghost use Rattle.spec_lines.specs.Reader.{read_formed};
ghost use Rattle.gl_syntax.specs.Stop.{Reads};
ghost use Rattle.gl_syntax.specs.Fault.{IsFault};
ghost use Rattle.gl_line_reader.specs.Keywords.{form_of, read_keyword, read_any_line};

use crate::composite::composite;
use crate::keyword::{KEYWORDS, Keyword};
use crate::listener::listener;
use crate::one_name::{
    limit_ahead, name_bounds, name_func, name_index, name_index_value, name_matcher, name_order,
    name_value, name_values, one_name,
};
use crate::table::row_ahead;
use crate::two_names::{
    names_bounds, names_func, names_matcher, names_order, names_path, two_names,
};
use gl_lines::Line;
use gl_syntax::{ReadFault, Stop, fault_at};
use std::alloc::Global;

/// The line that the bytes spell, without the byte that ends it; its names stand in columns from 1 on. It takes memory
/// for what the line names and says, and goes over the bytes once, with a look at the words that lines begin with. It
/// recurses once a level of nesting, of which values have 64 at most.
#[tactic(auto, using(crate::proofs::Lines::spelled_all, crate::proofs::Lines::spelled_prefix, crate::proofs::Lines::spelled_none, crate::proofs::Lines::left_le, crate::proofs::Lines::rest_of))]
pub fn read_line(alloc: Global, bytes: &[u8]) -> Result<Line, ReadFault>
    ensures { MatchResult result (Spell line_of_text bytes.now) (IsFault line_of_text bytes.now) }
{
    match line_ahead(alloc, bytes) {
        Ok((line, rest)) => {
            if rest.is_empty() {
                return Ok(line);
            }
            drop(line);
            Err(fault_at(bytes, rest.len()))
        }
        Err(Stop::Form { left }) => Err(fault_at(bytes, left)),
        Err(Stop::Memory) => Err(ReadFault::Memory),
    }
}

// The line and the bytes after it.
#[tactic(auto, using(crate::proofs::Lines::line_on, crate::proofs::Lines::line_stops))]
fn line_ahead(alloc: Global, bytes: &[u8]) -> Result<(Line, &[u8]), Stop>
    ensures { Reads result (read_any_line bytes.now) }
{
    let (keyword, rest) = keyword_ahead(bytes)?;
    let column = (bytes.len() - rest.len()) as u64 + 1;
    formed_ahead(alloc, keyword, column, rest)
}

#[tactic(auto, unfolding(crate::specs::Keywords::read_keyword))]
fn keyword_ahead(bytes: &[u8]) -> Result<(Keyword, &[u8]), Stop>
    ensures read { Reads result (read_keyword bytes.now) }
    ensures within { IfOk result (λ x. length x.1.now ≤ length bytes.now) }
{
    row_ahead(&KEYWORDS, bytes)
}

// The line that the word begins, from after the word on, and the bytes after it. A listener's names after ` after `
// begin 7 columns further, so the columns have these 7 to spare.
fn formed_ahead(
    alloc: Global,
    keyword: Keyword,
    column: u64,
    bytes: &[u8],
) -> Result<(Line, &[u8]), Stop>
    requires { column + length bytes.now + 7 < 2 ^ 64 }
    ensures { Reads result (read_formed (column, form_of keyword) bytes.now) }
{
    match keyword {
        Keyword::Bare(word) => Ok((word.line(), bytes)),
        Keyword::Limit => limit_ahead(column, bytes),
        Keyword::OneName(word) => one_name(alloc, word, column, bytes),
        Keyword::TwoNames(word) => two_names(alloc, word, column, bytes),
        Keyword::NameValue(word) => name_value(alloc, word, column, bytes),
        Keyword::AddAll => name_values(alloc, column, bytes),
        Keyword::Match => name_matcher(alloc, column, bytes),
        Keyword::Order => name_order(alloc, column, bytes),
        Keyword::Bounds => name_bounds(alloc, column, bytes),
        Keyword::Apply => name_func(alloc, column, bytes),
        Keyword::NameIndex(word) => name_index(alloc, word, column, bytes),
        Keyword::NameIndexValue(word) => name_index_value(alloc, word, column, bytes),
        Keyword::Filter => names_matcher(alloc, column, bytes),
        Keyword::NamesOrder(word) => names_order(alloc, word, column, bytes),
        Keyword::Range => names_bounds(alloc, column, bytes),
        Keyword::Function => names_func(alloc, column, bytes),
        Keyword::Collection => names_path(alloc, column, bytes),
        Keyword::Composite => composite(alloc, column, bytes),
        Keyword::Listen => listener(alloc, column, bytes),
    }
}
