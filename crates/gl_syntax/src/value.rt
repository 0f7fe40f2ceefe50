//! Values.

ghost use Rattle.std.specs.Prelude.{◌≡◌, ◌≤◌, ◌+◌, ◌-◌, ◌∷◌, ◌++◌, [], length, codes, MatchResult, IfOk};
ghost use Rattle.spec_syntax.specs.Language.{Spell};
ghost use Rattle.spec_syntax.specs.Reader.{after_word};
ghost use Rattle.spec_syntax.specs.Value.{any_value};
ghost use Rattle.spec_syntax.specs.ValueReader.{read_leaf, read_elements, read_others, read_list, read_nested};
ghost use Rattle.gl_syntax.specs.Stop.{Reads};
ghost use Rattle.gl_syntax.specs.Fault.{IsFault};

use crate::number::number_ahead;
use crate::stop::{ReadFault, Stop, begins_with, word};
use crate::text::text_ahead;
use gl_value::{Value, Values};
use std::alloc::{AllocError, Global};

/// The value that the bytes spell, of any depth. It takes memory for the value, goes once over the bytes, and recurses
/// once a level of nesting: where the bytes come from outside, bound their number by the stack that there is.
#[tactic(auto, using(spec_syntax::proofs::Verdicts::spelled_all, spec_syntax::proofs::Verdicts::spelled_prefix, spec_syntax::proofs::Verdicts::spelled_none, spec_syntax::proofs::Verdicts::left_le, spec_syntax::proofs::Verdicts::rest_of,))]
pub fn read_value(alloc: Global, bytes: &[u8]) -> Result<Value, ReadFault>
    ensures { MatchResult result (Spell any_value bytes.now) (IsFault any_value bytes.now) }
{
    match value_ahead(alloc, bytes.len(), bytes) {
        Ok((value, rest)) => {
            if rest.is_empty() {
                return Ok(value);
            }
            Err(fault_at(bytes, rest.len()))
        }
        Err(Stop::Form { left }) => Err(fault_at(bytes, left)),
        Err(Stop::Memory) => Err(ReadFault::Memory),
    }
}

/// The fault in the column of the first of the bytes that are left.
pub fn fault_at(bytes: &[u8], left: usize) -> ReadFault
    requires { left ≤ length bytes.now }
    ensures { result ≡ ReadFault.Form (length bytes.now - left + 1) }
{
    ReadFault::Form {
        column: (bytes.len() - left) as u64 + 1,
    }
}

/// The value, nested at most so deep, and the bytes after it.
#[cycle(value)]
#[tactic(auto, using(spec_syntax::proofs::Enclosed::nested_list, spec_syntax::proofs::Enclosed::nested_leaf, spec_syntax::proofs::Enclosed::nested_flat,))]
pub fn value_ahead(alloc: Global, depth: usize, bytes: &[u8]) -> Result<(Value, &[u8]), Stop>
    ensures { Reads result (read_nested depth bytes.now) }
{
    if depth > 0 && begins_with(b'[', bytes) {
        return list_ahead(alloc, depth - 1, bytes);
    }
    leaf_ahead(alloc, bytes)
}

// The list of values nested at most so deep, and the bytes after it.
#[cycle(value)]
#[tactic(auto, using(spec_syntax::proofs::Enclosed::list_found, spec_syntax::proofs::Enclosed::list_stops, spec_syntax::proofs::Enclosed::list_stops_inside, spec_syntax::proofs::Enclosed::list_stops_last,))]
fn list_ahead(alloc: Global, depth: usize, bytes: &[u8]) -> Result<(Value, &[u8]), Stop>
    ensures { Reads result (read_list (read_nested depth) bytes.now) }
{
    let inside = word(b"[", bytes)?;
    let (values, rest) = elements_ahead(alloc, depth, inside)?;
    let after_word = word(b"]", rest)?;
    Ok((Value::items(values), after_word))
}

#[cycle(value)]
#[tactic(auto, using(spec_syntax::proofs::Enclosed::elements_none, spec_syntax::proofs::Enclosed::elements_found, spec_syntax::proofs::Enclosed::elements_stop,))]
pub fn elements_ahead(alloc: Global, depth: usize, bytes: &[u8]) -> Result<(Values, &[u8]), Stop>
    ensures { Reads result (read_elements (read_nested depth) bytes.now) }
{
    if begins_with(b']', bytes) {
        return Ok((Values::new(alloc), bytes));
    }
    let (first, rest) = value_ahead(alloc, depth, bytes)?;
    let values = with_value(Values::new(alloc), first)?;
    others_ahead(alloc, depth, values, rest)
}

// The elements after those that there are.
#[cycle(value)]
fn others_ahead(
    alloc: Global,
    depth: usize,
    values: Values,
    bytes: &[u8],
) -> Result<(Values, &[u8]), Stop>
    ensures { Reads result (read_others (read_nested depth) values bytes.now) }
{
    let mut values = values;
    let mut rest = bytes;
    'elements: while begins_with(b',', rest) {
        let (value, others) = after_comma(alloc, depth, rest)?;
        values = with_value(values, value)?;
        rest = others;
    }
    Ok((values, rest))
}

#[cycle(value)]
#[tactic(auto, using(spec_syntax::proofs::Joints::after_on, spec_syntax::proofs::Joints::later_stops))]
fn after_comma(alloc: Global, depth: usize, bytes: &[u8]) -> Result<(Value, &[u8]), Stop>
    ensures { Reads result (after_word (codes ",") (read_nested depth) bytes.now) }
{
    let rest = word(b",", bytes)?;
    value_ahead(alloc, depth, rest)
}

fn with_value(mut values: Values, value: Value) -> Result<Values, AllocError>
    ensures { IfOk result (λ more. more ≡ values ++ value ∷ []) }
{
    match values.push(value) {
        Ok(()) => Ok(values),
        Err((_, failed)) => Err(failed),
    }
}

fn leaf_ahead(alloc: Global, bytes: &[u8]) -> Result<(Value, &[u8]), Stop>
    ensures { Reads result (read_leaf bytes.now) }
{
    if begins_with(b'"', bytes) {
        let (text, rest) = text_ahead(alloc, bytes)?;
        return Ok((Value::text(text), rest));
    }
    let (n, rest) = number_ahead(bytes)?;
    Ok((Value::num(n), rest))
}
